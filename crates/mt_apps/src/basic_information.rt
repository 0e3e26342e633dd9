//! Basic Information: the node's own data.

ghost use Rattle.std.specs.Prelude.{◌≡◌, IfOk, Some};
ghost use Rattle.mt_apps.specs.BasicInformation.{basic_information_value, minima_value};

use mt_meta::clusters::basic_information::{
    CAPABILITY_MINIMA, DATA_MODEL_REVISION, HARDWARE_VERSION, HARDWARE_VERSION_STRING, PRODUCT_ID,
    PRODUCT_NAME, SOFTWARE_VERSION, SOFTWARE_VERSION_STRING, VENDOR_ID, VENDOR_NAME,
};
use mt_model::limits::{CASE_SESSIONS, SUBSCRIPTIONS};
use mt_tlv::{Bytes, Members, Tag, Value};
use std::alloc::{AllocError, Global};

/// The node's own data.
pub(crate) fn basic_information_value(alloc: Global, leaf: u32) -> Result<Option<Value>, AllocError>
    ensures { IfOk result (λ value. value ≡ basic_information_value leaf) }
{
    match leaf {
        DATA_MODEL_REVISION => Ok(Some(Value::Uint(1))),
        VENDOR_NAME => some_text(alloc, b"Bench"),
        VENDOR_ID => Ok(Some(Value::Uint(0xfff1))),
        PRODUCT_NAME => some_text(alloc, b"Bench node"),
        PRODUCT_ID => Ok(Some(Value::Uint(0x8000))),
        HARDWARE_VERSION => Ok(Some(Value::Uint(0))),
        HARDWARE_VERSION_STRING => some_text(alloc, b"0"),
        SOFTWARE_VERSION => Ok(Some(Value::Uint(1))),
        SOFTWARE_VERSION_STRING => some_text(alloc, b"1"),
        CAPABILITY_MINIMA => some_minima(alloc),
        _ => Ok(None),
    }
}

fn some_text(alloc: Global, text: &[u8]) -> Result<Option<Value>, AllocError>
    ensures { IfOk result (λ value. value ≡ Some (Value.Text text.now)) }
{
    Ok(Some(Value::Text(Bytes::from_slice(alloc, text)?)))
}

// How many CASE sessions and subscriptions each fabric has at least.
fn some_minima(alloc: Global) -> Result<Option<Value>, AllocError>
    ensures { IfOk result (λ value. value ≡ Some minima_value) }
{
    let fields = vec![in alloc;
        (Tag::Context(0), Value::Uint(CASE_SESSIONS as u64)),
        (Tag::Context(1), Value::Uint(SUBSCRIPTIONS as u64)),
    ]?;
    Ok(Some(Value::Struct(Members::from_vec(fields))))
}
