//! General Commissioning: what never changes of it.

ghost use Rattle.std.specs.Prelude.{◌≡◌, IfOk, Some};
ghost use Rattle.mt_apps.specs.GeneralCommissioning.{commissioning_info_value, general_commissioning_value};

use mt_meta::clusters::general_commissioning::{
    BASIC_COMMISSIONING_INFO, LOCATION_CAPABILITY, SUPPORTS_CONCURRENT_CONNECTION,
};
use mt_tlv::{Members, Tag, Value};
use std::alloc::{AllocError, Global};

/// How long the fail-safe is armed, where the node may stand (indoors and outdoors), and that the
/// connection over which it is commissioned stays while it joins a network.
pub(crate) fn general_commissioning_value(
    alloc: Global,
    leaf: u32,
) -> Result<Option<Value>, AllocError>
    ensures { IfOk result (λ value. value ≡ general_commissioning_value leaf) }
{
    match leaf {
        BASIC_COMMISSIONING_INFO => some_commissioning_info(alloc),
        LOCATION_CAPABILITY => Ok(Some(Value::Uint(2))),
        SUPPORTS_CONCURRENT_CONNECTION => Ok(Some(Value::Bool(true))),
        _ => Ok(None),
    }
}

// How long the fail-safe is armed at first and at most, in seconds.
fn some_commissioning_info(alloc: Global) -> Result<Option<Value>, AllocError>
    ensures { IfOk result (λ value. value ≡ Some commissioning_info_value) }
{
    let fields = vec![in alloc;
        (Tag::Context(0), Value::Uint(60)),
        (Tag::Context(1), Value::Uint(900)),
    ]?;
    Ok(Some(Value::Struct(Members::from_vec(fields))))
}
