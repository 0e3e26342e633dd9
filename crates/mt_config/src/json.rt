//! Reading single values, fields and lists out of JSON.

ghost use Rattle.std.specs.Prelude.{◌≡◌, ◌≤◌, Option, length, IfOk};
ghost use Rattle.serde_json.specs.Data.{Data};
ghost use Rattle.serde_json.specs.Find.{as_str};
ghost use Rattle.serde_json.specs.View.{view, items_view};
ghost use Rattle.mt_config.specs.Json.{octets, octets_of, id, number, field, optional, items_of, each, list_of};
ghost use Rattle.mt_config.specs.Gives.{fault_in, Gives};
ghost use Rattle.mt_config.specs.declared.json.Unread.TheVariants.{Memory};

use crate::configuration::{ConfigFault, ConfigField};
use hex::{FromHex, FromHexError};
use mt_model::Listed;
use mt_tlv::Bytes;
use serde_json::Value;
use std::alloc::{AllocError, AllocFailed, Global};

/// Why a value was not read.
#[derive(Clone, Copy, Debug, Drop)]
pub(crate) enum Unread {
    /// It has another form.
    Misformed,
    Memory,
}

impl Unread {
    /// The fault of a configuration in whose list this came.
    pub(crate) fn in_field(self, place: ConfigField) -> ConfigFault
        ensures { result ≡ fault_in place self }
    {
        match self {
            Unread::Misformed => ConfigFault::Field(place),
            Unread::Memory => ConfigFault::Memory,
        }
    }
}

impl From<AllocError> for Unread {
    ghost from_gives = { λ _ e. e ≡ Memory };

    fn from(_error: AllocError) -> Unread {
        Unread::Memory
    }
}

impl<T: Drop> From<AllocFailed<T>> for Unread {
    ghost from_gives = { λ _ e. e ≡ Memory };

    fn from(_error: AllocFailed<T>) -> Unread {
        Unread::Memory
    }
}

/// What stands in JSON in one form.
pub(crate) trait FromJson: Sized {
    ghost form: { Data → Option Self };

    fn from_json(alloc: Global, value: &Value) -> Result<Self, Unread>
        ensures { Gives (λ x. x) result (form (view value.now)) };
}

impl FromJson for Bytes {
    ghost form = { octets };

    #[tactic(auto, unfolding(crate::specs::Json::octets))]
    fn from_json(alloc: Global, value: &Value) -> Result<Bytes, Unread> {
        let text = text(value)?;
        match hex::decode(alloc, text) {
            Ok(bytes) => Ok(Bytes::from_vec(bytes)),
            Err(FromHexError::OutOfMemory) => Err(Unread::Memory),
            Err(_) => Err(Unread::Misformed),
        }
    }
}

impl<const N: usize> FromJson for [u8; N] {
    ghost form = { octets_of N };

    #[tactic(auto, unfolding(crate::specs::Json::octets_of))]
    fn from_json(_alloc: Global, value: &Value) -> Result<[u8; N], Unread> {
        let text = text(value)?;
        match <[u8; N]>::from_hex(text) {
            Ok(bytes) => Ok(bytes),
            Err(_) => Err(Unread::Misformed),
        }
    }
}

/// An id is 16 hex digits.
impl FromJson for u64 {
    ghost form = { id };

    #[tactic(auto, unfolding(crate::specs::Json::id))]
    fn from_json(alloc: Global, value: &Value) -> Result<u64, Unread> {
        let bytes = <[u8; 8]>::from_json(alloc, value)?;
        Ok(u64::from_be_bytes(bytes))
    }
}

impl FromJson for u32 {
    ghost form = { number 0xffff_ffff };

    fn from_json(_alloc: Global, value: &Value) -> Result<u32, Unread> {
        let number = number(value, 0xffff_ffff)?;
        Ok(number as u32)
    }
}

impl FromJson for u16 {
    ghost form = { number 0xffff };

    fn from_json(_alloc: Global, value: &Value) -> Result<u16, Unread> {
        let number = number(value, 0xffff)?;
        Ok(number as u16)
    }
}

impl FromJson for u8 {
    ghost form = { number 0xff };

    fn from_json(_alloc: Global, value: &Value) -> Result<u8, Unread> {
        let number = number(value, 0xff)?;
        Ok(number as u8)
    }
}

/// The field of an object, which must be there.
#[tactic(auto, unfolding(crate::specs::Json::field))]
pub(crate) fn field<T: FromJson>(alloc: Global, object: &Value, name: &str) -> Result<T, Unread>
    ensures { Gives (λ x. x) result (field name.now T.form (view object.now)) }
{
    match object.get(name) {
        Some(value) => T::from_json(alloc, value),
        None => Err(Unread::Misformed),
    }
}

/// The field of an object, where it is there and not null.
#[tactic(auto, unfolding(crate::specs::Json::optional))]
pub(crate) fn optional<T: FromJson>(
    alloc: Global,
    object: &Value,
    name: &str,
) -> Result<Option<T>, Unread>
    ensures { Gives (λ x. x) result (optional name.now T.form (view object.now)) }
{
    match object.get(name) {
        Some(value) if !value.is_null() => Ok(Some(T::from_json(alloc, value)?)),
        _ => Ok(None),
    }
}

/// The items of the list of this name, which has none where it is missing, and at most so many.
#[tactic(auto, unfolding(crate::specs::Json::items_of))]
pub(crate) fn items<'v>(object: &'v Value, name: &str, most: usize) -> Result<&'v [Value], Unread>
    ensures items { Gives (λ items. items_view items.now) result (items_of name.now most (view object.now)) }
    ensures within { IfOk result (λ items. length items.now ≤ most) }
{
    let Some(value) = object.get(name) else {
        return Ok(&[]);
    };
    let Some(items) = value.as_array() else {
        return Err(Unread::Misformed);
    };
    if items.len() > most {
        return Err(Unread::Misformed);
    }
    Ok(items.as_slice())
}

/// The list of this name, each of whose items has the form.
#[tactic(auto, unfolding(crate::specs::Json::list_of))]
pub(crate) fn list<T: FromJson + Drop>(
    alloc: Global,
    object: &Value,
    name: &str,
    most: usize,
) -> Result<Listed<T>, Unread>
    ensures { Gives (λ x. x) result (list_of name.now most T.form (view object.now)) }
{
    let items = items(object, name, most)?;
    each(alloc, items)
}

fn each<T: FromJson + Drop>(alloc: Global, items: &[Value]) -> Result<Listed<T>, Unread>
    ensures { Gives (λ x. x) result (each T.form (items_view items.now)) }
{
    let mut found = Vec::new(alloc);
    for item in items {
        found.push(T::from_json(alloc, item)?)?;
    }
    Ok(Listed::from_vec(found))
}

/// The text of this name.
#[tactic(auto, unfolding(crate::specs::Json::field))]
pub(crate) fn text_field(alloc: Global, object: &Value, name: &str) -> Result<Bytes, Unread>
    ensures { Gives (λ x. x) result (field name.now as_str (view object.now)) }
{
    let Some(value) = object.get(name) else {
        return Err(Unread::Misformed);
    };
    let text = text(value)?;
    Ok(Bytes::from_slice(alloc, text.as_bytes())?)
}

fn text(value: &Value) -> Result<&str, Unread>
    ensures { Gives (λ s. s.now) result (as_str (view value.now)) }
{
    match value.as_str() {
        Some(text) => Ok(text),
        None => Err(Unread::Misformed),
    }
}

#[tactic(auto, unfolding(crate::specs::Json::number))]
fn number(value: &Value, most: u64) -> Result<u64, Unread>
    ensures value { Gives (λ n. n) result (number most (view value.now)) }
    ensures within { IfOk result (λ n. n ≤ most) }
{
    match value.as_u64() {
        Some(number) if number <= most => Ok(number),
        _ => Err(Unread::Misformed),
    }
}
