//! Fields by their tags, and what they hold.

ghost use Rattle.std.specs.Prelude.{◌≡◌, option_map};
ghost use Rattle.mt_tlv.specs.Scalars.{truth_in};
ghost use Rattle.mt_tlv.specs.View.{tree, elements};
ghost use Rattle.mt_im.specs.Blocks.{number_in, list_in, array_in, number_at, optional_number_at, optional_truth_at};
ghost use Rattle.mt_model.specs.Trees.{field_in};
ghost use Rattle.mt_im.specs.Reading.{require as required_fields, field_at, revision_at};

use crate::fault::ImFault;
use mt_model::{field, unsigned_of};
use mt_tlv::{Tag, Value};

/// The revision, which every message has.
const REVISION: u8 = 255;

/// The members of a list.
pub(crate) fn list_of(value: &Value) -> Option<&[(Tag, Value)]>
    ensures { option_map (λ members. elements members.now) result ≡ list_in (tree value.now) }
{
    match value {
        Value::List(members) => Some(members.as_slice()),
        _ => None,
    }
}

/// The members of an array.
pub(crate) fn array_of(value: &Value) -> Option<&[(Tag, Value)]>
    ensures { option_map (λ members. elements members.now) result ≡ array_in (tree value.now) }
{
    match value {
        Value::Array(members) => Some(members.as_slice()),
        _ => None,
    }
}

/// An unsigned number of at most 32 bits.
pub(crate) fn u32_of(value: &Value) -> Option<u32>
    ensures { result ≡ number_in 32 (tree value.now) }
{
    match value {
        Value::Uint(number) if *number <= u32::MAX as u64 => Some(*number as u32),
        _ => None,
    }
}

/// An unsigned number of at most 16 bits.
pub(crate) fn u16_of(value: &Value) -> Option<u16>
    ensures { result ≡ number_in 16 (tree value.now) }
{
    match value {
        Value::Uint(number) if *number <= u16::MAX as u64 => Some(*number as u16),
        _ => None,
    }
}

// An unsigned number of at most 8 bits.
fn u8_of(value: &Value) -> Option<u8>
    ensures { result ≡ number_in 8 (tree value.now) }
{
    match value {
        Value::Uint(number) if *number <= u8::MAX as u64 => Some(*number as u8),
        _ => None,
    }
}

fn truth_of(value: &Value) -> Option<bool>
    ensures { result ≡ truth_in (tree value.now) }
{
    match value {
        Value::Bool(truth) => Some(*truth),
        _ => None,
    }
}

/// A number of at most 32 bits that must be there.
#[tactic(auto, unfolding(crate::specs::Blocks::number_at))]
pub(crate) fn u32_at(members: &[(Tag, Value)], number: u8) -> Option<u32>
    ensures { result ≡ number_at 32 number (elements members.now) }
{
    u32_of(field(members, number)?)
}

/// A number of at most 16 bits that must be there.
#[tactic(auto, unfolding(crate::specs::Blocks::number_at))]
pub(crate) fn u16_at(members: &[(Tag, Value)], number: u8) -> Option<u16>
    ensures { result ≡ number_at 16 number (elements members.now) }
{
    u16_of(field(members, number)?)
}

/// A number of at most 32 bits that may be missing. None where it is malformed.
#[tactic(auto, unfolding(crate::specs::Blocks::optional_number_at))]
pub(crate) fn optional_u32(members: &[(Tag, Value)], number: u8) -> Option<Option<u32>>
    ensures { result ≡ optional_number_at 32 number (elements members.now) }
{
    match field(members, number) {
        Some(value) => Some(Some(u32_of(value)?)),
        None => Some(None),
    }
}

/// A number of at most 16 bits that may be missing. None where it is malformed.
#[tactic(auto, unfolding(crate::specs::Blocks::optional_number_at))]
pub(crate) fn optional_u16(members: &[(Tag, Value)], number: u8) -> Option<Option<u16>>
    ensures { result ≡ optional_number_at 16 number (elements members.now) }
{
    match field(members, number) {
        Some(value) => Some(Some(u16_of(value)?)),
        None => Some(None),
    }
}

/// A truth value that may be missing, which is false where it is. None where it is malformed.
#[tactic(auto, unfolding(crate::specs::Blocks::optional_truth_at))]
pub(crate) fn optional_truth(members: &[(Tag, Value)], number: u8) -> Option<bool>
    ensures { result ≡ optional_truth_at number (elements members.now) }
{
    match field(members, number) {
        Some(value) => truth_of(value),
        None => Some(false),
    }
}

/// The first of these fields that is missing is the fault.
#[tactic(auto, unfolding(crate::specs::Reading::require))]
pub(crate) fn require(members: &[(Tag, Value)], numbers: &[u8]) -> Result<(), ImFault>
    ensures { result ≡ required_fields numbers.now (elements members.now) }
{
    for number in numbers {
        if field(members, *number).is_none() {
            return Err(ImFault::Missing(*number));
        }
    }
    Ok(())
}

/// A truth value of the message.
pub(crate) fn truth_field(members: &[(Tag, Value)], number: u8) -> Result<bool, ImFault>
    ensures { result ≡ field_at truth_in number (elements members.now) }
{
    match field(members, number) {
        Some(value) => truth_of(value).ok_or(ImFault::Form(number)),
        None => Err(ImFault::Form(number)),
    }
}

/// A number of the message, of at most 16 bits.
pub(crate) fn u16_field(members: &[(Tag, Value)], number: u8) -> Result<u16, ImFault>
    ensures { result ≡ field_at (number_in 16) number (elements members.now) }
{
    match field(members, number) {
        Some(value) => u16_of(value).ok_or(ImFault::Form(number)),
        None => Err(ImFault::Form(number)),
    }
}

/// A number of the message, of at most 8 bits.
pub(crate) fn u8_field(members: &[(Tag, Value)], number: u8) -> Result<u8, ImFault>
    ensures { result ≡ field_at (number_in 8) number (elements members.now) }
{
    match field(members, number) {
        Some(value) => u8_of(value).ok_or(ImFault::Form(number)),
        None => Err(ImFault::Form(number)),
    }
}

/// The revision, which may be any unsigned number.
pub(crate) fn revision(members: &[(Tag, Value)]) -> Result<u64, ImFault>
    ensures { result ≡ revision_at (elements members.now) }
{
    match field(members, REVISION) {
        Some(value) => unsigned_of(value).ok_or(ImFault::Form(REVISION)),
        None => Err(ImFault::Form(REVISION)),
    }
}
