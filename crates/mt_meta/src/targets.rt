//! Targets of access control entries, as they are written.

ghost use Rattle.std.specs.Prelude.{◌≡◌};
ghost use Rattle.mt_tlv.specs.View.{elements, tree};
ghost use Rattle.mt_model.specs.Trees.{field_in};
ghost use Rattle.mt_meta.specs.Targets.{nullable_field, nullable_in, target_in};

use mt_model::{Target, field, structure_of};
use mt_tlv::{Tag, Value};

/// The target that a value is, None where it is none.
pub fn target_of(value: &Value) -> Option<Target>
    ensures { result ≡ target_in (tree value.now) }
{
    let members = structure_of(value)?;
    Some(Target {
        cluster: u32_or_null(members, 0)?,
        endpoint: u16_or_null(members, 1)?,
        device: u32_or_null(members, 2)?,
    })
}

// A number of 32 bits, or null.
fn u32_or_null(members: &[(Tag, Value)], number: u8) -> Option<Option<u32>>
    ensures { result ≡ nullable_field 0xffffffff (field_in number (elements members.now)) }
{
    match field(members, number) {
        Some(value) => nullable_u32(value),
        None => Some(None),
    }
}

fn nullable_u32(value: &Value) -> Option<Option<u32>>
    ensures { result ≡ nullable_in 0xffffffff (tree value.now) }
{
    match value {
        Value::Null => Some(None),
        Value::Uint(number) if *number <= u32::MAX as u64 => Some(Some(*number as u32)),
        _ => None,
    }
}

// A number of 16 bits, or null.
fn u16_or_null(members: &[(Tag, Value)], number: u8) -> Option<Option<u16>>
    ensures { result ≡ nullable_field 0xffff (field_in number (elements members.now)) }
{
    match field(members, number) {
        Some(value) => nullable_u16(value),
        None => Some(None),
    }
}

fn nullable_u16(value: &Value) -> Option<Option<u16>>
    ensures { result ≡ nullable_in 0xffff (tree value.now) }
{
    match value {
        Value::Null => Some(None),
        Value::Uint(number) if *number <= u16::MAX as u64 => Some(Some(*number as u16)),
        _ => None,
    }
}
