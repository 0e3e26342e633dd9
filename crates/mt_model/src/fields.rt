//! Fields of a structure, a list or a message, by their context tags, and what values are.

ghost use Rattle.std.specs.Prelude.{◌≡◌, ◌<◌, length, Some, None, MatchOption, slice_index_or, option_map};
ghost use Rattle.std.specs.Str.{is_utf8};
ghost use Rattle.mt_tlv.specs.Scalars.{unsigned_in};
ghost use Rattle.mt_tlv.specs.declared.value.Tag.{Tag};
ghost use Rattle.mt_tlv.specs.declared.value.Value.{Value};
ghost use Rattle.mt_tlv.specs.View.{elements, tree};
ghost use Rattle.mt_model.specs.Trees.{field_in, is_context, structure_in};

use mt_tlv::{Tag, Value};

/// The first field of this number among the members. It takes no memory.
pub fn field(members: &[(Tag, Value)], number: u8) -> Option<&Value>
    ensures { option_map (λ value. tree value.now) result ≡ field_in number (elements members.now) }
{
    let i = place_of(members, number)?;
    Some(&members[i].1)
}

/// The first field of this number, moved out of the members.
pub fn take_field(mut members: Vec<(Tag, Value)>, number: u8) -> Option<Value>
    ensures { option_map tree result ≡ field_in number (elements members.items) }
{
    let i = place_of(&members, number)?;
    Some(members.swap_remove(i).1)
}

// The place of the first field of this number.
fn place_of(members: &[(Tag, Value)], number: u8) -> Option<usize>
    ensures { MatchOption result (field_in number (elements members.now) ≡ None)
        (λ i. (i < length members.now) × ((d : Tag × Value) → field_in number (elements members.now) ≡ Some (tree (slice_index_or members.now i d).1))) }
{
    for (i, member) in members.iter().enumerate() {
        if is_context(member.0, number) {
            return Some(i);
        }
    }
    None
}

// Whether a tag is the context tag of this number.
fn is_context(tag: Tag, number: u8) -> bool
    ensures { result ≡ is_context number tag }
{
    tag == Tag::Context(number)
}

/// The members of a structure, None where the value is none.
pub fn structure_of(value: &Value) -> Option<&[(Tag, Value)]>
    ensures { option_map (λ members. elements members.now) result ≡ structure_in (tree value.now) }
{
    match value {
        Value::Struct(members) => Some(members.as_slice()),
        _ => None,
    }
}

/// Whether bytes are UTF-8, as a text's have to be.
pub fn is_utf8(bytes: &[u8]) -> bool
    ensures { result ≡ is_utf8 bytes.now }
{
    match std::str::from_utf8(bytes) {
        Ok(_) => true,
        Err(_) => false,
    }
}

/// The unsigned number that a value is, None where it is none.
pub fn unsigned_of(value: &Value) -> Option<u64>
    ensures { result ≡ unsigned_in (tree value.now) }
{
    match value {
        Value::Uint(number) => Some(*number),
        _ => None,
    }
}
