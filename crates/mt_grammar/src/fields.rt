//! Structures and arrays as durable state has them.

ghost use Rattle.std.specs.Prelude.{◌≡◌, ◌∷◌, [], IfOk, Some, option_and_then, option_map};
ghost use Rattle.std.specs.List.{list_all};
ghost use Rattle.mt_tlv.specs.Limits.{is_anonymous};
ghost use Rattle.mt_tlv.specs.Scalars.{octets_in, text_in, truth_in, unsigned_in};
ghost use Rattle.mt_tlv.specs.Tree.{array, structure};
ghost use Rattle.mt_tlv.specs.View.{elements, tree};
ghost use Rattle.mt_tlv.specs.declared.value.Tag.{Tag};
ghost use Rattle.mt_tlv.specs.declared.value.Value.{Value};
ghost use Rattle.mt_model.specs.Trees.{field_in, is_context};
ghost use Rattle.mt_model.specs.declared.limits.TheConstants.{FABRICS};
ghost use Rattle.mt_grammar.specs.Fields.{are_untagged, array_in, fields_in, have_tags, if_some, is_null, number_at, number_in, octets_at, text_at, truth_at};

use mt_model::limits::FABRICS;
use mt_model::{Listed, field, unsigned_of};
use mt_tlv::{Bytes, Tag, Value};
use std::alloc::AllocError;

/// The members of a structure of these fields, None where the value is none.
pub(crate) fn fields_in<'a>(numbers: &[u8], value: &'a Value) -> Option<&'a [(Tag, Value)]>
    ensures { option_map (λ members. elements members.now) result ≡ fields_in numbers.now (tree value.now) }
{
    match value {
        Value::Struct(members) => if_tagged(numbers, members.as_slice()),
        _ => None,
    }
}

fn if_tagged<'a>(numbers: &[u8], members: &'a [(Tag, Value)]) -> Option<&'a [(Tag, Value)]>
    ensures { option_map (λ members. elements members.now) result
        ≡ fields_in numbers.now (structure (elements members.now)) }
{
    if have_tags(members, numbers) {
        return Some(members);
    }
    None
}

// Whether the members have these numbers as their context tags, in this order.
#[cycle(have_tags)]
fn have_tags(members: &[(Tag, Value)], numbers: &[u8]) -> bool
    ensures { result ≡ have_tags numbers.now (elements members.now) }
{
    match numbers {
        [] => are_none(members),
        [number, numbers @ ..] => begin_with(members, *number, numbers),
    }
}

#[cycle(have_tags)]
fn begin_with(members: &[(Tag, Value)], number: u8, numbers: &[u8]) -> bool
    ensures { result ≡ have_tags (number ∷ numbers.now) (elements members.now) }
{
    match members {
        [member, members @ ..] => is_context(member.0, number) && have_tags(members, numbers),
        [] => false,
    }
}

#[tactic(auto, using(crate::proofs::Elements::count_of_elements))]
fn are_none(members: &[(Tag, Value)]) -> bool
    ensures { result ≡ have_tags [] (elements members.now) }
{
    members.len() == 0
}

/// Whether a tag is the context tag of this number.
pub(crate) fn is_context(tag: Tag, number: u8) -> bool
    ensures { result ≡ is_context number tag }
{
    tag == Tag::Context(number)
}

/// The number that a value is, None where it is none or greater than this.
pub(crate) fn number_in(greatest: u64, value: &Value) -> Option<u64>
    ensures { result ≡ number_in greatest (tree value.now) }
{
    match value {
        Value::Uint(number) if *number <= greatest => Some(*number),
        _ => None,
    }
}

/// Whether a value is null.
pub(crate) fn is_null(value: &Value) -> bool
    ensures { result ≡ is_null (tree value.now) }
{
    match value {
        Value::Null => true,
        _ => false,
    }
}

/// A number of 64 bits in a field.
pub(crate) fn unsigned_at(members: &[(Tag, Value)], number: u8) -> Option<u64>
    ensures { result ≡ option_and_then unsigned_in (field_in number (elements members.now)) }
{
    unsigned_of(field(members, number)?)
}

/// The index of a fabric in a field, or 0.
pub(crate) fn index_at(members: &[(Tag, Value)], number: u8) -> Option<u8>
    ensures { result ≡ number_at FABRICS number (elements members.now) }
{
    index_in(field(members, number)?)
}

fn index_in(value: &Value) -> Option<u8>
    ensures { result ≡ number_in FABRICS (tree value.now) }
{
    match value {
        Value::Uint(number) if *number <= FABRICS as u64 => Some(*number as u8),
        _ => None,
    }
}

/// A number of 16 bits in a field.
pub(crate) fn short_at(members: &[(Tag, Value)], number: u8) -> Option<u16>
    ensures { result ≡ number_at 0xffff number (elements members.now) }
{
    short_in(field(members, number)?)
}

fn short_in(value: &Value) -> Option<u16>
    ensures { result ≡ number_in 0xffff (tree value.now) }
{
    match value {
        Value::Uint(number) if *number <= 0xffff => Some(*number as u16),
        _ => None,
    }
}

/// A truth value in a field.
pub(crate) fn truth_at(members: &[(Tag, Value)], number: u8) -> Option<bool>
    ensures { result ≡ truth_at number (elements members.now) }
{
    truth_in(field(members, number)?)
}

fn truth_in(value: &Value) -> Option<bool>
    ensures { result ≡ truth_in (tree value.now) }
{
    match value {
        Value::Bool(truth) => Some(*truth),
        _ => None,
    }
}

/// Octets in a field, copied.
pub(crate) fn octets_at(members: &[(Tag, Value)], number: u8) -> Result<Option<Bytes>, AllocError>
    ensures { IfOk result (λ octets. octets ≡ octets_at number (elements members.now)) }
{
    match field(members, number) {
        Some(value) => octets_in(value),
        None => Ok(None),
    }
}

/// The octets that a value is, copied.
pub(crate) fn octets_in(value: &Value) -> Result<Option<Bytes>, AllocError>
    ensures { IfOk result (λ octets. octets ≡ octets_in (tree value.now)) }
{
    match value {
        Value::Octets(octets) => Ok(Some(octets.copy()?)),
        _ => Ok(None),
    }
}

/// The bytes of a text in a field, copied.
pub(crate) fn text_at(members: &[(Tag, Value)], number: u8) -> Result<Option<Bytes>, AllocError>
    ensures { IfOk result (λ text. text ≡ text_at number (elements members.now)) }
{
    match field(members, number) {
        Some(value) => text_in(value),
        None => Ok(None),
    }
}

fn text_in(value: &Value) -> Result<Option<Bytes>, AllocError>
    ensures { IfOk result (λ text. text ≡ text_in (tree value.now)) }
{
    match value {
        Value::Text(text) => Ok(Some(text.copy()?)),
        _ => Ok(None),
    }
}

/// The members of an array, None where the value is none.
pub(crate) fn array_in(value: &Value) -> Option<&[(Tag, Value)]>
    ensures { option_map (λ members. elements members.now) result ≡ array_in (tree value.now) }
{
    match value {
        Value::Array(members) => if_untagged(members.as_slice()),
        _ => None,
    }
}

fn if_untagged(members: &[(Tag, Value)]) -> Option<&[(Tag, Value)]>
    ensures { option_map (λ members. elements members.now) result ≡ array_in (array (elements members.now)) }
{
    if are_untagged(members) {
        return Some(members);
    }
    None
}

/// Items, unless there are none.
pub(crate) fn if_some<T: Drop>(items: Listed<T>) -> Option<Listed<T>>
    ensures { result ≡ if_some (Some items) }
{
    if items.len() >= 1 {
        return Some(items);
    }
    None
}

/// Whether no member has a tag.
#[tactic(auto, using(crate::proofs::Elements::untagged_of_elements))]
pub(crate) fn are_untagged(members: &[(Tag, Value)]) -> bool
    ensures { result ≡ are_untagged (elements members.now) }
{
    have_no_tags(members)
}

fn have_no_tags(members: &[(Tag, Value)]) -> bool
    ensures { result ≡ list_all (λ (member : Tag × Value). is_anonymous member.0) members.now }
{
    members.iter().all(|member| is_anonymous(member.0))
}

fn is_anonymous(tag: Tag) -> bool
    ensures { result ≡ is_anonymous tag }
{
    match tag {
        Tag::Anonymous => true,
        _ => false,
    }
}
