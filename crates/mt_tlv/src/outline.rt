//! The fields of a structure without what stands inside them: the element is tested as a reader tests it, and next to
//! nothing is built.

ghost use Rattle.std.specs.Prelude.{◌≡◌, ◌≤◌, ◌<◌, ◌^◌, [], length, IfOk};
ghost use Rattle.mt_tlv.specs.View.{tree, elements};
ghost use Rattle.mt_tlv.specs.Reading.{Gives, body_at, container_at, is_scalar_type, members_with};
ghost use Rattle.mt_tlv.specs.Outline.{behind, empty_of, outlined, outlines_at, outlines_in};
ghost use Rattle.mt_tlv.specs.declared.reading.Kind.TheVariants.{Struct};

use crate::bytes::Bytes;
use crate::fault::TlvFault;
use crate::reading::{
    DEEPEST, Kind, allow, at_end, container_of, kind_of, read_head, read_scalar, read_string,
    read_text, scalar_length, take_piece,
};
use crate::tag_set::TagSet;
use crate::value::{Members, Tag, Value};
use std::alloc::Global;

/// The element type of a structure.
const STRUCTURE: u8 = 0x15;

/// The fields of the structure in front, whatever follows it, with nothing inside them: a text, a string of octets and a
/// container are empty. None of an element that is no structure. What is wrong first, from the first byte on, is the
/// fault, as with `read`.
#[tactic(auto, unfolding(crate::specs::Reading::element_at))]
pub fn read_outlines(alloc: Global, bytes: &[u8]) -> Result<Members, TlvFault>
    ensures exact { Gives (λ fields. fields) result (outlines_at bytes.now) }
{
    let (head, rest) = read_head(bytes)?;
    if head.element_type == STRUCTURE {
        return fields(alloc, bytes.len(), rest);
    }
    test_body(alloc, bytes.len(), DEEPEST, head.element_type, rest)?;
    Ok(Members::from_vec(Vec::new(alloc)))
}

// The outlines of the fields of the outermost structure.
#[tactic(auto, unfolding(crate::specs::Reading::container_at))]
fn fields(alloc: Global, whole: usize, bytes: &[u8]) -> Result<Members, TlvFault>
    requires { whole < 2 ^ 63 }
    ensures { Gives (λ fields. fields) result (outlines_in (container_at 16 whole Struct bytes.now)) }
{
    let (_, rest) = take_piece(whole, 0, bytes)?;
    let items = outlined_fields(alloc, whole, rest)?;
    Ok(Members::from_vec(items))
}

// The outlines of fields up to the end of their structure.
fn outlined_fields(alloc: Global, whole: usize, bytes: &[u8]) -> Result<Vec<(Tag, Value)>, TlvFault>
    requires { whole < 2 ^ 63 }
    ensures { Gives (λ items. elements items.items) result (outlines_in (members_with (body_at 15 whole) whole Struct (length bytes.now) [] bytes.now)) }
{
    let mut items = Vec::new(alloc);
    let mut seen = TagSet::new(alloc);
    let mut rest = bytes;
    'fields: while !at_end(rest) {
        let (head, after) = read_head(rest)?;
        allow(Kind::Struct, &mut seen, head.tag)?;
        let (value, after) = outlined_body(alloc, whole, head.element_type, after)?;
        items.push((head.tag, value))?;
        rest = after;
    }
    take_piece(whole, 1, rest)?;
    Ok(items)
}

// The outline of a field's value, of an element of this type.
fn outlined_body(
    alloc: Global,
    whole: usize,
    element_type: u8,
    bytes: &[u8],
) -> Result<(Value, &[u8]), TlvFault>
    requires whole { whole < 2 ^ 63 }
    requires known { element_type < 24 }
    ensures gives { Gives (λ x. (tree x.0, x.1.now)) result (outlined (body_at 15 whole element_type bytes.now)) }
    ensures shorter { IfOk result (λ x. length x.1.now ≤ length bytes.now) }
{
    if is_scalar(element_type) {
        return read_scalar(whole, element_type, bytes);
    }
    let rest = test_body(alloc, whole, DEEPEST - 1, element_type, bytes)?;
    Ok((empty_value(alloc, element_type), rest))
}

// The value of this type with nothing inside.
fn empty_value(alloc: Global, element_type: u8) -> Value
    ensures { tree result ≡ empty_of element_type }
{
    if element_type < 16 {
        return Value::Text(Bytes::new(alloc));
    }
    if element_type < 20 {
        return Value::Octets(Bytes::new(alloc));
    }
    container_of(kind_of(element_type), Members::from_vec(Vec::new(alloc)))
}

// Whether an element of this type is a number, a truth value or null.
fn is_scalar(element_type: u8) -> bool
    ensures { result ≡ is_scalar_type element_type }
{
    element_type < 12 || element_type == 20
}

// Tests the value of an element of this type, with its length, and goes over it. The outermost element is one of `whole`
// bytes or fewer, and `room` more containers may open.
#[cycle(passing)]
#[tactic(auto, unfolding(crate::specs::Reading::body_with, crate::specs::Reading::scalar_at))]
fn test_body(
    alloc: Global,
    whole: usize,
    room: u8,
    element_type: u8,
    bytes: &[u8],
) -> Result<&[u8], TlvFault>
    requires whole { whole < 2 ^ 63 }
    requires known { element_type < 24 }
    ensures gives { Gives (λ x. x.now) result (behind (body_at room whole element_type bytes.now)) }
    ensures shorter { IfOk result (λ x. length x.now ≤ length bytes.now) }
{
    if is_scalar(element_type) {
        let (_, rest) = take_piece(whole, scalar_length(element_type), bytes)?;
        return Ok(rest);
    }
    if element_type < 16 {
        let (_, rest) = read_text(whole, element_type, bytes)?;
        return Ok(rest);
    }
    if element_type < 20 {
        let (_, rest) = read_string(whole, element_type, bytes)?;
        return Ok(rest);
    }
    test_container(alloc, whole, room, kind_of(element_type), bytes)
}

#[cycle(passing)]
#[tactic(auto, unfolding(crate::specs::Reading::container_at))]
fn test_container(
    alloc: Global,
    whole: usize,
    room: u8,
    kind: Kind,
    bytes: &[u8],
) -> Result<&[u8], TlvFault>
    requires { whole < 2 ^ 63 }
    ensures gives { Gives (λ x. x.now) result (behind (container_at room whole kind bytes.now)) }
    ensures shorter { IfOk result (λ x. length x.now ≤ length bytes.now) }
{
    if room == 0 {
        return Err(TlvFault::TooDeep);
    }
    let (_, rest) = take_piece(whole, 0, bytes)?;
    test_members(alloc, whole, room - 1, kind, rest)
}

// Tests the members up to the end of their container, and that end.
#[cycle(passing)]
fn test_members(
    alloc: Global,
    whole: usize,
    room: u8,
    kind: Kind,
    bytes: &[u8],
) -> Result<&[u8], TlvFault>
    requires { whole < 2 ^ 63 }
    ensures gives { Gives (λ x. x.now) result (behind (members_with (body_at room whole) whole kind (length bytes.now) [] bytes.now)) }
    ensures shorter { IfOk result (λ x. length x.now ≤ length bytes.now) }
{
    let mut seen = TagSet::new(alloc);
    let mut rest = bytes;
    'members: while !at_end(rest) {
        let (head, after) = read_head(rest)?;
        allow(kind, &mut seen, head.tag)?;
        rest = test_body(alloc, whole, room, head.element_type, after)?;
    }
    let (_, rest) = take_piece(whole, 1, rest)?;
    Ok(rest)
}
