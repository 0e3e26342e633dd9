//! Reading an element, in any of the widths that the format offers (Matter Core Specification,
//! Appendix A).

ghost use Rattle.std.specs.Prelude.{◌≡◌, ◌<◌, ◌≤◌, ◌^◌, ◌%◌, [], ◌∷◌, ◌++◌, ℕ, List, length, take, drop, IfOk, OnOk};
ghost use Rattle.mt_tlv.specs.declared.value.Tag.{Tag};
ghost use Rattle.mt_tlv.specs.Tree.{Tree};
ghost use Rattle.mt_tlv.specs.View.{tree, elements};
ghost use Rattle.mt_tlv.specs.Limits.{IsElement};
ghost use Rattle.mt_tlv.specs.Tags.{Remembers};
ghost use Rattle.mt_tlv.specs.Reading.{Exactly, Gives, IsReadAs, cut_at, piece_at, number_of as number_of_bytes, number_at, context_at, profile_number_at, full_at, tag_at, head_at, allowed, is_scalar_type, signed_of as signed_of_number, scalar_length as length_of_scalar, scalar_of as scalar_of_number, scalar_at, string_at, text_of as text_of_bytes, text_at, is_end, kind_of as kind_of_type, container_of as container_of_kind, members_with, body_at, container_at, element_at};

use crate::bytes::Bytes;
use crate::fault::TlvFault;
use crate::tag_set::TagSet;
use crate::value::{Members, Tag, Value};
use std::alloc::Global;

/// The most bytes of an element, and of a text or an octet string.
const LONGEST: usize = 65_535;

/// The most containers that are open inside each other.
pub(crate) const DEEPEST: u8 = 16;

/// The kind of a container.
#[derive(Clone, Copy, Debug, PartialEq, Eq)]
pub(crate) enum Kind {
    Struct,
    Array,
    List,
}

/// What stands in front of the value: the lower five bits of the control octet, and the tag.
#[derive(Drop)]
pub(crate) struct Head {
    pub element_type: u8,
    pub tag: Tag,
}

/// Reads the first element, whatever follows it: its tag, its value and how many bytes it spans.
/// What is wrong first, from the first byte on, is the fault.
pub fn read(alloc: Global, bytes: &[u8]) -> Result<(Tag, Value, usize), TlvFault>
    // What is read is an element that stands in front.
    ensures found { IfOk result (λ x. (x.2 ≤ length bytes.now) × IsElement x.0 (tree x.1) (take x.2 bytes.now)) }
    // An element that stands in front is read, unless memory runs out.
    ensures only { (tag : Tag) (v : Tree) (len : ℕ) → len ≤ length bytes.now → IsElement tag v (take len bytes.now)
        → IsReadAs result tag v len }
    // Which fault it is.
    ensures exact { Gives (λ x. ((x.0, tree x.1), drop x.2 bytes.now)) result (element_at bytes.now) }
{
    let ((tag, value), rest) = read_element(alloc, bytes)?;
    Ok((tag, value, bytes.len() - rest.len()))
}

#[tactic(auto, unfolding(crate::specs::Reading::element_at))]
fn read_element(alloc: Global, bytes: &[u8]) -> Result<((Tag, Value), &[u8]), TlvFault>
    ensures gives { Gives (λ x. ((x.0.0, tree x.0.1), x.1.now)) result (element_at bytes.now) }
    ensures shorter { IfOk result (λ x. length x.1.now ≤ length bytes.now) }
{
    let (head, rest) = read_head(bytes)?;
    let (value, rest) = read_body(alloc, bytes.len(), DEEPEST, head.element_type, rest)?;
    Ok(((head.tag, value), rest))
}

// The value of an element of this type, with its length. The outermost element is one of `whole`
// bytes or fewer, and `room` more containers may open.
#[cycle(read)]
#[tactic(auto, unfolding(crate::specs::Reading::body_with))]
fn read_body(
    alloc: Global,
    whole: usize,
    room: u8,
    element_type: u8,
    bytes: &[u8],
) -> Result<(Value, &[u8]), TlvFault>
    requires whole { whole < 2 ^ 63 }
    requires known { element_type < 24 }
    ensures gives { Gives (λ x. (tree x.0, x.1.now)) result (body_at room whole element_type bytes.now) }
    ensures shorter { IfOk result (λ x. length x.1.now ≤ length bytes.now) }
{
    if element_type < 12 || element_type == 20 {
        return read_scalar(whole, element_type, bytes);
    }
    if element_type < 16 {
        let (text, rest) = read_text(whole, element_type, bytes)?;
        return Ok((
            Value::Text(Bytes::from_slice(alloc, text.as_bytes())?),
            rest,
        ));
    }
    if element_type < 20 {
        let (octets, rest) = read_string(whole, element_type, bytes)?;
        return Ok((Value::Octets(Bytes::from_slice(alloc, octets)?), rest));
    }
    let kind = kind_of(element_type);
    let (members, rest) = read_container(alloc, whole, room, kind, bytes)?;
    Ok((container_of(kind, members), rest))
}

#[cycle(read)]
#[tactic(auto, unfolding(crate::specs::Reading::container_at))]
fn read_container(
    alloc: Global,
    whole: usize,
    room: u8,
    kind: Kind,
    bytes: &[u8],
) -> Result<(Members, &[u8]), TlvFault>
    requires { whole < 2 ^ 63 }
    ensures gives { Gives (λ x. (x.0, x.1.now)) result (container_at room whole kind bytes.now) }
    ensures shorter { IfOk result (λ x. length x.1.now ≤ length bytes.now) }
{
    if room == 0 {
        return Err(TlvFault::TooDeep);
    }
    let (_, rest) = take_piece(whole, 0, bytes)?;
    let (items, rest) = read_members(alloc, whole, room - 1, kind, rest)?;
    Ok((Members::from_vec(items), rest))
}

// The members up to the end of their container, and that end.
#[cycle(read)]
fn read_members(
    alloc: Global,
    whole: usize,
    room: u8,
    kind: Kind,
    bytes: &[u8],
) -> Result<(Vec<(Tag, Value)>, &[u8]), TlvFault>
    requires { whole < 2 ^ 63 }
    ensures gives { Gives (λ x. (elements x.0.items, x.1.now)) result (members_with (body_at room whole) whole kind (length bytes.now) [] bytes.now) }
    ensures shorter { IfOk result (λ x. length x.1.now ≤ length bytes.now) }
{
    let mut items = Vec::new(alloc);
    let mut seen = TagSet::new(alloc);
    let mut rest = bytes;
    'members: while !at_end(rest) {
        let (head, after) = read_head(rest)?;
        allow(kind, &mut seen, head.tag)?;
        let (value, after) = read_body(alloc, whole, room, head.element_type, after)?;
        items.push((head.tag, value))?;
        rest = after;
    }
    let (_, rest) = take_piece(whole, 1, rest)?;
    Ok((items, rest))
}

// Whether the end of a container stands here.
pub(crate) fn at_end(bytes: &[u8]) -> bool
    ensures { result ≡ is_end bytes.now }
{
    matches!(bytes, [0x18, ..])
}

// Whether a tag may stand behind the members so far. A structure's tag is put into the set, which has
// those of its members; of the members of other containers nothing is kept.
pub(crate) fn allow(kind: Kind, seen: &mut TagSet, tag: Tag) -> Result<(), TlvFault>
    ensures gives { (tags : List Tag) → Remembers kind seen.old tags → Gives (λ _. tt) result (allowed kind tags tag) }
    ensures kept { (tags : List Tag) → Remembers kind seen.old tags → OnOk result (Remembers kind seen.new (tags ++ tag ∷ [])) }
{
    match (kind, tag) {
        (Kind::Struct, Tag::Anonymous) => Err(TlvFault::TagForm),
        (Kind::Struct, _) => {
            if seen.insert(tag)? {
                return Ok(());
            }
            Err(TlvFault::SameTag)
        }
        (Kind::Array, Tag::Anonymous) => Ok(()),
        (Kind::Array, _) => Err(TlvFault::TagForm),
        (Kind::List, _) => Ok(()),
    }
}

pub(crate) fn kind_of(element_type: u8) -> Kind
    ensures { result ≡ kind_of_type element_type }
{
    match element_type {
        0x15 => Kind::Struct,
        0x16 => Kind::Array,
        _ => Kind::List,
    }
}

pub(crate) fn container_of(kind: Kind, members: Members) -> Value
    ensures { tree result ≡ container_of_kind kind members }
{
    match kind {
        Kind::Struct => Value::Struct(members),
        Kind::Array => Value::Array(members),
        Kind::List => Value::List(members),
    }
}

/// The control octet and the tag.
#[tactic(auto, unfolding(crate::specs::Reading::head_at))]
pub(crate) fn read_head(bytes: &[u8]) -> Result<(Head, &[u8]), TlvFault>
    ensures gives { Exactly (λ x. ((x.0.element_type, x.0.tag), x.1.now)) result (head_at bytes.now) }
    ensures shorter { IfOk result (λ x. length x.1.now < length bytes.now) }
    ensures known { IfOk result (λ x. x.0.element_type < 24) }
{
    let Some((control, rest)) = bytes.split_first() else {
        return Err(TlvFault::Short);
    };
    let element_type = *control % 32;
    if element_type >= 24 {
        return Err(TlvFault::Reserved);
    }
    let (tag, rest) = read_tag(*control / 32, rest)?;
    Ok((Head { element_type, tag }, rest))
}

fn read_tag(control: u8, bytes: &[u8]) -> Result<(Tag, &[u8]), TlvFault>
    ensures gives { Exactly (λ x. (x.0, x.1.now)) result (tag_at control bytes.now) }
    ensures shorter { IfOk result (λ x. length x.1.now ≤ length bytes.now) }
{
    if control == 0 {
        return Ok((Tag::Anonymous, bytes));
    }
    if control == 1 {
        return read_context_tag(bytes);
    }
    if control < 4 {
        let (number, rest) = read_profile_number(control, bytes)?;
        return Ok((Tag::Common(number), rest));
    }
    if control < 6 {
        let (number, rest) = read_profile_number(control, bytes)?;
        return Ok((Tag::Implicit(number), rest));
    }
    read_full_tag(control, bytes)
}

fn read_context_tag(bytes: &[u8]) -> Result<(Tag, &[u8]), TlvFault>
    ensures gives { Exactly (λ x. (x.0, x.1.now)) result (context_at bytes.now) }
    ensures shorter { IfOk result (λ x. length x.1.now ≤ length bytes.now) }
{
    match bytes {
        [] => Err(TlvFault::Short),
        [number, rest @ ..] => Ok((Tag::Context(*number), rest)),
    }
}

fn read_full_tag(control: u8, bytes: &[u8]) -> Result<(Tag, &[u8]), TlvFault>
    ensures gives { Exactly (λ x. (x.0, x.1.now)) result (full_at control bytes.now) }
    ensures shorter { IfOk result (λ x. length x.1.now ≤ length bytes.now) }
{
    let (vendor, rest) = take_number(bytes, 2)?;
    let (profile, rest) = take_number(rest, 2)?;
    let (number, rest) = read_profile_number(control, rest)?;
    let tag = Tag::Full {
        vendor: vendor as u16,
        profile: profile as u16,
        number,
    };
    Ok((tag, rest))
}

fn read_profile_number(control: u8, bytes: &[u8]) -> Result<(u32, &[u8]), TlvFault>
    ensures gives { Exactly (λ x. (x.0, x.1.now)) result (profile_number_at control bytes.now) }
    ensures shorter { IfOk result (λ x. length x.1.now ≤ length bytes.now) }
{
    if control.is_multiple_of(2) {
        let (number, rest) = take_number(bytes, 2)?;
        return Ok((number as u32, rest));
    }
    let (number, rest) = take_number(bytes, 4)?;
    Ok((number as u32, rest))
}

/// A number, a truth value, a float by its bits, or null.
#[tactic(auto, unfolding(crate::specs::Reading::scalar_at))]
pub(crate) fn read_scalar(
    whole: usize,
    element_type: u8,
    bytes: &[u8],
) -> Result<(Value, &[u8]), TlvFault>
    requires { whole < 2 ^ 63 }
    ensures gives { Exactly (λ x. (tree x.0, x.1.now)) result (scalar_at whole element_type bytes.now) }
    ensures shorter { IfOk result (λ x. length x.1.now ≤ length bytes.now) }
{
    let (digits, rest) = take_piece(whole, scalar_length(element_type), bytes)?;
    Ok((scalar_of(element_type, number_of(digits)), rest))
}

// How many bytes the value of a scalar takes.
pub(crate) fn scalar_length(element_type: u8) -> u64
    ensures value { result ≡ length_of_scalar element_type }
    ensures at_most_8 { result ≤ 8 }
{
    match element_type {
        0x00 | 0x04 => 1,
        0x01 | 0x05 => 2,
        0x02 | 0x06 | 0x0a => 4,
        0x03 | 0x07 | 0x0b => 8,
        _ => 0,
    }
}

fn scalar_of(element_type: u8, number: u64) -> Value
    requires { number < 256 ^ length_of_scalar element_type }
    ensures { tree result ≡ scalar_of_number element_type number }
{
    match element_type {
        0x00 => Value::Int(signed_of(0xff, number)),
        0x01 => Value::Int(signed_of(0xffff, number)),
        0x02 => Value::Int(signed_of(0xffff_ffff, number)),
        0x03 => Value::Int(signed_of(u64::MAX, number)),
        0x04..=0x07 => Value::Uint(number),
        0x08 => Value::Bool(false),
        0x09 => Value::Bool(true),
        0x0a => Value::Bits32(number as u32),
        0x0b => Value::Bits64(number),
        _ => Value::Null,
    }
}

/// The bytes behind their length.
#[tactic(auto, unfolding(crate::specs::Reading::string_at))]
pub(crate) fn read_string(
    whole: usize,
    element_type: u8,
    bytes: &[u8],
) -> Result<(&[u8], &[u8]), TlvFault>
    requires { whole < 2 ^ 63 }
    ensures gives { Exactly (λ x. (x.0.now, x.1.now)) result (string_at whole element_type bytes.now) }
    ensures shorter { IfOk result (λ x. length x.1.now ≤ length bytes.now) }
{
    let (count, rest) = take_number(bytes, length_count(element_type))?;
    take_piece(whole, count, rest)
}

// How many bytes the length of a string takes.
fn length_count(element_type: u8) -> usize
    ensures value { result ≡ 2 ^ (element_type % 4) }
    ensures at_most_8 { result ≤ 8 }
{
    match element_type % 4 {
        0 => 1,
        1 => 2,
        2 => 4,
        _ => 8,
    }
}

/// The text behind its length.
pub(crate) fn read_text(
    whole: usize,
    element_type: u8,
    bytes: &[u8],
) -> Result<(&str, &[u8]), TlvFault>
    requires { whole < 2 ^ 63 }
    ensures gives { Exactly (λ x. (x.0.now, x.1.now)) result (text_at whole element_type bytes.now) }
    ensures shorter { IfOk result (λ x. length x.1.now ≤ length bytes.now) }
{
    let (string, rest) = read_string(whole, element_type, bytes)?;
    Ok((text_of(string)?, rest))
}

fn text_of(bytes: &[u8]) -> Result<&str, TlvFault>
    ensures { Exactly (λ text. text.now) result (text_of_bytes bytes.now) }
{
    let Ok(text) = str::from_utf8(bytes) else {
        return Err(TlvFault::NotUtf8);
    };
    Ok(text)
}

fn take_number(bytes: &[u8], count: usize) -> Result<(u64, &[u8]), TlvFault>
    requires { count ≤ 8 }
    ensures gives { Exactly (λ x. (x.0, x.1.now)) result (number_at count bytes.now) }
    ensures shorter { IfOk result (λ x. length x.1.now ≤ length bytes.now) }
    ensures below { IfOk result (λ x. x.0 < 256 ^ count) }
{
    let (digits, rest) = take_bytes(bytes, count)?;
    Ok((number_of(digits), rest))
}

/// This many bytes of a value, where the outermost element is one of `whole` bytes or fewer.
pub(crate) fn take_piece(whole: usize, count: u64, bytes: &[u8]) -> Result<(&[u8], &[u8]), TlvFault>
    requires { whole < 2 ^ 63 }
    ensures gives { Exactly (λ x. (x.0.now, x.1.now)) result (piece_at whole count bytes.now) }
    ensures shorter { IfOk result (λ x. (length x.0.now ≡ count) × (length x.1.now ≤ length bytes.now)) }
{
    if count > LONGEST as u64 || LONGEST + bytes.len() < whole + count as usize {
        return Err(TlvFault::TooLong);
    }
    take_bytes(bytes, count as usize)
}

fn take_bytes(bytes: &[u8], count: usize) -> Result<(&[u8], &[u8]), TlvFault>
    ensures gives { Exactly (λ x. (x.0.now, x.1.now)) result (cut_at count bytes.now) }
    ensures shorter { IfOk result (λ x. (length x.0.now ≡ count) × (length x.1.now ≤ length bytes.now)) }
{
    if bytes.len() < count {
        return Err(TlvFault::Short);
    }
    Ok(bytes.split_at(count))
}

// The number that bytes stand for, the lowest first.
fn number_of(bytes: &[u8]) -> u64
    requires { length bytes.now ≤ 8 }
    ensures value { result ≡ number_of_bytes bytes.now }
    ensures below { result < 256 ^ length bytes.now }
{
    let mut number = 0u64;
    for i in (0..bytes.len()).rev() {
        number = number * 256 + bytes[i] as u64;
    }
    number
}

// A number in two's complement of the width whose greatest number this is.
fn signed_of(greatest: u64, number: u64) -> i64
    requires { number ≤ greatest }
    ensures { result ≡ signed_of_number greatest number }
{
    if number <= greatest / 2 {
        number as i64
    } else {
        -1 - (greatest - number) as i64
    }
}
