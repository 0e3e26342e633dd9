//! Writing an element in its narrow encoding (Matter Core Specification, Appendix A).

ghost use Rattle.std.specs.Prelude.{◌≡◌, ◌<◌, ◌≤◌, ◌+◌, ◌^◌, ◌++◌, [], ◌∷◌, length, OnOk, OnErr};
ghost use Rattle.std.specs.Io.{StartsWith};
ghost use Rattle.mt_tlv.specs.View.{tree};
ghost use Rattle.mt_tlv.specs.Tree.{bool, int, uint};
ghost use Rattle.mt_tlv.specs.declared.value.Tag.TheVariants.{Context};
ghost use Rattle.mt_tlv.specs.Narrow.{narrow, narrow_elements, element_type, opening, tag_control, tag_field, is_short_number, profile_number, narrow_string, little_endian, width_of, signed_width_of, end_of_container};

use crate::bytes::Bytes;
use crate::value::{Members, Tag, Value};
use std::alloc::AllocError;

// Element types. The first of those of numbers and of strings is that of the least width.
const UNSIGNED: u8 = 0x04;

const FALSE: u8 = 0x08;

const TRUE: u8 = 0x09;

const BITS_32: u8 = 0x0a;

const BITS_64: u8 = 0x0b;

const TEXT: u8 = 0x0c;

const OCTETS: u8 = 0x10;

const NULL: u8 = 0x14;

const STRUCTURE: u8 = 0x15;

const ARRAY: u8 = 0x16;

const LIST: u8 = 0x17;

// The element type that ends a container.
const END_OF_CONTAINER: u8 = 0x18;

// The bits of a control octet whose tag is a context tag of one byte.
const CONTEXT: u8 = 0x20;

// How many bytes a vector that has no memory is given first, so that it need not grow from a few bytes on.
const FIRST_ROOM: usize = 64;

// The widths of numbers, as an element type gives them.
const ONE_BYTE: u8 = 0;

const TWO_BYTES: u8 = 1;

const FOUR_BYTES: u8 = 2;

const EIGHT_BYTES: u8 = 3;

/// Appends the element of this tag and value in its narrow encoding. Where memory runs out, the
/// bytes in `out` are as they were.
pub fn write(tag: &Tag, value: &Value, out: &mut Vec<u8>) -> Result<(), AllocError>
    ensures written { OnOk result (out.new.items ≡ out.old.items ++ narrow tag.now (tree value.now)) }
    ensures restored { OnErr result (out.new.items ≡ out.old.items) }
{
    if out.capacity() == 0 {
        out.reserve(FIRST_ROOM)?;
    }
    let before = out.len();
    match write_element(tag, value, out) {
        Ok(()) => Ok(()),
        Err(error) => {
            out.truncate(before);
            Err(error)
        }
    }
}

/// Appends the element of an unsigned number, as `write` does for `Value::Uint`. What is in `out` stays,
/// but where memory runs out a part of the element may stand behind it.
pub fn write_unsigned(tag: &Tag, number: u64, out: &mut Vec<u8>) -> Result<(), AllocError>
    ensures written { OnOk result (out.new.items ≡ out.old.items ++ narrow tag.now (uint number)) }
    ensures kept { StartsWith out.new.items out.old.items }
{
    match tag {
        Tag::Context(field) if number < 0x100 => write_small(*field, number as u8, out),
        _ => {
            let width = width(number);
            push_opening(tag, UNSIGNED + width, out)?;
            push_number(number, width, out)
        }
    }
}

// A number of one byte under a tag of one byte, which most are: three bytes at once.
#[tactic(auto, using(crate::proofs::Small::small_number))]
fn write_small(field: u8, number: u8, out: &mut Vec<u8>) -> Result<(), AllocError>
    ensures written { OnOk result (out.new.items ≡ out.old.items ++ narrow (Context field) (uint number)) }
    ensures kept { StartsWith out.new.items out.old.items }
{
    out.extend_from_slice(&[CONTEXT + UNSIGNED, field, number])
}

// One test of the value and one of its tag lead to what is written.
#[cycle(write)]
fn write_element(tag: &Tag, value: &Value, out: &mut Vec<u8>) -> Result<(), AllocError>
    ensures written { OnOk result (out.new.items ≡ out.old.items ++ narrow tag.now (tree value.now)) }
    ensures kept { StartsWith out.new.items out.old.items }
{
    match value {
        Value::Int(number) => write_signed(tag, *number, out),
        Value::Uint(number) => write_unsigned(tag, *number, out),
        Value::Bool(truth) => push_opening(tag, bool_type(*truth), out),
        Value::Text(text) => write_string(tag, TEXT, text, out),
        Value::Octets(octets) => write_string(tag, OCTETS, octets, out),
        Value::Null => push_opening(tag, NULL, out),
        Value::Bits32(bits) => write_bits(tag, BITS_32, *bits as u64, FOUR_BYTES, out),
        Value::Bits64(bits) => write_bits(tag, BITS_64, *bits, EIGHT_BYTES, out),
        Value::Struct(members) => write_container(tag, STRUCTURE, members, out),
        Value::Array(members) => write_container(tag, ARRAY, members, out),
        Value::List(members) => write_container(tag, LIST, members, out),
    }
}

// A container of this element type: its members, and its end.
#[cycle(write)]
fn write_container(
    tag: &Tag,
    element_type: u8,
    members: &Members,
    out: &mut Vec<u8>,
) -> Result<(), AllocError>
    requires { element_type < 32 }
    ensures written { OnOk result (out.new.items ≡ out.old.items
        ++ (opening tag.now element_type ++ (narrow_elements members.now ++ end_of_container ∷ []))) }
    ensures kept { StartsWith out.new.items out.old.items }
{
    push_opening(tag, element_type, out)?;
    write_members(members, out)
}

// The members and the end of their container.
#[cycle(write)]
fn write_members(members: &Members, out: &mut Vec<u8>) -> Result<(), AllocError>
    ensures written { OnOk result (out.new.items ≡ out.old.items ++ (narrow_elements members.now ++ end_of_container ∷ [])) }
    ensures kept { StartsWith out.new.items out.old.items }
{
    for (tag, value) in &members.items {
        write_element(tag, value, out)?;
    }
    out.push(END_OF_CONTAINER)?;
    Ok(())
}

fn write_signed(tag: &Tag, number: i64, out: &mut Vec<u8>) -> Result<(), AllocError>
    ensures written { OnOk result (out.new.items ≡ out.old.items ++ narrow tag.now (int number)) }
    ensures kept { StartsWith out.new.items out.old.items }
{
    let width = signed_width(number);
    push_opening(tag, width, out)?;
    push_number(number.cast_unsigned(), width, out)
}

// A float's bits, in their one width.
fn write_bits(
    tag: &Tag,
    element_type: u8,
    bits: u64,
    width: u8,
    out: &mut Vec<u8>,
) -> Result<(), AllocError>
    requires in_five_bits { element_type < 32 }
    requires in_two_bits { width < 4 }
    ensures written { OnOk result (out.new.items ≡ out.old.items ++ (opening tag.now element_type ++ little_endian (2 ^ width) bits)) }
    ensures kept { StartsWith out.new.items out.old.items }
{
    push_opening(tag, element_type, out)?;
    push_number(bits, width, out)
}

// A string: the two lowest bits of its element type are the width of its length.
fn write_string(
    tag: &Tag,
    first_type: u8,
    string: &Bytes,
    out: &mut Vec<u8>,
) -> Result<(), AllocError>
    requires { first_type < 28 }
    ensures written { OnOk result (out.new.items ≡ out.old.items
        ++ (opening tag.now (first_type + width_of (length string.now)) ++ narrow_string string.now)) }
    ensures kept { StartsWith out.new.items out.old.items }
{
    let bytes = string.as_slice();
    let width = width(bytes.len() as u64);
    push_opening(tag, first_type + width, out)?;
    push_number(bytes.len() as u64, width, out)?;
    out.extend_from_slice(bytes)
}

fn bool_type(truth: bool) -> u8
    ensures code { result ≡ element_type (bool truth) }
    ensures in_five_bits { result < 32 }
{
    if truth { TRUE } else { FALSE }
}

// The control octet and the tag field. Most elements have no tag, or one of one byte.
fn push_opening(tag: &Tag, element_type: u8, out: &mut Vec<u8>) -> Result<(), AllocError>
    requires { element_type < 32 }
    ensures written { OnOk result (out.new.items ≡ out.old.items ++ opening tag.now element_type) }
    ensures kept { StartsWith out.new.items out.old.items }
{
    match tag {
        Tag::Anonymous => {
            out.push(element_type)?;
            Ok(())
        }
        Tag::Context(number) => out.extend_from_slice(&[CONTEXT + element_type, *number]),
        _ => {
            out.push(32 * control_of(tag) + element_type)?;
            push_tag_field(tag, out)
        }
    }
}

fn control_of(tag: &Tag) -> u8
    ensures control { result ≡ tag_control tag.now }
    ensures in_three_bits { result < 8 }
{
    match tag {
        Tag::Anonymous => 0,
        Tag::Context(_) => 1,
        Tag::Common(number) => { if is_short(*number) { 2 } else { 3 } }
        Tag::Implicit(number) => { if is_short(*number) { 4 } else { 5 } }
        Tag::Full { number, .. } => { if is_short(*number) { 6 } else { 7 } }
    }
}

// Whether a profile's tag number fits two bytes.
fn is_short(number: u32) -> bool
    ensures { result ≡ is_short_number number }
{
    number < 0x1_0000
}

fn push_tag_field(tag: &Tag, out: &mut Vec<u8>) -> Result<(), AllocError>
    ensures written { OnOk result (out.new.items ≡ out.old.items ++ tag_field tag.now) }
    ensures kept { StartsWith out.new.items out.old.items }
{
    match tag {
        Tag::Anonymous => Ok(()),
        Tag::Context(number) => {
            out.push(*number)?;
            Ok(())
        }
        Tag::Common(number) => push_profile_number(*number, out),
        Tag::Implicit(number) => push_profile_number(*number, out),
        Tag::Full {
            vendor,
            profile,
            number,
        } => {
            push_number(*vendor as u64, TWO_BYTES, out)?;
            push_number(*profile as u64, TWO_BYTES, out)?;
            push_profile_number(*number, out)
        }
    }
}

fn push_profile_number(number: u32, out: &mut Vec<u8>) -> Result<(), AllocError>
    ensures written { OnOk result (out.new.items ≡ out.old.items ++ profile_number number) }
    ensures kept { StartsWith out.new.items out.old.items }
{
    if is_short(number) {
        push_number(number as u64, TWO_BYTES, out)
    } else {
        push_number(number as u64, FOUR_BYTES, out)
    }
}

// A number in this width, as an element type gives it: the lowest byte first. Each width is copied by its
// own count of bytes, which the compiler makes a plain store.
fn push_number(number: u64, width: u8, out: &mut Vec<u8>) -> Result<(), AllocError>
    requires { width < 4 }
    ensures written { OnOk result (out.new.items ≡ out.old.items ++ little_endian (2 ^ width) number) }
    ensures kept { StartsWith out.new.items out.old.items }
{
    let bytes = number.to_le_bytes();
    match width {
        ONE_BYTE => {
            out.push(bytes[0])?;
            Ok(())
        }
        TWO_BYTES => out.extend_from_slice(&bytes[..2]),
        FOUR_BYTES => out.extend_from_slice(&bytes[..4]),
        _ => out.extend_from_slice(&bytes),
    }
}

// The least width of a number, as an element type gives it.
fn width(number: u64) -> u8
    ensures least { result ≡ width_of number }
    ensures in_two_bits { result < 4 }
{
    if number < 0x100 {
        ONE_BYTE
    } else if number < 0x1_0000 {
        TWO_BYTES
    } else if number < 0x1_0000_0000 {
        FOUR_BYTES
    } else {
        EIGHT_BYTES
    }
}

fn signed_width(number: i64) -> u8
    ensures least { result ≡ signed_width_of number }
    ensures in_two_bits { result < 4 }
{
    if -0x80 <= number && number < 0x80 {
        ONE_BYTE
    } else if -0x8000 <= number && number < 0x8000 {
        TWO_BYTES
    } else if -0x8000_0000 <= number && number < 0x8000_0000 {
        FOUR_BYTES
    } else {
        EIGHT_BYTES
    }
}
