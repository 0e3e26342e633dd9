//! How many bytes an element takes in the narrow encoding, in no memory.

ghost use Rattle.std.specs.Prelude.{◌≡◌, ◌≤◌, ◌<◌, ◌+◌, ◌^◌, length};
ghost use Rattle.mt_durable.specs.Lengths.{Begins, opening_length, piece_length, scalar_length, string_length};
ghost use Rattle.mt_tlv.specs.Narrow.{narrow, profile_number, signed_width_of, width_of};
ghost use Rattle.mt_tlv.specs.Parts.{piece};
ghost use Rattle.mt_tlv.specs.View.{tree};

use mt_tlv::{Cursor, Part, Tag, Value, cursor_comes_over_the_element};

/// How many bytes the element takes that stands in front, in the narrow encoding.
pub(crate) fn element_length(bytes: &[u8]) -> usize
    requires { Begins bytes.now }
    ensures { (begins : Begins bytes.now) → result ≡ length (narrow begins.tag begins.tree) }
{
    cursor_comes_over_the_element();
    let mut cursor = Cursor::new(bytes);
    let mut length = 0;
    'parts: while let Ok(Some(part)) = cursor.next() {
        length += part_length(&part);
    }
    length
}

// A part, with its tag.
fn part_length(part: &Part<'_>) -> usize
    ensures { result ≡ piece_length (piece part.now) }
{
    match part {
        Part::Scalar(tag, value) => opening_length(tag) + scalar_length(value),
        Part::Text(tag, text) => opening_length(tag) + string_length(text.len()),
        Part::Octets(tag, octets) => opening_length(tag) + string_length(octets.len()),
        Part::Enter(tag, _) => opening_length(tag),
        Part::Leave => 1,
    }
}

// A control octet, and the tag behind it.
fn opening_length(tag: &Tag) -> usize
    ensures exact { result ≡ opening_length tag.now }
    ensures small { result ≤ 9 }
{
    match tag {
        Tag::Anonymous => 1,
        Tag::Context(_) => 2,
        Tag::Common(number) | Tag::Implicit(number) => 1 + number_length(*number),
        Tag::Full { number, .. } => 5 + number_length(*number),
    }
}

// The tag number of a profile.
fn number_length(number: u32) -> usize
    ensures exact { result ≡ length (profile_number number) }
    ensures small { result ≤ 4 }
{
    if number < 0x1_0000 { 2 } else { 4 }
}

/// A string of so many bytes, behind its length.
pub(crate) fn string_length(count: usize) -> usize
    requires { count < 2 ^ 63 }
    ensures exact { result ≡ string_length count }
    ensures small { result ≤ count + 8 }
{
    unsigned_length(count as u64) + count
}

// A value that is no string and no container.
fn scalar_length(value: &Value) -> usize
    ensures exact { result ≡ scalar_length (tree value.now) }
    ensures small { result ≤ 8 }
{
    match value {
        Value::Int(number) => signed_length(*number),
        Value::Uint(number) => unsigned_length(*number),
        Value::Bits32(_) => 4,
        Value::Bits64(_) => 8,
        _ => 0,
    }
}

fn unsigned_length(number: u64) -> usize
    ensures exact { result ≡ 2 ^ width_of number }
    ensures small { result ≤ 8 }
{
    if number < 0x100 {
        1
    } else if number < 0x1_0000 {
        2
    } else if number < 0x1_0000_0000 {
        4
    } else {
        8
    }
}

fn signed_length(number: i64) -> usize
    ensures exact { result ≡ 2 ^ signed_width_of number }
    ensures small { result ≤ 8 }
{
    if -0x80 <= number && number < 0x80 {
        1
    } else if -0x8000 <= number && number < 0x8000 {
        2
    } else if -0x8000_0000 <= number && number < 0x8000_0000 {
        4
    } else {
        8
    }
}
