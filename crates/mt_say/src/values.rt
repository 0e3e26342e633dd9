//! Values in words: null, truth values, numbers, texts, bytes, and structures, arrays and lists of them.

use crate::fault::{Misfit, Wanted};
use crate::numbers::{hex_behind_mark, hex_digit, hex_number, want_octets, want_short};
use crate::shapes::Shape;
use crate::words::Words;
use mt_files::number;
use mt_meta::clusters::access_control;
use mt_tlv::{Bytes, Members, Tag, Value};
use std::alloc::Global;
use std::str;

/// How many structures, arrays and lists may be open inside each other: what the encoding leaves beside what a request
/// has round a value.
const ROOM: u8 = 13;

// What a subject begins with that names CATs.
const CAT_SUBJECT: u64 = 0xffff_fffd_0000_0000;

const VALUE: Wanted = Wanted::Kind(
    "a value: null, true, false, a number, a text in quotes, bytes as 0x and digits of hex, {field: value}, [value] or list [value]",
);

/// Where a value stands: what its structures are, and of what and in which field it is a member.
#[derive(Clone, Copy)]
struct Spot {
    shape: Shape,
    of: Shape,
    field: Option<u8>,
}

impl Spot {
    // Where the value of a field of its structure stands.
    fn member(self, field: u8) -> Spot {
        Spot {
            shape: self.shape.inner(field),
            of: self.shape,
            field: Some(field),
        }
    }
}

/// A value, whose structures are these.
pub(crate) fn want_value(
    alloc: Global,
    words: &mut Words<'_>,
    shape: Shape,
) -> Result<Value, Misfit> {
    let spot = Spot {
        shape,
        of: Shape::Fields(&[]),
        field: None,
    };
    value(alloc, words, spot, ROOM)
}

#[cycle(value)]
fn value(alloc: Global, words: &mut Words<'_>, spot: Spot, room: u8) -> Result<Value, Misfit> {
    if room == 0 {
        return leaf(alloc, words, spot);
    }
    if words.take_mark(b'{') {
        return structure(alloc, words, spot, room - 1);
    }
    if words.take_mark(b'[') {
        return array(alloc, words, spot, room - 1);
    }
    if words.take(b"list") {
        return list(alloc, words, spot, room - 1);
    }
    leaf(alloc, words, spot)
}

// The fields of a structure behind its bracket.
#[cycle(value)]
fn structure(alloc: Global, words: &mut Words<'_>, spot: Spot, room: u8) -> Result<Value, Misfit> {
    let mut items = Vec::new(alloc);
    if words.take_mark(b'}') {
        return Ok(Value::Struct(Members::from_vec(items)));
    }
    for _ in 0..words.most() {
        let field = want_field(words, spot.shape)?;
        let value = value(alloc, words, spot.member(field), room)?;
        items.push((Tag::Context(field), value))?;
        if words.take_mark(b'}') {
            return Ok(Value::Struct(Members::from_vec(items)));
        }
        want_mark(words, b',', &[",", "}"])?;
    }
    Err(words.misfit(Wanted::Words(&["}"])))
}

// The items of an array behind its bracket.
#[cycle(value)]
fn array(alloc: Global, words: &mut Words<'_>, spot: Spot, room: u8) -> Result<Value, Misfit> {
    let mut items = Vec::new(alloc);
    if words.take_mark(b']') {
        return Ok(Value::Array(Members::from_vec(items)));
    }
    for _ in 0..words.most() {
        let value = value(alloc, words, spot, room)?;
        items.push((Tag::Anonymous, value))?;
        if words.take_mark(b']') {
            return Ok(Value::Array(Members::from_vec(items)));
        }
        want_mark(words, b',', &[",", "]"])?;
    }
    Err(words.misfit(Wanted::Words(&["]"])))
}

// The members of a list behind its word. Those that have a field's number or name have it as their tag.
#[cycle(value)]
fn list(alloc: Global, words: &mut Words<'_>, spot: Spot, room: u8) -> Result<Value, Misfit> {
    let mut items = Vec::new(alloc);
    want_mark(words, b'[', &["["])?;
    if words.take_mark(b']') {
        return Ok(Value::List(Members::from_vec(items)));
    }
    for _ in 0..words.most() {
        let member = list_member(alloc, words, spot, room)?;
        items.push(member)?;
        if words.take_mark(b']') {
            return Ok(Value::List(Members::from_vec(items)));
        }
        want_mark(words, b',', &[",", "]"])?;
    }
    Err(words.misfit(Wanted::Words(&["]"])))
}

#[cycle(value)]
fn list_member(
    alloc: Global,
    words: &mut Words<'_>,
    spot: Spot,
    room: u8,
) -> Result<(Tag, Value), Misfit> {
    let mut behind = *words;
    behind.next();
    if behind.is_mark(b':') {
        let field = want_field(words, spot.shape)?;
        let value = value(alloc, words, spot.member(field), room)?;
        return Ok((Tag::Context(field), value));
    }
    let value = value(alloc, words, spot, room)?;
    Ok((Tag::Anonymous, value))
}

// The name or the number of a field, and its colon.
fn want_field(words: &mut Words<'_>, shape: Shape) -> Result<u8, Misfit> {
    let word = words.peek();
    let field = match shape.field(word) {
        Some(field) => Some(field),
        None => match number(0, u8::MAX as u64, word) {
            Some(field) => u8::try_from(field).ok(),
            None => None,
        },
    };
    match field {
        Some(field) => {
            words.next();
            want_mark(words, b':', &[":"])?;
            Ok(field)
        }
        None => Err(words.misfit(Wanted::Field(shape))),
    }
}

fn want_mark(
    words: &mut Words<'_>,
    mark: u8,
    fitting: &'static [&'static str],
) -> Result<(), Misfit> {
    if words.take_mark(mark) {
        Ok(())
    } else {
        Err(words.misfit(Wanted::Words(fitting)))
    }
}

// A value that has no members.
fn leaf(alloc: Global, words: &mut Words<'_>, spot: Spot) -> Result<Value, Misfit> {
    if words.is_mark(b'"') {
        return Ok(Value::Text(want_text(alloc, words)?));
    }
    let word = words.peek();
    if hex_behind_mark(word).is_some() {
        return Ok(Value::Octets(want_octets(alloc, words)?));
    }
    if words.take(b"float") {
        return want_float(words);
    }
    if words.take(b"CAT") {
        return want_cat_subject(words);
    }
    match scalar(word, spot) {
        Some(value) => {
            words.next();
            Ok(value)
        }
        None => Err(words.misfit(wanted_at(spot))),
    }
}

// What would fit at a place where a value does not.
fn wanted_at(spot: Spot) -> Wanted {
    match (spot.of, spot.field) {
        (Shape::Entry, Some(access_control::PRIVILEGE)) => Wanted::Privilege,
        (Shape::Entry, Some(access_control::AUTH_MODE)) => Wanted::Mode,
        (Shape::Entry, Some(access_control::SUBJECTS)) => Wanted::Subject,
        _ => VALUE,
    }
}

// What a word alone says.
fn scalar(word: &[u8], spot: Spot) -> Option<Value> {
    match word {
        b"null" | b"none" => return Some(Value::Null),
        b"true" => return Some(Value::Bool(true)),
        b"false" => return Some(Value::Bool(false)),
        [b'-', digits @ ..] => return Some(Value::Int(negative(digits)?)),
        [b'+', digits @ ..] => {
            let number = number(0, i64::MAX as u64, digits)?;
            return Some(Value::Int(i64::try_from(number).ok()?));
        }
        _ => {}
    }
    let number = match spot.field {
        Some(field) => number_in(word, spot.of, field)?,
        None => number(0, u64::MAX, word)?,
    };
    Some(Value::Uint(number))
}

// A number in a field, which may be told by its meaning, and a subject by 16 digits of hex.
fn number_in(word: &[u8], of: Shape, field: u8) -> Option<u64> {
    if of.has_subjects(field) && word.len() == 16 {
        return hex_number(word, 16);
    }
    if let Some(number) = number(0, u64::MAX, word) {
        return Some(number);
    }
    of.meant(field, word)
}

// A number below 0 of these digits.
fn negative(digits: &[u8]) -> Option<i64> {
    let number = number(1, 0x8000_0000_0000_0000, digits)?;
    // -1 - (number - 1), which does not leave the range.
    let below = i64::try_from(number.wrapping_sub(1)).ok()?;
    Some((-1i64).wrapping_sub(below))
}

// `float of bits ..`, 8 or 16 digits of hex.
fn want_float(words: &mut Words<'_>) -> Result<Value, Misfit> {
    words.want(b"of", &["of bits"])?;
    words.want(b"bits", &["bits"])?;
    let digits = words.peek();
    let bits = match hex_number(digits, 16) {
        Some(bits) => bits,
        None => return Err(words.misfit(Wanted::Kind("8 or 16 digits of hex"))),
    };
    let value = match digits.len() {
        8 => match u32::try_from(bits) {
            Ok(bits) => Value::Bits32(bits),
            Err(_) => return Err(words.misfit(Wanted::Kind("8 or 16 digits of hex"))),
        },
        16 => Value::Bits64(bits),
        _ => return Err(words.misfit(Wanted::Kind("8 or 16 digits of hex"))),
    };
    words.next();
    Ok(value)
}

// `CAT identifier version n`: the subject that means CATs.
fn want_cat_subject(words: &mut Words<'_>) -> Result<Value, Misfit> {
    let Some(identifier) = cat_identifier(words.peek()) else {
        return Err(words.misfit(Wanted::Kind("a CAT's identifier in 4 digits of hex")));
    };
    words.next();
    words.want(b"version", &["version"])?;
    let version = want_short(words)?;
    let subject = CAT_SUBJECT | identifier.wrapping_mul(0x1_0000) | version as u64;
    Ok(Value::Uint(subject))
}

fn cat_identifier(word: &[u8]) -> Option<u64> {
    if word.len() == 4 {
        hex_number(word, 4)
    } else {
        None
    }
}

// A text in quotes, the first of which is next. `\"`, `\\`, `\n` and `\x` with two digits stand for a byte.
fn want_text(alloc: Global, words: &mut Words<'_>) -> Result<Bytes, Misfit> {
    let unended = words.misfit(Wanted::Kind("a text of UTF-8, with a quote behind it"));
    let mut text = Vec::new(alloc);
    words.byte();
    for _ in 0..words.most() {
        match words.byte() {
            Some(b'"') => {
                return match str::from_utf8(text.as_slice()) {
                    Ok(_) => Ok(Bytes::from_vec(text)),
                    Err(_) => Err(unended),
                };
            }
            Some(b'\\') => text.push(want_escaped(words)?)?,
            Some(byte) => text.push(byte)?,
            None => return Err(unended),
        }
    }
    Err(unended)
}

// The byte that is meant by what stands behind a backslash.
fn want_escaped(words: &mut Words<'_>) -> Result<u8, Misfit> {
    let wrong = words.misfit(Wanted::Kind("one of \\\" \\\\ \\n and \\x with two digits of hex"));
    match words.byte() {
        Some(b'"') => Ok(b'"'),
        Some(b'\\') => Ok(b'\\'),
        Some(b'n') => Ok(b'\n'),
        Some(b'x') => match (words.byte(), words.byte()) {
            (Some(high), Some(low)) => match (hex_digit(high), hex_digit(low)) {
                (Some(high), Some(low)) => Ok(high.wrapping_mul(16) | low),
                _ => Err(wrong),
            },
            _ => Err(wrong),
        },
        _ => Err(wrong),
    }
}
