//! The words of a case.

ghost use Rattle.std.specs.Prelude.{◌≡◌, ◌≤◌, ◌<◌, ◌%◌, [], ◌∷◌, length, IfOk, slice_index_or};
ghost use Rattle.std.specs.Str.Parse.{ParsesUnsigned};
ghost use Rattle.std.specs.IoError.{error_kind};

use std::alloc::{AllocError, Global};
use std::io::{self, ErrorKind};

/// The word at this place; no letters where there is none.
pub fn word<'a>(words: &[&'a str], place: usize) -> &'a str
    ensures there { place < length words.now → result ≡ slice_index_or words.now place result }
    ensures outside { length words.now ≤ place → result.now ≡ [] }
{
    match words.get(place) {
        Some(word) => *word,
        None => "",
    }
}

/// The number at this place, in decimal digits; 0 where there is none.
pub fn number(words: &[&str], place: usize) -> u64
    ensures outside { length words.now ≤ place → result ≡ 0 }
{
    match words.get(place) {
        Some(word) => word.parse::<u64>().unwrap_or(0),
        None => 0,
    }
}

/// The same of 32 bits.
pub fn id(words: &[&str], place: usize) -> u32
    ensures outside { length words.now ≤ place → result ≡ 0 }
{
    match words.get(place) {
        Some(word) => word.parse::<u32>().unwrap_or(0),
        None => 0,
    }
}

/// The same of 16 bits.
pub fn short(words: &[&str], place: usize) -> u16
    ensures outside { length words.now ≤ place → result ≡ 0 }
{
    match words.get(place) {
        Some(word) => word.parse::<u16>().unwrap_or(0),
        None => 0,
    }
}

/// The same of 8 bits.
pub fn byte(words: &[&str], place: usize) -> u8
    ensures outside { length words.now ≤ place → result ≡ 0 }
{
    match words.get(place) {
        Some(word) => word.parse::<u8>().unwrap_or(0),
        None => 0,
    }
}

/// A number in hex digits, as ids are.
pub fn hex_number(word: &str) -> io::Result<u64>
    ensures read { ParsesUnsigned 64 16 word.now result }
{
    u64::from_str_radix(word, 16).ok().ok_or(no_case())
}

/// Bytes in hex; none where the word is no hex.
pub fn hex_bytes(alloc: Global, word: &str) -> Vec<u8>
    ensures odd { length word.now % 2 ≡ 1 → result.items ≡ [] }
{
    match hex::decode(alloc, word) {
        Ok(bytes) => bytes,
        Err(_) => Vec::new(alloc),
    }
}

/// Bytes as pieces of hex with `,` between them; `-` stands for none. A piece may say with `*` how many times it
/// stands there.
pub fn pieces(alloc: Global, word: &str) -> io::Result<Vec<u8>>
    ensures none { word.now ≡ 45 ∷ [] → IfOk result (λ bytes. bytes.items ≡ []) }
{
    let mut bytes = Vec::new(alloc);
    if word == "-" {
        return Ok(bytes);
    }
    for piece in word.split(',') {
        let (text, times) = piece.split_once('*').unwrap_or((piece, "1"));
        let Ok(octets) = hex::decode(alloc, text) else {
            return Err(no_case());
        };
        for _ in 0..times_of(times)? {
            bytes.extend_from_slice(&octets)?;
        }
    }
    Ok(bytes)
}

fn times_of(word: &str) -> io::Result<u16> {
    word.parse().ok().ok_or(no_case())
}

/// A line is no case.
pub fn no_case() -> io::Error
    ensures kind { error_kind result ≡ ErrorKind.InvalidInput }
{
    io::Error::from(ErrorKind::InvalidInput)
}
