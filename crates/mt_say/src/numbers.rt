//! Numbers and bytes in words.

use crate::fault::{Misfit, Wanted};
use crate::words::Words;
use mt_files::{number, payload};
use mt_model::limits::PAYLOAD_BYTES;
use mt_tlv::Bytes;
use std::alloc::Global;

/// A number of this range in decimal digits, which must be next.
pub(crate) fn want_number(
    words: &mut Words<'_>,
    least: u64,
    most: u64,
    wanted: &'static str,
) -> Result<u64, Misfit> {
    match number(least, most, words.peek()) {
        Some(number) => {
            words.next();
            Ok(number)
        }
        None => Err(words.misfit(Wanted::Kind(wanted))),
    }
}

/// A number of 16 bits, which must be next.
pub(crate) fn want_short(words: &mut Words<'_>) -> Result<u16, Misfit> {
    let number = want_number(words, 0, u16::MAX as u64, "a number from 0 to 65535")?;
    Ok(u16::try_from(number).unwrap_or(u16::MAX))
}

/// A number of 32 bits, which must be next.
pub(crate) fn want_long(words: &mut Words<'_>) -> Result<u32, Misfit> {
    let number = want_number(words, 0, u32::MAX as u64, "a number from 0 to 4294967295")?;
    Ok(u32::try_from(number).unwrap_or(u32::MAX))
}

/// An id: decimal digits, or up to 8 digits of hex behind `0x`.
pub(crate) fn id_of(word: &[u8]) -> Option<u32> {
    let id = match hex_behind_mark(word) {
        Some(digits) => hex_number(digits, 8)?,
        None => number(0, u32::MAX as u64, word)?,
    };
    u32::try_from(id).ok()
}

/// What stands behind `0x`.
pub(crate) fn hex_behind_mark(word: &[u8]) -> Option<&[u8]> {
    match word {
        [b'0', b'x', digits @ ..] => Some(digits),
        _ => None,
    }
}

/// The number of 1 to so many digits of hex.
pub(crate) fn hex_number(digits: &[u8], most: usize) -> Option<u64> {
    if digits.is_empty() || digits.len() > most {
        return None;
    }
    let mut number = 0u64;
    for digit in digits {
        number = number.wrapping_mul(16) | hex_digit(*digit)? as u64;
    }
    Some(number)
}

/// The value of a digit of hex, in either case.
pub(crate) fn hex_digit(digit: u8) -> Option<u8> {
    match digit {
        b'0'..=b'9' => Some(digit - b'0'),
        b'a'..=b'f' => Some(digit - b'a' + 10),
        b'A'..=b'F' => Some(digit - b'A' + 10),
        _ => None,
    }
}

// What stands where bytes do.
const OCTETS: Wanted = Wanted::Kind("at most 1280 bytes: 0x, and two digits of hex for each");

/// Bytes as digits of hex behind `0x`, two for each, which must be next.
pub(crate) fn want_octets(alloc: Global, words: &mut Words<'_>) -> Result<Bytes, Misfit> {
    let octets = match hex_behind_mark(words.peek()) {
        Some([]) => Some(Bytes::new(alloc)),
        Some([b'-', ..]) | None => None,
        Some(digits) => payload(alloc, PAYLOAD_BYTES, digits)?,
    };
    match octets {
        Some(octets) => {
            words.next();
            Ok(octets)
        }
        None => Err(words.misfit(OCTETS)),
    }
}
