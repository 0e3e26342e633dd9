//! The words of a case: numbers, places and values. A word that is no number is read as 0.

use cases_page::{no_case, pieces, word};
use mt_model::{Happened, Index, Path, Place};
use mt_tlv::{Value, read};
use std::alloc::Global;
use std::io;

/// A number in hex digits.
pub(crate) fn number(word: &str) -> u64 {
    u64::from_str_radix(word, 16).unwrap_or(0)
}

/// A number of at most 32 bits.
pub(crate) fn narrow_number(word: &str) -> u32 {
    u32::from_str_radix(word, 16).unwrap_or(0)
}

/// A number of at most 16 bits.
pub(crate) fn short(word: &str) -> u16 {
    u16::from_str_radix(word, 16).unwrap_or(0)
}

/// A number of at most 8 bits.
pub(crate) fn code(word: &str) -> u8 {
    u8::from_str_radix(word, 16).unwrap_or(0)
}

/// A number, or none as `-` or `*`.
pub(crate) fn number_or_none(word: &str) -> Option<u32> {
    match word {
        "-" | "*" => None,
        _ => Some(narrow_number(word)),
    }
}

/// A number of at most 16 bits, or none as `*`.
pub(crate) fn short_or_any(word: &str) -> Option<u16> {
    match word {
        "*" => None,
        _ => Some(short(word)),
    }
}

pub(crate) fn truth(word: &str) -> bool {
    word == "true"
}

/// ENDPOINT/CLUSTER/ID.
pub(crate) fn place(word: &str) -> Place {
    let (endpoint, cluster, leaf) = three(word);
    Place {
        endpoint: short(endpoint),
        cluster: narrow_number(cluster),
        leaf: narrow_number(leaf),
    }
}

/// ENDPOINT/CLUSTER/ID, with `*` for a wildcard.
pub(crate) fn path(word: &str) -> Path {
    let (endpoint, cluster, leaf) = three(word);
    Path {
        endpoint: short_or_any(endpoint),
        cluster: number_or_none(cluster),
        leaf: number_or_none(leaf),
        index: Index::Whole,
    }
}

/// Three words between which `/` stands.
pub(crate) fn three(word: &str) -> (&str, &str, &str) {
    let (first, rest) = word.split_once('/').unwrap_or((word, ""));
    let (second, third) = rest.split_once('/').unwrap_or((rest, ""));
    (first, second, third)
}

/// A value, as the bytes of an element.
pub(crate) fn value(alloc: Global, word: &str) -> io::Result<Value> {
    let bytes = pieces(alloc, word)?;
    match read(alloc, &bytes) {
        Ok((_, value, _)) => Ok(value),
        Err(_) => Err(no_case()),
    }
}

/// A shared event: behind its first word its number, place, priority, time and value.
pub(crate) fn happened(alloc: Global, words: &[&str]) -> io::Result<Happened> {
    let value = value(alloc, word(words, 5))?;
    Ok(Happened {
        number: number(word(words, 1)),
        place: place(word(words, 2)),
        priority: code(word(words, 3)),
        at: number(word(words, 4)),
        fabric: 0,
        value,
    })
}
