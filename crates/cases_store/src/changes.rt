//! Changes of maps. A case is one of these:
//!
//! - `write k07=3:ab+k08=+k09=u5+k0a=n`: the bytes of the change that puts three octets ab under the key 07, takes away what
//!   stands under 08, and puts the unsigned number 5 under 09 and null under 0a; none where its keys do not ascend;
//! - `read 1618`: whether bytes are a change;
//! - `merge 1618 1618`: the map to which changes lead from the empty one, as its image.

use crate::shown::add_map;
use cases_page::{Page, hex_bytes, word};
use mt_durable::{Change, ChangeFault, Durable, Entry, read_change, write_change};
use mt_tlv::{Bytes, Value};
use std::alloc::{AllocError, Global};

/// Plays a case and tells what is answered.
pub(crate) fn play(
    alloc: Global,
    page: &mut Page,
    case: &str,
    words: &[&str],
) -> Result<(), AllocError> {
    page.add(case);
    page.add(":");
    match words {
        ["write", change, ..] => add_written(alloc, page, change),
        ["merge", changes @ ..] => add_merged(alloc, page, changes),
        _ => add_read(alloc, page, word(words, 1)),
    }
}

fn add_written(alloc: Global, page: &mut Page, word: &str) -> Result<(), AllocError> {
    let change = change_of(alloc, word)?;
    if change.is_empty() {
        page.add(" none");
    } else {
        page.add(" ");
        page.add_hex(&change);
    }
    Ok(())
}

fn add_merged(alloc: Global, page: &mut Page, changes: &[&str]) -> Result<(), AllocError> {
    match map_of(alloc, changes)? {
        Some(map) => add_map(alloc, page, &map),
        None => {
            page.add(" none");
            Ok(())
        }
    }
}

fn add_read(alloc: Global, page: &mut Page, change: &str) -> Result<(), AllocError> {
    let map = map_of(alloc, &[change])?;
    page.add(if map.is_some() { " a change" } else { " none" });
    Ok(())
}

/// The map to which changes in hex lead from the empty one; None where one of them is none.
pub(crate) fn map_of(alloc: Global, changes: &[&str]) -> Result<Option<Durable>, AllocError> {
    let mut map = Durable::new(alloc);
    for change in changes {
        match read_change(alloc, &hex_bytes(alloc, change)) {
            Ok(change) => map.merge(change)?,
            Err(ChangeFault::NotAChange) => return Ok(None),
            Err(ChangeFault::Memory) => return Err(AllocError),
        }
    }
    Ok(Some(map))
}

/// The bytes of the change that a word says, `c` and its bytes or entries like `k07=3:ab` joined by `+`; no bytes where
/// it is none.
pub(crate) fn change_of(alloc: Global, word: &str) -> Result<Vec<u8>, AllocError> {
    if let Some(bytes) = word.strip_prefix("c") {
        return Ok(hex_bytes(alloc, bytes));
    }
    let mut entries = Vec::new(alloc);
    for part in word.split('+') {
        if let Some((key, value)) = part.trim_start_matches('k').split_once('=') {
            entries.push(entry(alloc, key, value)?)?;
        }
    }
    bytes_of(alloc, entries)
}

fn entry(alloc: Global, key: &str, value: &str) -> Result<Entry, AllocError> {
    Ok(Entry {
        key: Bytes::from_vec(hex_bytes(alloc, key)),
        value: value_of(alloc, value)?,
    })
}

// The bytes of the change with these entries; none where their keys do not ascend.
fn bytes_of(alloc: Global, entries: Vec<Entry>) -> Result<Vec<u8>, AllocError> {
    let mut bytes = Vec::new(alloc);
    if Change::is_ascending(&entries) {
        write_change(alloc, Change::from_vec(entries), &mut bytes)?;
    }
    Ok(bytes)
}

// So many equal octets, an unsigned number, null; or no value.
fn value_of(alloc: Global, word: &str) -> Result<Option<Value>, AllocError> {
    if let Some((count, byte)) = word.split_once(':') {
        let octets = octets(alloc, count, byte)?;
        return Ok(Some(Value::Octets(Bytes::from_vec(octets))));
    }
    if let Some(number) = word.strip_prefix("u") {
        return Ok(Some(Value::Uint(number.parse::<u64>().unwrap_or(0))));
    }
    Ok(if word == "n" { Some(Value::Null) } else { None })
}

fn octets(alloc: Global, count: &str, byte: &str) -> Result<Vec<u8>, AllocError> {
    let mut octets = Vec::new(alloc);
    let byte = u8::from_str_radix(byte, 16).unwrap_or(0);
    octets.resize(count.parse::<usize>().unwrap_or(0), byte)?;
    Ok(octets)
}
