//! What is told of an element.

use cases_page::Page;
use mt_tlv::{Cursor, Part, Tag, TlvFault, Value, read, write};
use std::alloc::{AllocError, Global};

/// The element in front, and its parts.
pub(crate) fn tell(alloc: Global, page: &mut Page, bytes: &[u8]) {
    page.add("  ");
    match read(alloc, bytes) {
        Ok((tag, value, length)) => tell_element(alloc, page, &tag, &value, length),
        Err(fault) => page.add_debug(&fault),
    }
    page.end_line();
    tell_parts(page, bytes);
}

// The tag, the narrow encoding and the length.
fn tell_element(alloc: Global, page: &mut Page, tag: &Tag, value: &Value, length: usize) {
    let mut narrow = Vec::new(alloc);
    if write_copied(tag, value, &mut narrow).is_err() {
        page.leave_gap();
    }
    page.add_debug(tag);
    page.add(" ");
    page.add_hex(&narrow);
    page.add(" of ");
    page.add_number(length as u64);
}

fn write_copied(tag: &Tag, value: &Value, narrow: &mut Vec<u8>) -> Result<(), AllocError> {
    write(tag, &value.copy()?, narrow)
}

fn tell_parts(page: &mut Page, bytes: &[u8]) {
    let mut cursor = Cursor::new(bytes);
    for _ in bytes {
        if !tell_next(page, &mut cursor) {
            return;
        }
    }
    tell_next(page, &mut cursor);
}

// Tells the next part, and whether there was one. The end is met again, and so is a fault.
fn tell_next(page: &mut Page, cursor: &mut Cursor<'_>) -> bool {
    page.add("    ");
    if let Ok(Some(part)) = cursor.next() {
        tell_part(page, &part);
        page.end_line();
        return true;
    }
    match cursor.next() {
        Ok(Some(_)) => page.add("goes on"),
        Ok(None) => page.add("end"),
        Err(fault) => page.add_debug(&fault),
    }
    page.end_line();
    false
}

fn tell_part(page: &mut Page, part: &Part<'_>) {
    match part {
        Part::Scalar(tag, value) => {
            page.add_debug(tag);
            tell_scalar(page, value);
        }
        Part::Text(tag, text) => {
            page.add_debug(tag);
            page.add(" text ");
            page.add(text);
        }
        Part::Octets(tag, octets) => {
            page.add_debug(tag);
            page.add(" octets ");
            page.add_hex(octets);
        }
        Part::Enter(tag, element_type) => {
            page.add_debug(tag);
            page.add(" enter ");
            page.add_hex(&[*element_type]);
        }
        Part::Leave => page.add("leave"),
    }
}

fn tell_scalar(page: &mut Page, value: &Value) {
    match value {
        Value::Int(number) => {
            page.add(" int ");
            page.add_shown(number);
        }
        Value::Uint(number) => {
            page.add(" uint ");
            page.add_number(*number);
        }
        Value::Bool(truth) => {
            page.add(" ");
            page.add_shown(truth);
        }
        Value::Null => page.add(" null"),
        Value::Bits32(bits) => {
            page.add(" single ");
            page.add_hex(&bits.to_be_bytes());
        }
        Value::Bits64(bits) => {
            page.add(" double ");
            page.add_hex(&bits.to_be_bytes());
        }
        _ => page.add(" no scalar"),
    }
}

/// Why the bytes are no element. Going over the parts tells of no tag that is there twice.
pub(crate) fn tell_faults(alloc: Global, page: &mut Page, bytes: &[u8]) {
    page.add("  ");
    match read(alloc, bytes) {
        Ok(_) => page.add("none"),
        Err(fault) => page.add_debug(&fault),
    }
    page.add(" ");
    match fault_of_parts(bytes) {
        Some(fault) => page.add_debug(&fault),
        None => page.add("none"),
    }
    page.end_line();
}

fn fault_of_parts(bytes: &[u8]) -> Option<TlvFault> {
    let mut cursor = Cursor::new(bytes);
    for _ in bytes {
        match cursor.next() {
            Ok(Some(_)) => {}
            Ok(None) => return None,
            Err(fault) => return Some(fault),
        }
    }
    cursor.next().err()
}

/// Whether two elements have equal values.
pub(crate) fn tell_same(alloc: Global, page: &mut Page, one: &[u8], other: &[u8]) {
    page.add("  ");
    match (read(alloc, one), read(alloc, other)) {
        (Ok((_, one, _)), Ok((_, other, _))) => page.add_shown(&one.equals(&other)),
        _ => page.add("no element"),
    }
    page.end_line();
}
