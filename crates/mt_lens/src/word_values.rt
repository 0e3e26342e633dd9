//! Values in words. One that is long is shown indented, a member a line.

use crate::fronts::STRUCTURE;
use crate::page::Page;
use crate::shapes::Shape;
use crate::values::{Shows, Where};
use mt_tlv::{Part, Tag, Value};
use std::alloc::Global;

// What a subject begins with that names CATs.
const CAT_SUBJECT: [u8; 4] = [0xff, 0xff, 0xff, 0xfd];

impl Shows for Page {
    fn show_leaf(&mut self, leaf: &Part<'_>, at: Where) {
        match leaf {
            Part::Scalar(_, value) => show_scalar(self, value, at),
            Part::Text(_, text) => self.quoted(text.as_bytes()),
            Part::Octets(_, octets) => show_octets(self, octets),
            Part::Enter(_, _) | Part::Leave => {}
        }
    }

    fn begin_container(&mut self, kind: u8) {
        self.open_members(if kind == STRUCTURE { b'{' } else { b'[' })
    }

    fn begin_member(&mut self, _kind: u8, tag: Tag, shape: Shape) {
        self.next_member();
        show_tag(self, tag, shape)
    }

    fn end_member(&mut self, _kind: u8) {}

    fn end_container(&mut self, kind: u8, at: Where) {
        self.close_members(if kind == STRUCTURE { b'}' } else { b']' }, at.indent)
    }

    fn memory(&self) -> Global {
        self.alloc()
    }

    fn miss(&mut self) {
        self.leave_gap()
    }
}

fn show_scalar(page: &mut Page, value: &Value, at: Where) {
    match value {
        Value::Int(number) => page.signed(*number),
        Value::Uint(number) => show_number(page, *number, at),
        Value::Bool(true) => page.text("true"),
        Value::Bool(false) => page.text("false"),
        Value::Null => show_null(page, at),
        Value::Bits32(bits) => show_bits(page, &bits.to_be_bytes()),
        Value::Bits64(bits) => show_bits(page, &bits.to_be_bytes()),
        Value::Text(text) => page.quoted(text.as_slice()),
        Value::Octets(octets) => show_octets(page, octets.as_slice()),
        Value::Struct(_) | Value::Array(_) | Value::List(_) => {}
    }
}

// A number, or what it stands for.
fn show_number(page: &mut Page, number: u64, at: Where) {
    let Some(field) = at.field else {
        return page.number(number);
    };
    if let Some(word) = at.of.meaning(field, number) {
        return page.text(word);
    }
    if at.of.has_subjects(field) {
        return show_subject(page, number);
    }
    page.number(number)
}

/// Whom an entry names: a node by its id, or the CATs of an identifier from a version on.
fn show_subject(page: &mut Page, subject: u64) {
    let [a, b, c, d, identifier_high, identifier_low, high, low] = subject.to_be_bytes();
    if [a, b, c, d] == CAT_SUBJECT {
        page.text("CAT ");
        page.octets(&[identifier_high, identifier_low]);
        page.text(" version ");
        return page.number(u16::from_be_bytes([high, low]) as u64);
    }
    if subject <= u32::MAX as u64 {
        return page.number(subject);
    }
    page.octets(&subject.to_be_bytes())
}

/// Octets in hex digits behind `0x`, so that they are told from numbers.
pub(crate) fn show_octets(page: &mut Page, octets: &[u8]) {
    if octets.is_empty() {
        return page.text("no bytes");
    }
    page.text("0x");
    page.octets(octets)
}

// Null, or that there are none.
fn show_null(page: &mut Page, at: Where) {
    match at.field {
        Some(field) if at.of.has_none(field) => page.text("none"),
        _ => page.text("null"),
    }
}

// A float, by its bits.
fn show_bits(page: &mut Page, bits: &[u8]) {
    page.text("float of bits ");
    page.octets(bits)
}

fn show_tag(page: &mut Page, tag: Tag, shape: Shape) {
    match tag {
        Tag::Anonymous => return,
        Tag::Context(field) => match shape.name(field) {
            Some(name) => page.text(name),
            None => page.number(field as u64),
        },
        Tag::Common(number) => {
            page.text("common profile ");
            page.id(number);
        }
        Tag::Implicit(number) => {
            page.text("implicit profile ");
            page.id(number);
        }
        Tag::Full {
            vendor,
            profile,
            number,
        } => {
            page.text("profile ");
            page.id(profile as u32);
            page.text(" of vendor ");
            page.id(vendor as u32);
            page.text(" ");
            page.id(number);
        }
    }
    page.text(": ")
}
