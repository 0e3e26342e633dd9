//! Values as JSON. A structure is an object by the names of its fields, or by their numbers; octets are a text of
//! hex digits behind `0x`; what a number stands for is said in place of it.

use crate::fronts::{LIST, STRUCTURE};
use crate::json_objects::Object;
use crate::shapes::Shape;
use crate::values::{Shows, Where};
use mt_tlv::{Part, Tag, Value};
use std::alloc::Global;
use std::str;

// A structure is an object. A list may have a tag twice, so it is an array of objects of one member.
impl Shows for Object {
    fn show_leaf(&mut self, leaf: &Part<'_>, at: Where) {
        match leaf {
            Part::Scalar(_, value) => put_scalar(self, value, at),
            Part::Text(_, text) => self.quoted(text),
            Part::Octets(_, octets) => self.hex(octets),
            Part::Enter(_, _) | Part::Leave => {}
        }
    }

    fn begin_container(&mut self, kind: u8) {
        if kind == STRUCTURE {
            self.open()
        } else {
            self.open_list()
        }
    }

    fn begin_member(&mut self, kind: u8, tag: Tag, shape: Shape) {
        if kind != STRUCTURE {
            self.next_item();
        }
        if kind == LIST {
            self.open();
        }
        if kind == STRUCTURE || kind == LIST {
            put_key(self, tag, shape)
        }
    }

    fn end_member(&mut self, kind: u8) {
        if kind == LIST {
            self.close()
        }
    }

    fn end_container(&mut self, kind: u8, _at: Where) {
        if kind == STRUCTURE {
            self.close()
        } else {
            self.close_list()
        }
    }

    fn memory(&self) -> Global {
        self.page.alloc()
    }

    fn miss(&mut self) {
        self.page.leave_gap()
    }
}

fn put_scalar(out: &mut Object, value: &Value, at: Where) {
    match value {
        Value::Int(number) => out.page.signed(*number),
        Value::Uint(number) => put_number(out, *number, at),
        Value::Bool(true) => out.page.text("true"),
        Value::Bool(false) => out.page.text("false"),
        Value::Null => out.page.text("null"),
        Value::Bits32(bits) => out.hex(&bits.to_be_bytes()),
        Value::Bits64(bits) => out.hex(&bits.to_be_bytes()),
        Value::Text(text) => put_text(out, text.as_slice()),
        Value::Octets(octets) => out.hex(octets.as_slice()),
        Value::Struct(_) | Value::Array(_) | Value::List(_) => {}
    }
}

// Begins a member by its name, or by its tag.
fn put_key(out: &mut Object, tag: Tag, shape: Shape) {
    out.begin_key();
    match tag {
        Tag::Anonymous => out.page.byte(b'-'),
        Tag::Context(field) => match shape.name(field) {
            Some(name) => out.page.text(name),
            None => out.page.number(field as u64),
        },
        Tag::Common(number) => {
            out.page.text("common:");
            out.page.number(number as u64)
        }
        Tag::Implicit(number) => {
            out.page.text("implicit:");
            out.page.number(number as u64)
        }
        Tag::Full {
            vendor,
            profile,
            number,
        } => {
            for part in [vendor as u64, profile as u64] {
                out.page.number(part);
                out.page.byte(b':');
            }
            out.page.number(number as u64)
        }
    }
    out.end_key()
}

// A number, or what it stands for.
fn put_number(out: &mut Object, number: u64, at: Where) {
    let meaning = match at.field {
        Some(field) => at.of.meaning(field, number),
        None => None,
    };
    match meaning {
        Some(word) => out.quoted(word),
        None => out.page.number(number),
    }
}

/// A text, or its bytes where it is not UTF-8.
pub(crate) fn put_text(out: &mut Object, text: &[u8]) {
    match str::from_utf8(text) {
        Ok(text) => out.quoted(text),
        Err(_) => out.hex(text),
    }
}
