//! Objects of JSON as they are written. Whoever writes one need not look whether memory sufficed: the page knows.
//! Members are put in any order, and stand in that of their names.

use crate::page::Page;
use serde_json::Value as Json;
use std::alloc::{AllocError, Global};
use std::str;

// How many members are in most objects that are open.
const ROOM: usize = 32;

/// An object that is written, and those that stand in it.
#[derive(Drop)]
pub(crate) struct Object {
    pub page: Page,
    /// Where each member begins of the objects that are open, those of the innermost last.
    starts: Vec<usize>,
    /// How many members of others had begun where each object was opened, the innermost last.
    opened: Vec<usize>,
}

/// How much stands in an object at some time.
#[derive(Clone, Copy)]
pub(crate) struct Written {
    bytes: usize,
    starts: usize,
    opened: usize,
}

impl Object {
    /// Nothing is written yet, and no object is open. Memory is that of a page, with room for so many bytes.
    pub(crate) fn on(page: &Page, room: usize) -> Object {
        Object {
            page: page.plain(room),
            starts: with_room(page.alloc()),
            opened: with_room(page.alloc()),
        }
    }

    /// How much is written so far.
    pub(crate) fn written(&self) -> Written {
        Written {
            bytes: self.page.len(),
            starts: self.starts.len(),
            opened: self.opened.len(),
        }
    }

    /// Forgets what was written since.
    pub(crate) fn go_back(&mut self, written: Written) {
        self.page.cut(written.bytes);
        self.starts.truncate(written.starts);
        self.opened.truncate(written.opened)
    }

    pub(crate) fn into_page(self) -> Page {
        self.page
    }

    /// Opens an object.
    pub(crate) fn open(&mut self) {
        self.page.byte(b'{');
        if self.opened.push(self.starts.len()).is_err() {
            self.page.leave_gap();
        }
    }

    /// Closes the innermost object.
    pub(crate) fn close(&mut self) {
        let others = self.opened.pop().unwrap_or(0);
        order(&mut self.page, self.starts.get(others..).unwrap_or(&[]));
        self.starts.truncate(others);
        self.page.byte(b'}')
    }

    /// Opens a list.
    pub(crate) fn open_list(&mut self) {
        self.page.byte(b'[')
    }

    /// Begins the next item of the innermost list.
    pub(crate) fn next_item(&mut self) {
        if self.page.last() != b'[' {
            self.page.byte(b',');
        }
    }

    /// Closes the innermost list.
    pub(crate) fn close_list(&mut self) {
        self.page.byte(b']')
    }

    /// Begins the next member of the innermost object; its name follows, and then `end_key`.
    pub(crate) fn begin_key(&mut self) {
        if self.page.last() != b'{' {
            self.page.byte(b',');
        }
        if self.starts.push(self.page.len()).is_err() {
            self.page.leave_gap();
        }
        self.page.byte(b'"')
    }

    pub(crate) fn end_key(&mut self) {
        self.page.text("\":")
    }

    /// Begins a member of this name, which has nothing to be escaped. Its value follows.
    pub(crate) fn key(&mut self, key: &str) {
        self.begin_key();
        self.page.text(key);
        self.end_key()
    }

    /// Begins a member whose name comes next behind that of the member in front of it, behind which it keeps its place. It
    /// is given in quotes, with a colon behind it.
    pub(crate) fn next_key(&mut self, quoted: &str) {
        if self.page.last() != b'{' {
            self.page.byte(b',');
        }
        self.page.text(quoted)
    }

    /// Text in quotes, with what JSON does not let stand escaped.
    pub(crate) fn quoted(&mut self, text: &str) {
        if is_plain(text.as_bytes()) {
            self.page.byte(b'"');
            self.page.text(text);
            return self.page.byte(b'"');
        }
        match escaped(self.page.alloc(), text) {
            Ok(text) => self.page.text(text.as_str()),
            Err(_) => self.page.leave_gap(),
        }
    }

    /// Octets in hex digits behind `0x`.
    pub(crate) fn hex(&mut self, octets: &[u8]) {
        self.page.text("\"0x");
        self.page.octets(octets);
        self.page.byte(b'"')
    }

    pub(crate) fn text(&mut self, key: &str, text: &str) {
        self.key(key);
        self.quoted(text)
    }

    pub(crate) fn number(&mut self, key: &str, number: u64) {
        self.key(key);
        self.page.number(number)
    }

    pub(crate) fn truth(&mut self, key: &str, truth: bool) {
        self.key(key);
        self.page.text(if truth { "true" } else { "false" })
    }

    pub(crate) fn octets(&mut self, key: &str, octets: &[u8]) {
        self.key(key);
        self.hex(octets)
    }
}

// A list with room for the members of most objects.
fn with_room(alloc: Global) -> Vec<usize> {
    match Vec::with_capacity(alloc, ROOM) {
        Ok(list) => list,
        Err(_) => Vec::new(alloc),
    }
}

// Whether nothing in a text is to be escaped.
fn is_plain(text: &[u8]) -> bool {
    for byte in text {
        if *byte < 0x20 || *byte == b'"' || *byte == b'\\' {
            return false;
        }
    }
    true
}

fn escaped(alloc: Global, text: &str) -> Result<String, AllocError> {
    Json::try_from_str(alloc, text)?.to_string(alloc)
}

// Puts the members that begin at these places into the order of their names. Most stand in it.
fn order(page: &mut Page, starts: &[usize]) {
    let Some(first) = starts.first() else {
        return;
    };
    if are_ordered(page.bytes(), starts) {
        return;
    }
    let ordered = ordered(page, starts);
    page.cut(*first);
    page.append(&ordered)
}

// Whether each member stands behind those of lesser names.
fn are_ordered(bytes: &[u8], starts: &[usize]) -> bool {
    let mut last: &[u8] = &[];
    for start in starts {
        let member = bytes.get(*start..).unwrap_or(&[]);
        if member < last {
            return false;
        }
        last = member;
    }
    true
}

// The members in the order of their names, with commas between them.
fn ordered(page: &Page, starts: &[usize]) -> Page {
    let mut ordered = page.plain(page.len());
    let Ok(mut members) = members_at(page, starts) else {
        ordered.leave_gap();
        return ordered;
    };
    members.sort_unstable();
    for member in &members {
        if ordered.len() > 0 {
            ordered.byte(b',');
        }
        ordered.raw(member);
    }
    ordered
}

// The members that begin at these places, the last of them first. Commas stand between them.
fn members_at<'a>(page: &'a Page, starts: &[usize]) -> Result<Vec<&'a [u8]>, AllocError> {
    let bytes = page.bytes();
    let mut members = Vec::new(page.alloc());
    let mut end = bytes.len();
    for start in starts.iter().rev() {
        members.push(bytes.get(*start..end).unwrap_or(&[]))?;
        end = start.saturating_sub(1);
    }
    Ok(members)
}
