//! Requests in words.

use crate::fault::{Misfit, Wanted};
use crate::names::Leaf;
use crate::numbers::{hex_behind_mark, hex_number, want_long, want_short};
use crate::paths::{want_index, want_path, want_place};
use crate::queries::{want_read, want_subscription};
use crate::shapes::{shape_of_attribute, shape_of_command};
use crate::values::want_value;
use crate::words::Words;
use mt_files::number;
use mt_model::{Path, Request, WriteItem, Writes};
use mt_names::{status_name, status_of};
use mt_tlv::{Members, Value};
use std::alloc::Global;

// The words with which what is sent begins.
const REQUESTS: &[&str] = &[
    "read",
    "subscribe",
    "write",
    "invoke",
    "timed",
    "status",
    "message",
];

/// A request, whose first word is next.
pub(crate) fn want_request(alloc: Global, words: &mut Words<'_>) -> Result<Request, Misfit> {
    if words.take(b"read") {
        want_read(alloc, words)
    } else if words.take(b"subscribe") {
        want_subscription(alloc, words)
    } else if words.take(b"write") {
        want_write(alloc, words)
    } else if words.take(b"invoke") {
        want_command(alloc, words)
    } else if words.take(b"timed") {
        let ms = want_short(words)?;
        words.take(b"ms");
        Ok(Request::Timed { ms })
    } else if words.take(b"status") {
        let code = want_status(words)?;
        Ok(Request::Status { code })
    } else {
        Err(words.misfit(Wanted::Words(REQUESTS)))
    }
}

// How a write or a command is asked for.
#[derive(Clone, Copy)]
struct Manner {
    suppress: bool,
    timed: bool,
}

// `suppress`: no response is wanted; `timed`: a timed request went before. In either order.
fn take_manner(words: &mut Words<'_>) -> Manner {
    let before = words.take(b"timed");
    let suppress = words.take(b"suppress");
    let timed = before || words.take(b"timed");
    Manner { suppress, timed }
}

// A write, behind its word.
fn want_write(alloc: Global, words: &mut Words<'_>) -> Result<Request, Misfit> {
    let manner = take_manner(words);
    let mut items = Vec::new(alloc);
    for _ in 0..words.most() {
        if words.is_done() {
            break;
        }
        items.push(want_item(alloc, words)?)?;
        words.take_mark(b',');
    }
    Ok(Request::Write {
        suppress: manner.suppress,
        timed: manner.timed,
        items: Writes::from_vec(items),
    })
}

// What is written at a path, and at which data version where one is asked for.
fn want_item(alloc: Global, words: &mut Words<'_>) -> Result<WriteItem, Misfit> {
    let mut ahead = *words;
    want_place(&mut ahead, Leaf::Attribute)?;
    let path = want_path(words, Leaf::Attribute)?;
    let index = want_index(words)?;
    words.take_mark(b',');
    let version = if words.take(b"at") {
        words.want(b"version", &["version"])?;
        Some(want_long(words)?)
    } else {
        None
    };
    words.take_mark(b':');
    let value = want_value(alloc, words, shape_of_attribute(&path))?;
    Ok(WriteItem {
        path: Path { index, ..path },
        version,
        value,
    })
}

// A command, behind its word. With no fields it has an empty structure of them.
fn want_command(alloc: Global, words: &mut Words<'_>) -> Result<Request, Misfit> {
    let manner = take_manner(words);
    let command = want_place(words, Leaf::Command)?;
    words.take_mark(b':');
    let fields = if words.is_done() {
        Value::Struct(Members::from_vec(Vec::new(alloc)))
    } else {
        want_value(alloc, words, shape_of_command(&command))?
    };
    Ok(Request::Invoke {
        suppress: manner.suppress,
        timed: manner.timed,
        command,
        fields,
    })
}

// A status by its name, or by its code in decimal digits or in two digits of hex behind `0x`.
fn want_status(words: &mut Words<'_>) -> Result<u8, Misfit> {
    let word = words.peek();
    let found = match hex_behind_mark(word) {
        Some(digits) => hex_number(digits, 2),
        None => number(0, u8::MAX as u64, word),
    };
    let code = match found {
        Some(code) => u8::try_from(code).ok(),
        None => named_status(word),
    };
    match code {
        Some(code) => {
            words.next();
            Ok(code)
        }
        None => Err(words.misfit(Wanted::Kind("a status, as SUCCESS, or its code"))),
    }
}

// The code of the status of this name.
fn named_status(word: &[u8]) -> Option<u8> {
    for code in 0..=u8::MAX {
        if let Some(status) = status_of(code) {
            if status_name(status).as_bytes() == word {
                return Some(code);
            }
        }
    }
    None
}
