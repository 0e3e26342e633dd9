//! Bytes, and what is told of them. A line of `elements.txt`, in which bytes are hex, `*` and a number behind a piece say how often
//! it stands there, and `,` stands between pieces:
//!
//! - `element bytes`: the element in front: its tag, its narrow encoding and its length, then its parts;
//! - `faults bytes`: why there is none, as reading the whole and going over the parts tells it;
//! - `same bytes bytes`: whether two elements have equal values;
//! - `codes opcode bytes`: the status codes of a message, and how often each stands in it;
//! - `message bytes`, `protocol bytes`: the header in front, and what it is written as again, in room enough and in too little;
//! - `block key bytes`: a block under a key;
//! - `sealed key nonce bytes bytes`: what a plaintext is sealed to with associated data, what that is opened to, and how many of
//!   the changed ones are refused;
//! - any other line is a title.

use crate::{ciphers, elements, frames};
use cases_page::{Page, pieces, word};
use mt_soak::count_codes;
use std::alloc::Global;
use std::io;

/// Tells what the words of a line ask. A line that begins otherwise is a title.
pub(crate) fn tell(alloc: Global, page: &mut Page, words: &[&str]) -> io::Result<()> {
    match word(words, 0) {
        "element" | "faults" | "message" | "protocol" => {
            let bytes = pieces(alloc, word(words, 1))?;
            tell_bytes(alloc, page, word(words, 0), &bytes);
        }
        "codes" => {
            let payload = pieces(alloc, word(words, 2))?;
            tell_codes(page, word(words, 1), &payload);
        }
        "same" | "block" => {
            let one = pieces(alloc, word(words, 1))?;
            let other = pieces(alloc, word(words, 2))?;
            tell_two(alloc, page, word(words, 0), &one, &other);
        }
        "sealed" => tell_sealed(alloc, page, words)?,
        _ => {}
    }
    Ok(())
}

fn tell_bytes(alloc: Global, page: &mut Page, kind: &str, bytes: &[u8]) {
    match kind {
        "element" => elements::tell(alloc, page, bytes),
        "faults" => elements::tell_faults(alloc, page, bytes),
        "message" => frames::tell_message(page, bytes),
        _ => frames::tell_protocol(page, bytes),
    }
}

fn tell_two(alloc: Global, page: &mut Page, kind: &str, one: &[u8], other: &[u8]) {
    match kind {
        "same" => elements::tell_same(alloc, page, one, other),
        _ => ciphers::tell_block(page, one, other),
    }
}

fn tell_sealed(alloc: Global, page: &mut Page, words: &[&str]) -> io::Result<()> {
    let key = pieces(alloc, word(words, 1))?;
    let nonce = pieces(alloc, word(words, 2))?;
    let aad = pieces(alloc, word(words, 3))?;
    let plain = pieces(alloc, word(words, 4))?;
    Ok(ciphers::tell_sealed(alloc, page, &key, &nonce, &aad, &plain)?)
}

fn tell_codes(page: &mut Page, opcode: &str, payload: &[u8]) {
    let opcode = opcode.parse::<u8>().unwrap_or(0);
    let mut counts = [0_u64; 256];
    count_codes(opcode, payload, &mut counts);
    for (code, count) in counts.iter().enumerate() {
        if *count > 0 {
            page.add("  ");
            page.add_hex(&[u8::try_from(code).unwrap_or(0)]);
            page.add(" ");
            page.add_number(*count);
            page.end_line();
        }
    }
}
