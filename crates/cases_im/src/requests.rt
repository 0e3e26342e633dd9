//! Requests: what bytes are decoded as, and the bytes that are written of that again.

use crate::reading::code;
use crate::telling::tell_request;
use cases_page::{Page, pieces, word};
use mt_im::decode;
use mt_im_out::encode_request;
use mt_model::Request;
use std::alloc::Global;
use std::io;

/// What a payload is decoded as, or its first fault.
pub(crate) fn tell_decoded(alloc: Global, page: &mut Page, words: &[&str]) -> io::Result<()> {
    let payload = pieces(alloc, word(words, 2))?;
    match decode(alloc, code(word(words, 1)), &payload) {
        Ok(request) => tell_request(alloc, page, &request),
        Err(fault) => {
            page.add_debug(&fault);
            page.end_line();
        }
    }
    Ok(())
}

/// The bytes of the request that a payload is decoded as.
pub(crate) fn tell_encoded(alloc: Global, page: &mut Page, words: &[&str]) -> io::Result<()> {
    let payload = pieces(alloc, word(words, 2))?;
    match decode(alloc, code(word(words, 1)), &payload) {
        Ok(request) => tell_bytes(alloc, page, &request),
        Err(fault) => page.add_debug(&fault),
    }
    page.end_line();
    Ok(())
}

fn tell_bytes(alloc: Global, page: &mut Page, request: &Request) {
    match encode_request(alloc, request) {
        Ok(bytes) => page.add_hex(bytes.as_slice()),
        Err(_) => page.leave_gap(),
    }
}
