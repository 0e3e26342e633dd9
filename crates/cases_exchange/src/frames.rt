//! What is told of headers.

use cases_page::Page;
use mt_frame::{
    FrameFault, MessageHeader, ProtocolHeader, read_message, read_protocol, write_message,
    write_protocol,
};
use std::fmt::Debug;

/// The message header in front, and what it is written as again.
pub(crate) fn tell_message(page: &mut Page, bytes: &[u8]) {
    match read_message(bytes) {
        Ok((header, length)) => {
            tell_header(page, &header, length);
            tell_written_message(page, &header);
        }
        Err(fault) => tell_fault(page, fault),
    }
}

fn tell_written_message(page: &mut Page, header: &MessageHeader) {
    if header.session == 0 {
        return;
    }
    let mut out = [0x55_u8; 32];
    let mut small = [0x55_u8; 7];
    let written = write_message(header, &mut out);
    let refused = write_message(header, &mut small);
    tell_written(page, written, &out);
    tell_written(page, refused, &small);
}

/// The protocol header in front, and what it is written as again.
pub(crate) fn tell_protocol(page: &mut Page, bytes: &[u8]) {
    match read_protocol(bytes) {
        Ok((header, length)) => {
            tell_header(page, &header, length);
            tell_written_protocol(page, &header);
        }
        Err(fault) => tell_fault(page, fault),
    }
}

fn tell_written_protocol(page: &mut Page, header: &ProtocolHeader) {
    let mut out = [0x55_u8; 32];
    let mut small = [0x55_u8; 5];
    let written = write_protocol(header, &mut out);
    let refused = write_protocol(header, &mut small);
    tell_written(page, written, &out);
    tell_written(page, refused, &small);
}

fn tell_header<T: Debug>(page: &mut Page, header: &T, length: usize) {
    page.add("  ");
    page.add_debug(header);
    page.add(" of ");
    page.add_number(length as u64);
    page.end_line();
}

// What was written into a room, and all that stands there afterwards.
fn tell_written(page: &mut Page, written: Result<usize, FrameFault>, room: &[u8]) {
    page.add("  ");
    page.add_debug(&written);
    page.add(" ");
    page.add_hex(room);
    page.end_line();
}

fn tell_fault(page: &mut Page, fault: FrameFault) {
    page.add("  ");
    page.add_debug(&fault);
    page.add(" ");
    page.add_shown(&fault.number());
    page.end_line();
}
