//! Lines told by themselves: what each comes to in a recording, or what is wrong with it.

use crate::WRONG;
use crate::faults::{Fault, too_long, words_of};
use mt_files::cut_line;
use mt_say::{SayFault, say};
use std::alloc::{AllocError, Global};

// What a recording begins with.
const HEAD: &[u8] = b"matter-record 1\n";

/// For each line what it comes to by itself, or what is wrong with it, and the exit status. Of a line that says nothing there is an
/// empty line.
pub(crate) fn told(alloc: Global, words: &[u8]) -> Result<(Vec<u8>, u8), Fault> {
    let mut text = Vec::new(alloc);
    let mut status = 0;
    let mut number = 1u64;
    let mut rest = words;
    for _ in 0..words.len() {
        if rest.is_empty() {
            break;
        }
        let (line, behind) = cut_line(rest);
        match say(alloc, line) {
            Ok(recording) => push_events(&mut text, recording.as_slice())?,
            Err(SayFault::Memory) => return Err(Fault::Memory),
            Err(fault) => {
                text.extend_from_slice(on_line(alloc, fault, number)?.as_bytes())?;
                text.push(b'\n')?;
                status = WRONG;
            }
        }
        number = number.saturating_add(1);
        rest = behind;
    }
    Ok((text, status))
}

// What a recording has behind its head, or an empty line.
fn push_events(text: &mut Vec<u8>, recording: &[u8]) -> Result<(), AllocError> {
    match recording.strip_prefix(HEAD) {
        Some(events) if !events.is_empty() => text.extend_from_slice(events),
        _ => text.extend_from_slice(b"\n"),
    }
}

// The fault of the line of this number, which was read by itself, in words.
fn on_line(alloc: Global, fault: SayFault, number: u64) -> Result<String, AllocError> {
    match fault {
        SayFault::Wrong {
            line: _,
            column,
            wanted,
        } => {
            let fault = SayFault::Wrong {
                line: number,
                column,
                wanted,
            };
            words_of(alloc, fault)
        }
        SayFault::TooLong => too_long(alloc, Some(number)),
        SayFault::Memory => words_of(alloc, fault),
    }
}
