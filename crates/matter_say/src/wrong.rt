//! The lines that are wrong, of words that come to nothing.

use crate::faults::{Fault, words_of};
use mt_files::cut_line;
use mt_say::{SayFault, Speaker, recording, sayings};
use std::alloc::{AllocError, Global};

// Of how many lines it is told what is wrong with them.
const TOLD: u64 = 20;

/// What is wrong with each line that is, a line of text each: of the first 20, and then how many more there are.
pub(crate) fn told(alloc: Global, session: Option<Speaker>, words: &[u8]) -> Result<String, Fault> {
    let mut text = String::new(alloc);
    let mut count = 0u64;
    let mut number = 1u64;
    // The last line that says a time, below which those behind it may not fall.
    let mut timed: &[u8] = &[];
    let mut rest = words;
    for _ in 0..words.len() {
        if rest.is_empty() {
            break;
        }
        let (line, behind) = cut_line(rest);
        match fault_behind(alloc, session, timed, line, number)? {
            Some(fault) => {
                count = count.saturating_add(1);
                if count <= TOLD {
                    push_line(&mut text, words_of(alloc, fault)?.as_str())?;
                }
            }
            None if has_time(line) => timed = line,
            None => {}
        }
        number = number.saturating_add(1);
        rest = behind;
    }
    push_rest(alloc, &mut text, count.saturating_sub(TOLD))?;
    Ok(text)
}

// What is wrong with the line of this number, behind a line that is not wrong. Of one that is too long nothing is told.
fn fault_behind(
    alloc: Global,
    session: Option<Speaker>,
    timed: &[u8],
    line: &[u8],
    number: u64,
) -> Result<Option<SayFault>, Fault> {
    let mut both = Vec::new(alloc);
    both.extend_from_slice(timed)?;
    both.push(b'\n')?;
    both.extend_from_slice(line)?;
    match said(alloc, session, both.as_slice()) {
        Err(
            SayFault::Wrong {
                line: _,
                column,
                wanted,
            },
        ) => Ok(Some(SayFault::Wrong {
            line: number,
            column,
            wanted,
        })),
        Err(SayFault::Memory) => Err(Fault::Memory),
        Ok(()) | Err(SayFault::TooLong) => Ok(None),
    }
}

// Whether lines say something that comes to a recording.
fn said(alloc: Global, session: Option<Speaker>, lines: &[u8]) -> Result<(), SayFault> {
    let said = sayings(alloc, session, lines)?;
    recording(alloc, said.as_slice())?;
    Ok(())
}

// Whether a line that is not wrong says a time: a stop and a line that says nothing do not.
fn has_time(line: &[u8]) -> bool {
    line.trim_ascii_start().starts_with(b"at")
}

fn push_rest(alloc: Global, text: &mut String, count: u64) -> Result<(), AllocError> {
    match count {
        0 => Ok(()),
        1 => push_line(text, "1 more line is wrong."),
        _ => push_line(
            text,
            format!(in alloc; "{count} more lines are wrong.")?.as_str(),
        ),
    }
}

fn push_line(text: &mut String, line: &str) -> Result<(), AllocError> {
    text.push_str(line)?;
    text.push_str("\n")
}
