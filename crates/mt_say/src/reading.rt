//! What the lines of a text say.

ghost use Rattle.std.specs.Prelude.{◌≡◌, ◌≤◌, All, IfErr, IfOk, IfSome, OnOk, length};
ghost use Rattle.mt_files.specs.Lines.{lines_of};
ghost use Rattle.mt_say.specs.Places.{IsAt, IsPlaced, StandsIn};

use crate::fault::SayFault;
use crate::lines::said;
use crate::saying::{Said, Saying, Sayings, Speaker};
use crate::words::Words;
use mt_files::cut_line;
use mt_model::Event;
use mt_model::limits::RECORDING_BYTES;
use std::alloc::Global;

// The most bytes of a line of words. A payload has two digits for each byte in a recording, and names are longer.
const WORD_LINE_BYTES: usize = 65_536;

// The most lines of words, those that say nothing among them.
const WORD_LINES: u64 = 2_097_152;

/// What the lines of a text say, or the first place that does not fit. With the speaker of a session, its requests need not
/// name who asks, and nothing else may be said.
pub fn sayings(alloc: Global, session: Option<Speaker>, text: &[u8]) -> Result<Sayings, SayFault>
    // Each stands in a line of the text.
    ensures lines { IfOk result (λ sayings. All (λ saying. StandsIn saying.line (length (lines_of text.now))) sayings) }
    // A fault names a line of the text.
    ensures placed { IfErr result (λ fault. IsPlaced fault (length (lines_of text.now))) }
{
    if text.len() > RECORDING_BYTES {
        return Err(SayFault::TooLong);
    }
    let mut all = Vec::new(alloc);
    let mut number = 1u64;
    let mut before = 0;
    let mut rest = text;
    while !rest.is_empty() {
        let (line, behind) = cut_line(rest);
        if let Some(saying) = saying(alloc, session, number, before, line)? {
            before = time_of(&saying.what, before);
            all.push(saying)?;
        }
        number += 1;
        rest = behind;
    }
    Ok(Sayings::from_vec(all))
}

// What the line of this number says, at this time or later.
fn saying(
    alloc: Global,
    session: Option<Speaker>,
    number: u64,
    before: u64,
    line: &[u8],
) -> Result<Option<Saying>, SayFault>
    ensures line { IfOk result (λ told. IfSome told (λ saying. saying.line ≡ number)) }
    ensures placed { IfErr result (λ fault. IsAt number fault) }
    ensures counted { OnOk result (number ≤ 2097152) }
{
    if line.len() > WORD_LINE_BYTES || number > WORD_LINES {
        return Err(SayFault::TooLong);
    }
    let mut words = Words::new(line);
    match said(alloc, &mut words, session, before) {
        Ok(Some((column, what))) => Ok(Some(Saying {
            line: number,
            column,
            what,
        })),
        Ok(None) => Ok(None),
        Err(misfit) => Err(misfit.of_line(number)),
    }
}

// The time as of what is said, where this is the time before it.
fn time_of(what: &Said, before: u64) -> u64 {
    match what {
        Said::Asks { ms, .. } => *ms,
        Said::Tells(event) => match event {
            Event::Ask { ms, .. }
            | Event::Datagram { ms, .. }
            | Event::Tick { ms }
            | Event::Report { ms, .. }
            | Event::Resend { ms, .. } => *ms,
            Event::Stop { .. } => before,
        },
    }
}
