//! The recording of a script.

ghost use Rattle.std.specs.Prelude.{◌≡◌, IfErr, IfOk};
ghost use Rattle.mt_files.specs.Recording.{recording_text};
ghost use Rattle.mt_asking.specs.Asked.{asked_on};
ghost use Rattle.mt_asking.specs.Made.{IsMade, StopsMaking};
ghost use Rattle.mt_asking.specs.Rows.{IsUnicast};

use mt_ctl::{AskFault, ask, script};
use mt_endings::Fault;
use mt_files::write_event;
use mt_model::{Event, SessionRow};
use std::alloc::{AllocError, Global};

/// The text of what a controller sends for a script, on the session of a row.
pub(crate) fn asked(alloc: Global, row: &SessionRow, text: &[u8]) -> Result<Vec<u8>, Fault>
    requires { IsUnicast row.now }
    ensures made { IfOk result (λ recording. IsMade recording.items (asked_on row.now text.now)) }
    ensures stops { IfErr result (λ fault. StopsMaking fault (asked_on row.now text.now)) }
{
    let steps = match script(alloc, text) {
        Ok(steps) => steps,
        Err(fault) => return Err(Fault::of_recording(fault)),
    };
    let events = match ask(alloc, row, &steps) {
        Ok(events) => events,
        Err(AskFault::Exhausted { line }) => return Err(Fault::Exhausted { line }),
        Err(AskFault::Memory) => return Err(Fault::Memory),
    };
    match recording_text(alloc, events.as_slice()) {
        Ok(recording) => Ok(recording),
        Err(_) => Err(Fault::Memory),
    }
}

// The head, and a line for each event.
fn recording_text(alloc: Global, events: &[Event]) -> Result<Vec<u8>, AllocError>
    ensures { IfOk result (λ text. text.items ≡ recording_text events.now) }
{
    let mut text = Vec::new(alloc);
    text.extend_from_slice(b"matter-record 1\n")?;
    for event in events {
        write_event(event, &mut text)?;
    }
    Ok(text)
}
