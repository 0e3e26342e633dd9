//! Recordings, read whole, and events as their lines.

ghost use Rattle.std.specs.Prelude.{◌≡◌, ◌⊎◌, ◌++◌, ◌+◌, ◌≤◌, IfOk, IfErr, OnOk, OnErr, Ok, Err};
ghost use Rattle.mt_files.specs.Event.{event_line};
ghost use Rattle.mt_files.specs.Lines.{ended, lines_of};
ghost use Rattle.mt_files.specs.Recording.{events_from, line_told, recording_of, time_at};

use crate::event;
use crate::event_text::push_event;
use crate::lines::cut_line;
use mt_model::limits::{LINE_BYTES, RECORDING_BYTES, RECORDING_LINES};
use mt_model::{Event, Events, LineFault, LineKind};
use std::alloc::{AllocError, Global};

/// The events of a recording, in the order of its lines, or its first fault.
pub fn events(alloc: Global, bytes: &[u8]) -> Result<Events, LineFault>
    ensures read { IfOk result (λ events. recording_of bytes.now ≡ Ok events) }
    ensures refused { IfErr result (λ fault. (fault ≡ LineFault.Memory) ⊎ (recording_of bytes.now ≡ Err fault)) }
{
    if bytes.len() > RECORDING_BYTES {
        return Err(LineFault::TooLong);
    }
    let without_head = LineFault::Line {
        line: 1,
        kind: LineKind::Head,
    };
    if bytes.is_empty() {
        return Err(without_head);
    }
    let (first, lines) = cut_line(bytes);
    if first.len() > LINE_BYTES {
        return Err(LineFault::TooLong);
    }
    if first != b"matter-record 1".as_slice() {
        return Err(without_head);
    }
    events_behind_head(alloc, lines)
}

// The events of the lines behind the head.
fn events_behind_head(alloc: Global, lines: &[u8]) -> Result<Events, LineFault>
    ensures read { IfOk result (λ events. events_from 2 0 (lines_of lines.now) ≡ Ok events) }
    ensures refused { IfErr result (λ fault. (fault ≡ LineFault.Memory) ⊎ (events_from 2 0 (lines_of lines.now) ≡ Err fault)) }
{
    let mut events = Vec::new(alloc);
    let mut number = 2;
    let mut before = 0;
    let mut rest = lines;
    while !rest.is_empty() {
        let (line, behind) = cut_line(rest);
        let event = told(alloc, number, before, line)?;
        number += 1;
        before = time_at(before, &event);
        rest = behind;
        events.push(event)?;
    }
    Ok(Events::from_vec(events))
}

// What the line of this number tells, behind lines up to this time.
fn told(alloc: Global, number: u64, before: u64, line: &[u8]) -> Result<Event, LineFault>
    ensures read { IfOk result (λ event. line_told number before line.now ≡ Ok event) }
    ensures refused { IfErr result (λ fault. (fault ≡ LineFault.Memory) ⊎ (line_told number before line.now ≡ Err fault)) }
    ensures counted { OnOk result (number ≤ RECORDING_LINES + 1) }
{
    if line.len() > LINE_BYTES || number > RECORDING_LINES as u64 + 1 {
        return Err(LineFault::TooLong);
    }
    let event = match event::event(alloc, line)? {
        Ok(event) => event,
        Err(kind) => return Err(LineFault::Line { line: number, kind }),
    };
    if time_at(before, &event) < before {
        return Err(LineFault::Line {
            line: number,
            kind: LineKind::Time,
        });
    }
    Ok(event)
}

// The time as of an event, where this is the time before it.
fn time_at(before: u64, event: &Event) -> u64
    ensures { result ≡ time_at before event.now }
{
    match event {
        Event::Ask { ms, .. }
        | Event::Datagram { ms, .. }
        | Event::Tick { ms }
        | Event::Report { ms, .. }
        | Event::Resend { ms, .. } => *ms,
        Event::Stop { .. } => before,
    }
}

/// Appends the line of an event, with its end. It takes every event; those within the ranges of the
/// format are read again as they were. After a refusal `out` is as before.
pub fn write_event(event: &Event, out: &mut Vec<u8>) -> Result<(), AllocError>
    ensures ok { OnOk result (out.new.items ≡ out.old.items ++ ended (event_line event.now)) }
    ensures err { OnErr result (out.new.items ≡ out.old.items) }
{
    let before = out.len();
    match push_event(event, out) {
        Ok(()) => Ok(()),
        Err(error) => {
            out.truncate(before);
            Err(error)
        }
    }
}
