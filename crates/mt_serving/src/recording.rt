//! The record of a book.

ghost use Rattle.std.specs.Prelude.{◌≡◌, ◌∷◌, [], IfOk};
ghost use Rattle.mt_files.specs.Event.{at_time};
ghost use Rattle.mt_starting.specs.mt_shared.Book.{lines_in};
ghost use Rattle.mt_serving.specs.Record.{Writes, event_lines, record_of};

use mt_files::write_event;
use mt_model::{Event, ExactCopy};
use mt_outside::{Sink, write_all, writings_add_up};
use mt_starting::Entry;
use std::alloc::{AllocError, Global};

/// Why a record is not written whole.
#[derive(Clone, Copy, Debug, PartialEq, Eq)]
pub(crate) enum RecordFault {
    /// Memory is wanting.
    Memory,
    /// The sink failed.
    Write,
}

/// Writes a book as a recording: a line for each entry that is no stop, at the time at which it was done.
pub(crate) fn write_record<W: Sink>(
    alloc: Global,
    book: &[Entry],
    out: &mut W,
) -> Result<(), RecordFault>
    ensures { Writes result (record_of book.now) (W.written out.old) (W.written out.new) (W.faults out.old) (W.faults out.new) }
{
    writings_add_up();
    let Ok(()) = write_all(out, b"matter-record 1\n") else {
        return Err(RecordFault::Write);
    };
    write_lines(alloc, book, out)
}

// The lines behind the head.
fn write_lines<W: Sink>(alloc: Global, book: &[Entry], out: &mut W) -> Result<(), RecordFault>
    ensures { Writes result (event_lines (lines_in book.now)) (W.written out.old) (W.written out.new) (W.faults out.old) (W.faults out.new) }
{
    writings_add_up();
    for entry in book {
        let Ok(line) = line_of(alloc, entry) else {
            return Err(RecordFault::Memory);
        };
        let Ok(()) = write_all(out, &line) else {
            return Err(RecordFault::Write);
        };
    }
    Ok(())
}

// The line of an entry; nothing where it is a stop.
fn line_of(alloc: Global, entry: &Entry) -> Result<Vec<u8>, AllocError>
    ensures { IfOk result (λ line. line.items ≡ event_lines (lines_in (entry.now ∷ []))) }
{
    let mut line = Vec::new(alloc);
    if entry.stop.is_some() {
        return Ok(line);
    }
    let event = done_event(entry)?;
    write_event(&event, &mut line)?;
    Ok(line)
}

// What an entry tells, at the time at which it was done.
fn done_event(entry: &Entry) -> Result<Event, AllocError>
    ensures { IfOk result (λ event. event ≡ at_time entry.now.ms entry.now.call.event) }
{
    let mut event = entry.call.event.copy()?;
    set_time(&mut event, entry.ms);
    Ok(event)
}

// Puts a time in the place of an event's own; a stop has none.
fn set_time(event: &mut Event, now: u64)
    ensures { event.new ≡ at_time now event.old }
{
    match event {
        Event::Ask { ms, .. } => *ms = now,
        Event::Datagram { ms, .. } => *ms = now,
        Event::Tick { ms } => *ms = now,
        Event::Report { ms, .. } => *ms = now,
        Event::Resend { ms, .. } => *ms = now,
        Event::Stop { .. } => {}
    }
}
