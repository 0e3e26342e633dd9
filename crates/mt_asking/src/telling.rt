//! What is told on a session, from file to file: the session is found, a text is read, and what it comes to is written.

ghost use Rattle.std.specs.Prelude.{◌≡◌, Some, IfErr, IfOk};
ghost use Rattle.mt_model.specs.texts.Contents.{contents_of};
ghost use Rattle.mt_endings.specs.Endings.{in_hand_of};
ghost use Rattle.mt_endings.specs.Moments.{Input, in_hand, input, moment};
ghost use Rattle.mt_endings.specs.Run.{Ends};
ghost use Rattle.mt_asking.specs.Asked.{asking, on_session, showing};
ghost use Rattle.mt_asking.specs.Made.{IsMade, StopsMaking, told};
ghost use Rattle.mt_asking.specs.Rows.{IsUnicast, row_of};

use crate::asking::asked;
use crate::finding::row_of;
use crate::showing::shown;
use mt_endings::{Fault, endings_add_up, finish, read_text};
use mt_model::{Config, SessionRow};
use mt_outside::{Sink, Source, write_all, writings_add_up};
use std::alloc::Global;

/// Writes to `out` the recording of what a controller sends for the script that `first` gives, on the session of boot 1 that has
/// this id. The answer is the exit status: 0, 4, 5, 6, 7, 10, 15 or 16.
pub fn ask_with<A: Source, W: Sink>(
    alloc: Global,
    session: u16,
    config: &Config,
    first: &mut A,
    out: &mut W,
) -> u8
    ensures ends { (second : Input) → Ends result (Some (in_hand_of (asking session (contents_of config.now))))
        (moment in_hand (input (A.left first.old) (A.faults first.old)) second (W.written out.old) (W.faults out.old))
        (moment in_hand (input (A.left first.new) (A.faults first.new)) second (W.written out.new) (W.faults out.new)) }
{
    tell(alloc, Word::Ask, session, config, first, out)
}

/// Writes to `out` a line for each datagram of the output that `first` gives, opened on the other side of the session of boot 1
/// that has this id. The answer is the exit status: 0, 4, 5, 6, 7, 10 or 15.
pub fn show_with<A: Source, W: Sink>(
    alloc: Global,
    session: u16,
    config: &Config,
    first: &mut A,
    out: &mut W,
) -> u8
    ensures ends { (second : Input) → Ends result (Some (in_hand_of (showing session (contents_of config.now))))
        (moment in_hand (input (A.left first.old) (A.faults first.old)) second (W.written out.old) (W.faults out.old))
        (moment in_hand (input (A.left first.new) (A.faults first.new)) second (W.written out.new) (W.faults out.new)) }
{
    tell(alloc, Word::Show, session, config, first, out)
}

// What is made of a text.
#[derive(Clone, Copy)]
enum Word {
    // The recording of a script.
    Ask,
    // The lines of what an output shows.
    Show,
}

// Writes what a text comes to on the session that has this id. No text is read where none has it.
fn tell<A: Source, W: Sink>(
    alloc: Global,
    word: Word,
    session: u16,
    config: &Config,
    first: &mut A,
    out: &mut W,
) -> u8
    ensures { (second : Input) → Ends result (Some (in_hand_of (on_session (told word) (row_of session (contents_of config.now)))))
        (moment in_hand (input (A.left first.old) (A.faults first.old)) second (W.written out.old) (W.faults out.old))
        (moment in_hand (input (A.left first.new) (A.faults first.new)) second (W.written out.new) (W.faults out.new)) }
{
    endings_add_up();
    writings_add_up();
    let Some(row) = row_of(session, config) else {
        return finish(alloc, Fault::NoSession, out);
    };
    let text = match read_text(alloc, first) {
        Ok(text) => text,
        Err(fault) => return finish(alloc, fault, out),
    };
    let lines = match made(alloc, word, row, &text) {
        Ok(lines) => lines,
        Err(fault) => return finish(alloc, fault, out),
    };
    match write_all(out, &lines) {
        Ok(()) => 0,
        Err(_) => finish(alloc, Fault::WriteFault, out),
    }
}

// What is made of a text on the session of a row.
fn made(alloc: Global, word: Word, row: &SessionRow, text: &[u8]) -> Result<Vec<u8>, Fault>
    requires { IsUnicast row.now }
    ensures made { IfOk result (λ lines. IsMade lines.items (told word row.now text.now)) }
    ensures stops { IfErr result (λ fault. StopsMaking fault (told word row.now text.now)) }
{
    match word {
        Word::Ask => asked(alloc, row, text),
        Word::Show => shown(alloc, row, text),
    }
}
