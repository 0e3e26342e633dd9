//! What the words ask for.

ghost use Rattle.std.specs.Prelude.{◌≡◌, IfErr, IfOk};
ghost use Rattle.std.specs.Option.{ok_or, option_and_then, option_map};
ghost use Rattle.mt_words.specs.Words.{asked, asked_by, begin_of, count_of, fabric_of, names_of, session_among, session_of, soak_of, words_of};

use crate::command::{Command, command_of};
use crate::number::{begin_of, count_of, fabric_of, session_of};
use crate::parse::{
    compare_command, parse, replay_command, session_command, settle_command, soak_command,
};
use std::alloc::Global;

/// What a command line asks for.
#[derive(Clone, Copy, Debug, PartialEq, Eq)]
pub enum Asked {
    /// A recording is replayed.
    Replay,
    /// Events that are made from a number are played, and what is sent is summed up.
    Soak {
        /// The number from which they are made.
        begin: u64,
        /// How many there are, 1 to `MOST_COUNT`.
        count: u32,
    },
    /// Two recordings are compared by what a fabric sees.
    Compare {
        /// The fabric, 1 to 254.
        fabric: u8,
    },
    /// What a journal keeps is written, as the next start takes it up.
    Settle,
    /// What a controller sends for a script is written, as a recording.
    Ask {
        /// The node's id of the session, 1 to 65535.
        session: u16,
    },
    /// What a node sent over a session is shown, line by line.
    Show {
        /// The node's id of the session, 1 to 65535.
        session: u16,
    },
}

/// Why words ask for nothing.
#[derive(Clone, Copy, Debug, PartialEq, Eq)]
pub enum WordsFault {
    /// The words have no form.
    Bad,
    /// Memory ran out.
    Memory,
}

/// What the words of a command line ask for, the first being the command. Where memory runs out for the
/// parser, that is no answer on the words. What those of `serve` ask for, `serve_of` says: here they are
/// bad words.
pub fn asked_of(alloc: Global, words: &[String]) -> Result<Asked, WordsFault>
    ensures ok { IfOk result (λ found. asked (words_of words.now) ≡ Some found) }
    ensures bad { IfErr result (λ fault. fault ≡ WordsFault.Bad → asked (words_of words.now) ≡ None) }
{
    let [first, ..] = words else {
        return Err(WordsFault::Bad);
    };
    match command_of(first.as_str()) {
        Some(Command::Replay) => replay_asked(alloc, words),
        Some(Command::Soak) => soak_asked(alloc, words),
        Some(Command::Compare) => compare_asked(alloc, words),
        Some(Command::Settle) => settle_asked(alloc, words),
        Some(Command::Ask) => ask_asked(alloc, words),
        Some(Command::Show) => show_asked(alloc, words),
        Some(Command::Serve) => Err(WordsFault::Bad),
        None => Err(WordsFault::Bad),
    }
}

fn replay_asked(alloc: Global, words: &[String]) -> Result<Asked, WordsFault>
    ensures ok { IfOk result (λ found. option_and_then (asked_by Command.Replay)
        (names_of (words_of words.now)) ≡ Some found) }
    ensures bad { IfErr result (λ fault. fault ≡ WordsFault.Bad
        → option_and_then (asked_by Command.Replay) (names_of (words_of words.now)) ≡ None) }
{
    let Ok(command) = replay_command(alloc) else {
        return Err(WordsFault::Memory);
    };
    match parse(command, words) {
        Ok(_) => {}
        Err(fault) => return Err(fault),
    }
    Ok(Asked::Replay)
}

fn soak_asked(alloc: Global, words: &[String]) -> Result<Asked, WordsFault>
    ensures ok { IfOk result (λ found. option_and_then (asked_by Command.Soak)
        (names_of (words_of words.now)) ≡ Some found) }
    ensures bad { IfErr result (λ fault. fault ≡ WordsFault.Bad
        → option_and_then (asked_by Command.Soak) (names_of (words_of words.now)) ≡ None) }
{
    let Ok(command) = soak_command(alloc) else {
        return Err(WordsFault::Memory);
    };
    let found = match parse(command, words) {
        Ok(found) => found,
        Err(fault) => return Err(fault),
    };
    let Some(begin) = found.get_str("begin") else {
        return Err(WordsFault::Bad);
    };
    let Some(count) = found.get_str("count") else {
        return Err(WordsFault::Bad);
    };
    soak(begin, count)
}

fn soak(begin: &str, count: &str) -> Result<Asked, WordsFault>
    ensures { result ≡ ok_or (soak_of (begin_of begin.now) (count_of count.now)) WordsFault.Bad }
{
    let Some(begin) = begin_of(begin) else {
        return Err(WordsFault::Bad);
    };
    let Some(count) = count_of(count) else {
        return Err(WordsFault::Bad);
    };
    Ok(Asked::Soak { begin, count })
}

fn compare_asked(alloc: Global, words: &[String]) -> Result<Asked, WordsFault>
    ensures ok { IfOk result (λ found. option_and_then (asked_by Command.Compare)
        (names_of (words_of words.now)) ≡ Some found) }
    ensures bad { IfErr result (λ fault. fault ≡ WordsFault.Bad
        → option_and_then (asked_by Command.Compare) (names_of (words_of words.now)) ≡ None) }
{
    let Ok(command) = compare_command(alloc) else {
        return Err(WordsFault::Memory);
    };
    let found = match parse(command, words) {
        Ok(found) => found,
        Err(fault) => return Err(fault),
    };
    let Some(fabric) = found.get_str("fabric") else {
        return Err(WordsFault::Bad);
    };
    compare(fabric)
}

fn compare(fabric: &str) -> Result<Asked, WordsFault>
    ensures { result ≡ ok_or (option_map Asked.Compare (fabric_of fabric.now)) WordsFault.Bad }
{
    match fabric_of(fabric) {
        Some(fabric) => Ok(Asked::Compare { fabric }),
        None => Err(WordsFault::Bad),
    }
}

fn settle_asked(alloc: Global, words: &[String]) -> Result<Asked, WordsFault>
    ensures ok { IfOk result (λ found. option_and_then (asked_by Command.Settle)
        (names_of (words_of words.now)) ≡ Some found) }
    ensures bad { IfErr result (λ fault. fault ≡ WordsFault.Bad
        → option_and_then (asked_by Command.Settle) (names_of (words_of words.now)) ≡ None) }
{
    let Ok(command) = settle_command(alloc) else {
        return Err(WordsFault::Memory);
    };
    match parse(command, words) {
        Ok(_) => {}
        Err(fault) => return Err(fault),
    }
    Ok(Asked::Settle)
}

fn ask_asked(alloc: Global, words: &[String]) -> Result<Asked, WordsFault>
    ensures ok { IfOk result (λ found. option_and_then (asked_by Command.Ask)
        (names_of (words_of words.now)) ≡ Some found) }
    ensures bad { IfErr result (λ fault. fault ≡ WordsFault.Bad
        → option_and_then (asked_by Command.Ask) (names_of (words_of words.now)) ≡ None) }
{
    match session_asked(alloc, "ask", words) {
        Ok(session) => Ok(Asked::Ask { session }),
        Err(fault) => Err(fault),
    }
}

fn show_asked(alloc: Global, words: &[String]) -> Result<Asked, WordsFault>
    ensures ok { IfOk result (λ found. option_and_then (asked_by Command.Show)
        (names_of (words_of words.now)) ≡ Some found) }
    ensures bad { IfErr result (λ fault. fault ≡ WordsFault.Bad
        → option_and_then (asked_by Command.Show) (names_of (words_of words.now)) ≡ None) }
{
    match session_asked(alloc, "show", words) {
        Ok(session) => Ok(Asked::Show { session }),
        Err(fault) => Err(fault),
    }
}

// The session that is named behind the command of this name.
fn session_asked<'a>(alloc: Global, name: &'a str, words: &'a [String]) -> Result<u16, WordsFault>
    ensures ok { IfOk result (λ session. option_and_then session_among
        (names_of (words_of words.entry.now)) ≡ Some session) }
    ensures bad { IfErr result (λ fault. fault ≡ WordsFault.Bad
        → option_and_then session_among (names_of (words_of words.entry.now)) ≡ None) }
{
    let Ok(command) = session_command(alloc, name) else {
        return Err(WordsFault::Memory);
    };
    let found = match parse(command, words) {
        Ok(found) => found,
        Err(fault) => return Err(fault),
    };
    let Some(session) = found.get_str("session") else {
        return Err(WordsFault::Bad);
    };
    match session_of(session) {
        Some(session) => Ok(session),
        None => Err(WordsFault::Bad),
    }
}
