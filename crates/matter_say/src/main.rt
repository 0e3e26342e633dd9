//! Recordings from words, the other way of matter_lens: it reads lines of words, and writes the recording, or the script of a
//! session, that they come to. The words are those of mt_say.
//!
//! - `options`: the words of the command line;
//! - `sessions`: who speaks on a session;
//! - `each`: lines told by themselves; `wrong`: the lines that are wrong;
//! - `faults`: why nothing was written, in words.
#![tactic(auto)]

mod each;
mod faults;
mod options;
mod sessions;
mod wrong;

use faults::{Fault, Which};
use mt_files::cut_line;
use mt_model::limits::RECORDING_BYTES;
use mt_say::{SayFault, Speaker, say, say_on};
use options::{Options, options_of};
use std::alloc::Global;
use std::io::{Read, Write};
use std::process::ExitCode;
use std::{env, fs, io};

// The status where the command line could not be taken for want of memory.
const NO_MEMORY: u8 = 7;

// The status where a line of the words is wrong.
pub(crate) const WRONG: u8 = 4;

fn main(rt: HostRuntime) -> ExitCode {
    match command_line(&rt) {
        Ok(words) => ExitCode::from(run(&rt, words.as_slice())),
        Err(_) => ExitCode::from(NO_MEMORY),
    }
}

// Does what the words of the command line say, and answers the exit status.
fn run(rt: &HostRuntime, words: &[String]) -> u8 {
    let options = match options_of(rt.alloc(), words) {
        Ok(options) => options,
        Err(error) => return unasked(rt, &error),
    };
    match written(rt, &options) {
        Ok(status) => status,
        Err(fault) => {
            // Where even this can't be written, the status alone tells.
            let _ = fault.tell(rt, &options);
            fault.status()
        }
    }
}

// Where nothing is to be written: the words have no form, or ask for help or the version.
fn unasked(rt: &HostRuntime, error: &clap::Error) -> u8 {
    match (error.print(rt), error.use_stderr()) {
        (Err(_), _) => 6,
        (Ok(()), true) => 2,
        (Ok(()), false) => 0,
    }
}

// The words of the command line, the program's name among them.
fn command_line(rt: &HostRuntime) -> io::Result<Vec<String>> {
    let mut words = Vec::new(rt.alloc());
    for word in env::args(rt)? {
        words.push(word)?;
    }
    Ok(words)
}

// Reads the words, and writes what they say. Nothing is written of words with a fault.
fn written(rt: &HostRuntime, options: &Options<'_>) -> Result<u8, Fault> {
    let words = read_words(rt, options.file)?;
    if options.lines {
        let (text, status) = each::told(rt.alloc(), words.as_slice())?;
        write(rt, text.as_slice())?;
        return Ok(status);
    }
    let speaker = match (options.session, options.config) {
        (Some(session), Some(config)) => Some(sessions::speaker(rt, session, config)?),
        _ => None,
    };
    match said(rt.alloc(), speaker, words.as_slice()) {
        Ok(text) => {
            write(rt, text.as_slice())?;
            Ok(0)
        }
        Err(SayFault::Wrong { .. }) => {
            // Where even this can't be written, the status alone tells.
            let _ = tell_wrong(rt, speaker, words.as_slice());
            Ok(WRONG)
        }
        Err(SayFault::TooLong) => Err(Fault::TooLong(long_line(
            rt.alloc(),
            speaker,
            words.as_slice(),
        ))),
        Err(fault) => Err(fault.into()),
    }
}

// The first line that is too long by itself, or comes to something too long, counted from 1; None where none is.
fn long_line(alloc: Global, session: Option<Speaker>, words: &[u8]) -> Option<u64> {
    if words.len() > RECORDING_BYTES {
        return None;
    }
    let mut number = 1u64;
    let mut rest = words;
    for _ in 0..words.len() {
        if rest.is_empty() {
            break;
        }
        let (line, behind) = cut_line(rest);
        if let Err(SayFault::TooLong) = said(alloc, session, line) {
            return Some(number);
        }
        number = number.saturating_add(1);
        rest = behind;
    }
    None
}

// The script of the session of this speaker, or the recording, that words come to.
fn said(alloc: Global, session: Option<Speaker>, words: &[u8]) -> Result<Vec<u8>, SayFault> {
    match session {
        Some(speaker) => say_on(alloc, speaker, words),
        None => say(alloc, words),
    }
}

// Writes on standard error what is wrong with lines.
fn tell_wrong(rt: &HostRuntime, session: Option<Speaker>, words: &[u8]) -> Result<(), Fault> {
    let text = wrong::told(rt.alloc(), session, words)?;
    match eprint!(rt; "{text}") {
        Ok(()) => Ok(()),
        Err(_) => Err(Fault::Unwritten),
    }
}

fn read_words(rt: &HostRuntime, file: Option<&str>) -> Result<Vec<u8>, Fault> {
    let read = match file {
        Some(name) => fs::read(rt, name),
        None => read_input(rt),
    };
    match read {
        Ok(words) => Ok(words),
        Err(error) if error.kind() == io::ErrorKind::OutOfMemory => Err(Fault::Memory),
        Err(_) => Err(Fault::Unread(Which::Words)),
    }
}

// Standard input, as far as words may be long.
fn read_input(rt: &HostRuntime) -> io::Result<Vec<u8>> {
    let mut words = Vec::new(rt.alloc());
    rt.stdin()
        .take(RECORDING_BYTES as u64 + 1)
        .read_to_end(&mut words)?;
    Ok(words)
}

fn write(rt: &HostRuntime, text: &[u8]) -> Result<(), Fault> {
    match io::writer(rt).write_all(text) {
        Ok(()) => Ok(()),
        Err(_) => Err(Fault::Unwritten),
    }
}
