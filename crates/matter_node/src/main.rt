//! The program: opens the files that the words name, and hands them to the top call. What the last line on standard output
//! leaves unsaid for a person is told on standard error.
//!
//! - `hints`: what is told there;
//! - `serving`: the node on the network;
//! - `watching`: how much it serves, on a terminal.
#![tactic(auto)]

mod hints;
mod serving;
mod watching;

use hints::{Known, tell_hint, text_of};
use mt_os::{FileDisk, ReaderSource, TerminalProgress, WriterSink};
use mt_top::{files_of, run_watched};
use std::fs::File;
use std::process::ExitCode;
use std::rt::Env;
use std::{env, io};

// The status where there is no memory for the words.
const NO_MEMORY: u8 = 7;

fn main(rt: HostRuntime) -> ExitCode {
    let words = match words(&rt) {
        Ok(words) => words,
        Err(error) if error.kind() == io::ErrorKind::OutOfMemory => {
            return ExitCode::from(NO_MEMORY);
        }
        // A word that is not UTF-8 is in no command, and neither is no word at all.
        Err(_) => Vec::new(rt.alloc()),
    };
    if serving::is_asked(&words) {
        return ExitCode::from(serving::serve_on(&rt, &rt, &words));
    }
    ExitCode::from(run_on(&rt, &words))
}

// Runs what the words ask for, on the files that they name. The answer is the status.
fn run_on(rt: &HostRuntime, words: &[String]) -> u8 {
    let (config, first, second, journal) = match files_of(words) {
        Ok(files) => (Some(files.config), files.first, files.second, files.journal),
        Err(_) => (None, None, None, None),
    };
    let files = [
        named(rt, words, config),
        named(rt, words, first),
        named(rt, words, second),
    ];
    let texts = [
        text_of(config, &files[0]),
        text_of(first, &files[1]),
        text_of(second, &files[2]),
    ];
    let recordings = (first, second);
    let [config, first, second] = files;
    let mut config = ReaderSource::new(config);
    let mut first = ReaderSource::new(first);
    let mut second = ReaderSource::new(second);
    let mut disk = disk_named(rt, words, journal);
    let in_use = place_in_use(&disk, journal);
    let mut out = WriterSink::new(io::writer(rt));
    let mut terminal = TerminalProgress::new(rt);
    let status = run_watched(
        rt.alloc(),
        words,
        &mut config,
        &mut first,
        &mut second,
        &mut disk,
        &mut out,
        &mut terminal,
    );
    let known = Known {
        texts: &texts,
        last_read: if second.was_read() {
            recordings.1
        } else {
            recordings.0
        },
        in_use,
    };
    // Where even this can't be written, the status alone tells.
    let _ = tell_hint(rt, status, words, &known);
    status
}

/// The file that the word at this place names; None where there is none, or it can't be opened.
pub(crate) fn named(rt: &HostRuntime, words: &[String], place: Option<usize>) -> Option<File> {
    let name = words.get(place?)?;
    File::open(rt, name.as_str()).ok()
}

/// The disk over the file that the word at this place names, which is made where it is missing. Where no word names one, every call
/// of the disk fails.
pub(crate) fn disk_named(rt: &HostRuntime, words: &[String], place: Option<usize>) -> FileDisk {
    let word = match place {
        Some(place) => words.get(place),
        None => None,
    };
    match word {
        Some(name) => FileDisk::open(rt, name.as_str()),
        None => FileDisk::new(None),
    }
}

/// The place of the word that names the disk's file, where another process has that in use.
pub(crate) fn place_in_use(disk: &FileDisk, place: Option<usize>) -> Option<usize> {
    if disk.is_in_use() { place } else { None }
}

// The words of the command line behind the program's name.
fn words(rt: &(impl Env + AllocGlobal)) -> io::Result<Vec<String>> {
    let mut words = Vec::new(rt.alloc());
    for word in env::args(rt)?.skip(1) {
        words.push(word)?;
    }
    Ok(words)
}
