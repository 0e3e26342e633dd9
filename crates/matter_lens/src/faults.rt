//! Why a run ended before its end, in words, with the statuses that `replay` has for it.

use crate::options::Options;
use mt_check::{check, explain};
use mt_files::ConfigField;
use mt_lens::{Page, show_faulty_line};
use mt_model::LineFault;
use mt_model::limits::{LINE_BYTES, RECORDING_BYTES};
use std::alloc::{AllocError, AllocFailed, Global};
use std::{io, str};

/// Which of the files it is.
#[derive(Clone, Copy)]
pub(crate) enum Which {
    Configuration,
    Recording,
    Journal,
}

/// Why a run ended before its end.
#[derive(Drop)]
pub(crate) enum Fault {
    Unread(Which),
    /// The first field that is wrong, the line at which it begins, and what a check says.
    Configuration {
        field: ConfigField,
        line: Option<u64>,
        explanation: String,
    },
    /// The first line that is wrong, with the line, in words.
    Line(Page),
    /// The first line of a recording that is too long, None where the recording is.
    TooLong(Option<u64>),
    Unwritten,
    Memory,
    /// A call of the disk failed.
    Disk,
    /// The journal is none from this place of its file on.
    NotAJournal(u64),
}

impl From<AllocError> for Fault {
    fn from(_error: AllocError) -> Fault {
        Fault::Memory
    }
}

impl<T: Drop> From<AllocFailed<T>> for Fault {
    fn from(_error: AllocFailed<T>) -> Fault {
        Fault::Memory
    }
}

impl Fault {
    /// The exit status.
    pub(crate) fn status(&self) -> u8 {
        match self {
            Fault::Configuration { .. } => 3,
            Fault::Line(_) => 4,
            Fault::Unread(_) => 5,
            Fault::Unwritten => 6,
            Fault::Memory => 7,
            Fault::Disk => 8,
            Fault::NotAJournal(_) => 9,
            Fault::TooLong(_) => 10,
        }
    }

    /// Writes on standard error what was wrong.
    pub(crate) fn tell(&self, rt: &HostRuntime, options: &Options<'_>) -> io::Result<()> {
        let config = options.config;
        let recording = options.recording;
        let journal = options.journal.unwrap_or("");
        match self {
            Fault::Unread(Which::Configuration) => {
                eprintln!(rt; "The configuration {config} can't be read.")
            }
            Fault::Unread(Which::Recording) => {
                eprintln!(rt; "The recording {recording} can't be read.")
            }
            Fault::Unread(Which::Journal) => eprintln!(rt; "The journal {journal} can't be read."),
            Fault::Configuration {
                field,
                line,
                explanation,
            } => {
                tell_configuration(rt, *field, *line)?;
                eprint!(rt; "{explanation}")
            }
            Fault::Line(words) => tell_line(rt, words),
            Fault::TooLong(Some(line)) => {
                eprintln!(rt; "Line {line} of the recording has more than 4,096 bytes.")
            }
            Fault::TooLong(None) => {
                eprintln!(rt;
                    "The recording has more than 67,108,864 bytes, or more than 1,048,576 lines behind its head."
                )
            }
            Fault::Unwritten => eprintln!(rt; "What is shown can't be written."),
            Fault::Memory => eprintln!(rt; "There is not enough memory."),
            Fault::Disk => eprintln!(rt; "The disk failed as the journal {journal} was read."),
            Fault::NotAJournal(place) => {
                eprintln!(rt; "{journal} is no journal from byte {place} on.")
            }
        }
    }
}

// What is wrong with a configuration.
fn tell_configuration(rt: &HostRuntime, field: ConfigField, line: Option<u64>) -> io::Result<()> {
    let wrong = match field {
        ConfigField::Size => "it has more than 1,048,576 bytes",
        ConfigField::Json =>
            "it is no object of JSON in UTF-8, or has more than 127 objects and arrays inside each other",
        ConfigField::Fabrics => {
            "`fabrics` is not as it must be: its rows' fields, their forms, or the rules on fabrics and their entries"
        }
        ConfigField::Sessions => {
            "`sessions` is not as it must be: its rows' fields, their forms, or the rules on sessions"
        }
        ConfigField::Roots => "`roots` is not as it must be",
        ConfigField::Csrs => "`csrs` is not as it must be",
        ConfigField::Joins => "`joins` is not as it must be",
        ConfigField::Reachable => "`reachable` is not as it must be",
    };
    match line {
        Some(line) => eprintln!(rt; "Line {line} of the configuration: {wrong}."),
        None => eprintln!(rt; "The configuration is faulty: {wrong}."),
    }
}

// What is wrong with a line of a recording, and the line.
fn tell_line(rt: &HostRuntime, words: &Page) -> io::Result<()> {
    let text = String::from_utf8_lossy(rt.alloc(), words.whole()?)?;
    eprint!(rt; "{text}")
}

/// What a text comes to that is no configuration.
pub(crate) fn of_configuration(alloc: Global, field: ConfigField, bytes: &[u8]) -> Fault {
    match explained(alloc, bytes) {
        Ok(explanation) => Fault::Configuration {
            field,
            line: line_of(field, bytes),
            explanation,
        },
        Err(_) => Fault::Memory,
    }
}

fn explained(alloc: Global, bytes: &[u8]) -> Result<String, AllocError> {
    let checked = check(alloc, bytes)?;
    explain(alloc, &checked)
}

// The line at which the list of a field begins; None where it is of the text as a whole.
fn line_of(field: ConfigField, bytes: &[u8]) -> Option<u64> {
    if field == ConfigField::Size || field == ConfigField::Json {
        return None;
    }
    let text = str::from_utf8(bytes).ok()?;
    let mut number = 0u64;
    for line in text.lines() {
        number = number.saturating_add(1);
        if names(line, field.name()) {
            return Some(number);
        }
    }
    None
}

// Whether a line has the name of a field in quotes.
fn names(line: &str, name: &str) -> bool {
    for part in line.split('"') {
        if part == name {
            return true;
        }
    }
    false
}

/// What a text comes to that is no recording.
pub(crate) fn of_recording(alloc: Global, fault: LineFault, bytes: &[u8]) -> Fault {
    match fault {
        LineFault::TooLong => Fault::TooLong(long_line(bytes)),
        LineFault::Memory => Fault::Memory,
        LineFault::Line { line, kind } => {
            let mut words = Page::new(alloc, false);
            show_faulty_line(&mut words, bytes, line, kind);
            Fault::Line(words)
        }
    }
}

// The first line of a recording that is too long, counted from 1; None where it has too many bytes or lines.
fn long_line(bytes: &[u8]) -> Option<u64> {
    if bytes.len() > RECORDING_BYTES {
        return None;
    }
    let mut number = 1u64;
    let mut length = 0usize;
    for byte in bytes {
        if *byte == b'\n' {
            number = number.saturating_add(1);
            length = 0;
        } else if length == LINE_BYTES {
            return Some(number);
        } else {
            length = length.saturating_add(1);
        }
    }
    None
}
