//! What is told on standard error behind a run: how the program is used, which file can't be read or is in use, in which
//! recording a line is, and which program tells more. Standard output and the status stay as they are.

use std::fs::File;
use std::io;

// The newest version of CHANGELOG.md.
const VERSION: &str = "0.4.2";

/// A text that is to be read.
#[derive(Clone, Copy)]
pub(crate) struct Text {
    /// The place of the word that names it; None where there is none.
    place: Option<usize>,
    /// Whether it is known that it can't be read: it can't be opened, or it is a folder.
    is_unread: bool,
}

/// What is known of the files behind a run, each by the place of the word that names it.
#[derive(Clone, Copy)]
pub(crate) struct Known<'a> {
    /// The texts that were to be read.
    pub texts: &'a [Text],
    /// The recording that was read last, of two.
    pub last_read: Option<usize>,
    /// The journal, where its file is in use.
    pub in_use: Option<usize>,
}

/// The text that the word at this place names, with its file where that could be opened.
pub(crate) fn text_of(place: Option<usize>, file: &Option<File>) -> Text {
    let is_unread = match file {
        Some(file) => is_folder(file),
        None => place.is_some(),
    };
    Text { place, is_unread }
}

fn is_folder(file: &File) -> bool {
    match file.metadata() {
        Ok(metadata) => metadata.is_dir(),
        Err(_) => false,
    }
}

/// Tells what a person wants to know behind this status; nothing where the last line says it all.
pub(crate) fn tell_hint(
    rt: &HostRuntime,
    status: u8,
    words: &[String],
    known: &Known<'_>,
) -> io::Result<()> {
    match status {
        2 => tell_usage(rt),
        3 => eprintln!(rt; "matter_lens --check CONFIG tells more."),
        4 if is_command(words, "compare") => {
            tell_recording(rt, words, known.last_read)?;
            tell_lens(rt)
        }
        4 if is_command(words, "replay") => tell_lens(rt),
        5 => tell_unread(rt, words, known.texts),
        8 => tell_in_use(rt, words, known.in_use),
        _ => Ok(()),
    }
}

fn is_command(words: &[String], command: &str) -> bool {
    match words.first() {
        Some(word) => word.as_str() == command,
        None => false,
    }
}

// In which of two recordings the bad line is: the second is read once the first is one.
fn tell_recording(rt: &HostRuntime, words: &[String], last_read: Option<usize>) -> io::Result<()> {
    match word_at(words, last_read) {
        Some(name) => eprintln!(rt; "The line is one of {name}."),
        None => Ok(()),
    }
}

// The lens shows recordings; the texts of other commands are scripts and outputs.
fn tell_lens(rt: &HostRuntime) -> io::Result<()> {
    eprintln!(rt;
        "matter_lens tells more: it shows a recording's first bad line, and --check CONFIG what the node is."
    )
}

fn tell_usage(rt: &HostRuntime) -> io::Result<()> {
    eprintln!(rt; "matter_node {VERSION}")?;
    eprintln!(rt; "usage: matter_node replay CONFIG RECORDING")?;
    eprintln!(rt; "       matter_node soak BEGIN COUNT CONFIG")?;
    eprintln!(rt; "       matter_node compare F CONFIG FIRST SECOND")?;
    eprintln!(rt; "       matter_node serve --workers W --datagrams N CONFIG JOURNAL BIND")?;
    eprintln!(rt; "       matter_node settle CONFIG JOURNAL")?;
    eprintln!(rt; "       matter_node ask S CONFIG SCRIPT")?;
    eprintln!(rt; "       matter_node show S CONFIG OUTPUT")
}

// The texts that can't be read; where none is known to be one, each that was to be.
fn tell_unread(rt: &HostRuntime, words: &[String], texts: &[Text]) -> io::Result<()> {
    let is_known = texts.iter().any(|text| text.is_unread);
    for text in texts {
        if let Some(name) = word_at(words, text.place) {
            if text.is_unread {
                eprintln!(rt; "{name} can't be read.")?;
            } else if !is_known {
                eprintln!(rt; "{name}, or another of these, can't be read.")?;
            }
        }
    }
    Ok(())
}

fn tell_in_use(rt: &HostRuntime, words: &[String], in_use: Option<usize>) -> io::Result<()> {
    match word_at(words, in_use) {
        Some(name) => eprintln!(rt; "{name} is in use by another process."),
        None => Ok(()),
    }
}

fn word_at(words: &[String], place: Option<usize>) -> Option<&String> {
    words.get(place?)
}
