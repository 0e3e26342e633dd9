//! The files of data/, and recordings that are made of them.

use cases_page::{Page, word};
use std::alloc::{AllocError, Global};
use std::{fs, io};

/// The text of a file of data/, beside which the program is run, or in which.
pub(crate) fn text_of(rt: &HostRuntime, name: &str) -> io::Result<String> {
    match fs::read_to_string(rt, name) {
        Ok(text) => Ok(text),
        Err(_) => text_beside(rt, name),
    }
}

fn text_beside(rt: &HostRuntime, name: &str) -> io::Result<String> {
    let mut path = Page::new(rt.alloc());
    path.add("data/");
    path.add(name);
    fs::read_to_string(rt, path.whole()?)
}

/// The bytes that a text tells in hexadecimal digits.
pub(crate) fn bytes_of(alloc: Global, text: &str) -> io::Result<Vec<u8>> {
    match hex::decode(alloc, text) {
        Ok(bytes) => Ok(bytes),
        Err(_) => Err(io::Error::other("no hexadecimal text")),
    }
}

/// A recording of so many lines, which are those of another again and again, each a millisecond behind the one
/// before. The other's all come at time 0.
pub(crate) fn repeated(alloc: Global, recording: &str, lines: u64) -> Result<Page, AllocError> {
    let round: Vec<&str> = recording.lines().skip(1).collect(alloc)?;
    let mut page = Page::new(alloc);
    page.line("matter-record 1");
    for ms in 0..lines {
        add_line(&mut page, &round, ms);
    }
    Ok(page)
}

// The line of this time, of those that come again and again.
fn add_line(page: &mut Page, round: &[&str], ms: u64) {
    let place = ms % (round.len() as u64).max(1);
    let line = word(round, place as usize);
    if let Some((letter, rest)) = line.split_once(" 0") {
        page.add(letter);
        page.add(" ");
        page.add_number(ms);
        page.line(rest);
    }
}
