//! How fast the parts of the node are. Without words each matter is run once, short, and what came of it is
//! printed. With words it is one matter, whose speeds are printed behind what came of it:
//!
//! - `tlv time`: going over elements, reading and writing them;
//! - `im time`: requests decoded, and replies encoded;
//! - `files time`: recordings read and written, and what they take in memory;
//! - `ccm TURNS`: messages sealed and opened;
//! - `journal TURNS`, `store TURNS`: changes that are safe on a file, one before the next;
//! - `keep FILE`: a count is kept in a file; `speed/kill.py` kills it in the middle of commits.
//!
//! What depends on the machine goes to standard error where no word asks for it. The texts and messages are the
//! files of data/. How fast whole runs are, the script `speed/recordings.py` tells.
#![tactic(auto)]

mod ccm;
mod data;
mod files;
mod im;
mod journal;
mod rates;
mod store;
mod tlv;

use cases_page::Page;
use std::{env, io};

// How many turns there are where no word says.
const FEW: u32 = 20;

fn main(rt: HostRuntime) -> io::Result<()> {
    let words: Vec<String> = env::args(&rt)?.skip(1).collect(rt.alloc())?;
    measure(&rt, word_at(&words, 0), word_at(&words, 1))
}

// The word at this place, which is empty where there is none.
fn word_at(words: &[String], place: usize) -> &str {
    match words.get(place) {
        Some(word) => word.as_str(),
        None => "",
    }
}

// Measures a matter, and prints what came of it.
fn measure(rt: &HostRuntime, matter: &str, word: &str) -> io::Result<()> {
    match matter {
        "" => short(rt),
        "keep" => store::keep(rt, word),
        "ccm" | "journal" | "store" => measure_turns(
            rt,
            matter,
            word.parse::<u32>().unwrap_or(FEW),
        ),
        "files" | "im" | "tlv" => measure_texts(rt, matter, !word.is_empty()),
        _ => eprintln!(rt; "there is no such matter"),
    }
}

// What goes to standard error.
fn measure_turns(rt: &HostRuntime, matter: &str, turns: u32) -> io::Result<()> {
    let mut page = Page::new(rt.alloc());
    match matter {
        "ccm" => ccm::measure(rt, &mut page, turns)?,
        "journal" => journal::measure(rt, &mut page, turns)?,
        _ => store::measure(rt, &mut page, turns)?,
    }
    eprint!(rt; "{}", page.whole()?)
}

// What goes to standard output.
fn measure_texts(rt: &HostRuntime, matter: &str, timed: bool) -> io::Result<()> {
    let mut page = Page::new(rt.alloc());
    match matter {
        "files" => files::measure(rt, &mut page, timed)?,
        "im" => im::measure(rt, &mut page, timed)?,
        _ => tlv::measure(rt, &mut page, timed)?,
    }
    print!(rt; "{}", page.whole()?)
}

// Each matter, short.
fn short(rt: &HostRuntime) -> io::Result<()> {
    measure_turns(rt, "ccm", FEW)?;
    measure_texts(rt, "files", false)?;
    measure_texts(rt, "im", false)?;
    measure_turns(rt, "journal", FEW)?;
    measure_turns(rt, "store", FEW)?;
    measure_texts(rt, "tlv", false)
}
