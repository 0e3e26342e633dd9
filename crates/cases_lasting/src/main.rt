//! Prints what is kept of a node on a disk that stops and what is told of it: what the lens shows of runs and of journals,
//! what `settle` writes of journals, what a node's durable state answers, and what lasts of a node behind recordings, with what the
//! node regains of that. Each line of the tables in data/ is a case, each block of `lasting.txt` too, and what must be printed for
//! it is worked out outside of the program.
//!
//! - `lens.txt`: a recording that is shown to people, or a line for which it is none;
//! - `settles.txt`: what is written of a journal;
//! - `commits.txt`: durable state, recovered and committed, operation by operation;
//! - `kept.txt`: a journal that is shown to people;
//! - `lasting.txt`: what is kept of a node over a loss of power behind a recording, what of it changes line by line, that it is in
//!   the grammar of states, that it is read back, what is taken back of it, and how the next boot begins.
//!
//! The disks, and where they stop, are in `disks`; how what is kept on them is printed, in `answers`. The blocks of
//! `lasting.txt` are in `blocks`, and each is played in `plays`; how what lasts is printed is in `maps`, and what is regained of
//! it in `regained`.
#![tactic(auto)]

mod answers;
mod blocks;
mod commits;
mod disks;
mod kept;
mod maps;
mod plays;
mod regained;
mod settles;
mod shown;

use cases_page::Page;
use std::{fs, io};

fn main(rt: HostRuntime) -> io::Result<()> {
    let mut page = Page::new(rt.alloc());
    tell_shown(&rt, &mut page)?;
    tell_journals(&rt, &mut page)?;
    tell_lasting(&rt, &mut page)?;
    print!(rt; "{}", page.whole()?)
}

fn tell_shown(rt: &HostRuntime, page: &mut Page) -> io::Result<()> {
    let cases = fs::read_to_string(rt, "lens.txt")?;
    for case in cases.as_str().lines() {
        shown::tell(rt, page, case)?;
    }
    Ok(())
}

fn tell_journals(rt: &HostRuntime, page: &mut Page) -> io::Result<()> {
    let cases = fs::read_to_string(rt, "settles.txt")?;
    for case in cases.as_str().lines() {
        settles::play(rt, page, case)?;
    }
    let cases = fs::read_to_string(rt, "commits.txt")?;
    for case in cases.as_str().lines() {
        commits::play(rt, page, case)?;
    }
    let cases = fs::read_to_string(rt, "kept.txt")?;
    for case in cases.as_str().lines() {
        kept::play(rt, page, case)?;
    }
    Ok(())
}

fn tell_lasting(rt: &HostRuntime, page: &mut Page) -> io::Result<()> {
    let cases = fs::read_to_string(rt, "lasting.txt")?;
    blocks::tell(rt, page, cases.as_str())?;
    Ok(())
}
