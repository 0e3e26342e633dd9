//! Prints what the top calls answer and write over sources, sinks and disks in memory, some of whose calls fail, and whether
//! what is a fabric's own is the same behind two recordings. Each line of the tables in data/ is a case, and what must be
//! printed for it is worked out outside of the program.
//!
//! - `runs.txt`: a run of the program, or of a recording with a configuration in hand;
//! - `reads.txt`, `writes.txt`: the calls of one source, and of one sink;
//! - `datagrams.txt`: recordings of datagrams, each of which is sent back;
//! - `compares.txt`: a run of the program that compares two recordings by what one fabric sees of them;
//! - `alike.txt`: two recordings, and a fabric.
#![tactic(auto)]

mod compares;
mod datagrams;
mod narrow;
mod numbers;
mod runs;
mod streams;
mod wholes;

use cases_page::Page;
use std::{fs, io};

fn main(rt: HostRuntime) -> io::Result<()> {
    let mut page = Page::new(rt.alloc());
    tell_runs(&rt, &mut page)?;
    tell_streams(&rt, &mut page)?;
    tell_pairs(&rt, &mut page)?;
    print!(rt; "{}", page.whole()?)
}

fn tell_runs(rt: &HostRuntime, page: &mut Page) -> io::Result<()> {
    let cases = fs::read_to_string(rt, "runs.txt")?;
    for case in cases.as_str().lines() {
        runs::tell(rt, page, case)?;
    }
    Ok(())
}

fn tell_streams(rt: &HostRuntime, page: &mut Page) -> io::Result<()> {
    let cases = fs::read_to_string(rt, "reads.txt")?;
    for case in cases.as_str().lines() {
        streams::tell_read(rt.alloc(), page, case)?;
    }
    let cases = fs::read_to_string(rt, "writes.txt")?;
    for case in cases.as_str().lines() {
        streams::tell_written(rt.alloc(), page, case)?;
    }
    let cases = fs::read_to_string(rt, "datagrams.txt")?;
    for case in cases.as_str().lines() {
        datagrams::tell_sent(rt.alloc(), page, case)?;
    }
    Ok(())
}

fn tell_pairs(rt: &HostRuntime, page: &mut Page) -> io::Result<()> {
    let cases = fs::read_to_string(rt, "compares.txt")?;
    for case in cases.as_str().lines() {
        compares::tell(rt, page, case)?;
    }
    let cases = fs::read_to_string(rt, "alike.txt")?;
    for case in cases.as_str().lines() {
        wholes::tell(rt, page, case)?;
    }
    Ok(())
}
