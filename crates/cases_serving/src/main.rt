//! Plays `serve` over a configuration, a disk, an intake, outlets and an output in memory, some of whose calls fail, with threads that
//! act as they come or in an order that the case says. It prints the status, what the outlets were given over each session, what was
//! written, whether a replay of that sends the same, and what is recovered of the disk behind it. Each line of `cases.txt` in data/ is a
//! case, and what must be printed for it is worked out outside of the program.
//!
//! - `cases`: what a case says;
//! - `turns`: a gate that lets threads act one after the other, in a given order;
//! - `serving`: a case, played;
//! - `commands`: what other commands make of what a case has left;
//! - `given`: what was given and sent over a session;
//! - `told`: what is told of a case behind it.
#![tactic(auto)]

mod cases;
mod commands;
mod given;
mod serving;
mod told;
mod turns;

use cases_page::Page;
use mt_outside::MemDisk;
use std::{fs, io};

fn main(rt: HostRuntime) -> io::Result<()> {
    let alloc = rt.alloc();
    let mut page = Page::new(alloc);
    let mut disk = MemDisk::new(alloc, &[], &[])?;
    let lines = fs::read_to_string(&rt, "cases.txt")?;
    for line in lines.as_str().lines() {
        let case = cases::read(&rt, line)?;
        disk = serving::play(&rt, alloc, &mut page, &case, disk)?;
    }
    print!(rt; "{}", page.whole()?)
}
