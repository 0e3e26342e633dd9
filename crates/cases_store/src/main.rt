//! Prints what changes of maps, a journal, a store and the grammar of states answer. Each line of a file is a case, and
//! what must be printed for it is worked out outside of the program.
//!
//! - `changes`: changes as bytes, and maps that they lead to;
//! - `journals`: a journal on a disk in memory, with a `form` made up for it, and in `file` on a file;
//! - `stores`: a store on a disk in memory, and a keeper in memory;
//! - `states`: which maps are in the grammar of states, and a store under that rule;
//! - `disks`: a disk in memory and where it stops, `shown`: how answers are printed.
#![tactic(auto)]

mod changes;
mod disks;
mod file;
mod form;
mod journals;
mod shown;
mod states;
mod stores;

use cases_page::Page;
use std::alloc::{AllocError, Global};
use std::{fs, io};

fn main(rt: HostRuntime) -> io::Result<()> {
    let mut page = Page::new(rt.alloc());
    play_all(&rt, &mut page)?;
    print!(rt; "{}", page.whole()?)
}

fn play_all(rt: &HostRuntime, page: &mut Page) -> io::Result<()> {
    play_file(rt, page, "changes.txt")?;
    play_file(rt, page, "journals.txt")?;
    file::play(rt, page)?;
    play_file(rt, page, "stores.txt")?;
    play_file(rt, page, "states.txt")
}

// Plays the cases of a file, a line each.
fn play_file(rt: &HostRuntime, page: &mut Page, file: &str) -> io::Result<()> {
    let cases = fs::read_to_string(rt, file)?;
    let mut place = 0u64;
    for case in cases.as_str().lines() {
        play_case(rt.alloc(), page, file, place, case)?;
        place = place.saturating_add(1);
    }
    Ok(())
}

// Plays a case and tells what is answered.
fn play_case(
    alloc: Global,
    page: &mut Page,
    file: &str,
    place: u64,
    case: &str,
) -> Result<(), AllocError> {
    let words: Vec<&str> = case.split(' ').collect(alloc)?;
    match file {
        "changes.txt" => changes::play(alloc, page, case, &words)?,
        "journals.txt" => journals::play(alloc, page, case, &words)?,
        "stores.txt" => stores::play(alloc, page, place, &words)?,
        _ => states::play(alloc, page, &words)?,
    }
    page.end_line();
    Ok(())
}
