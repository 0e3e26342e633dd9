//! Runs workers and the reporter of a node in memory, and prints how they ended, what their outlets were given, and what stands in
//! the book. A node alone then plays the lines of the book, and it is told whether it sends what the outlets were given. Each line
//! of the tables in data/ is a case, and what must be printed for it is worked out outside of the program.
//!
//! - `cases`: what a case says;
//! - `work`: a worker with its rows, the reporter, and the jobs of a recording;
//! - `alone`: a worker and then the reporter, in one thread;
//! - `crew`: several workers and the reporter, in threads;
//! - `replay`: what a node alone sends for the lines of a book.
#![tactic(auto)]

mod alone;
mod cases;
mod crew;
mod replay;
mod work;

use cases_page::Page;
use std::{fs, io};

fn main(rt: HostRuntime) -> io::Result<()> {
    let alloc = rt.alloc();
    let mut page = Page::new(alloc);
    let alone = fs::read_to_string(&rt, "alone.txt")?;
    for line in alone.as_str().lines() {
        let case = cases::read(&rt, line)?;
        alone::play(&rt, alloc, &mut page, &case)?;
    }
    let crew = fs::read_to_string(&rt, "crew.txt")?;
    for line in crew.as_str().lines() {
        let case = cases::read(&rt, line)?;
        crew::play(&rt, alloc, &mut page, &case)?;
    }
    print!(rt; "{}", page.whole()?)
}
