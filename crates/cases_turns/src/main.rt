//! Four threads make ten thousand calls each at one node under its lock, and then one pass reads what the node has become. A node
//! alone replays the book, and it is told whether each call was answered as the node alone answers at its place, whether each place
//! of the book was told once, and whether both keep the same. It prints the same whatever the threads' turns are, and what must be
//! printed is worked out outside of the program.
//!
//! - `callers`: the threads, and what they are told;
//! - `answers`: an answer as bytes;
//! - `replay`: what a node alone answers to the calls of a book.
#![tactic(auto)]

mod answers;
mod callers;
mod replay;

use cases_page::{Page, no_case};
use mt_files::config as configuration;
use mt_model::Config;
use std::alloc::Global;
use std::{fs, io};

fn main(rt: HostRuntime) -> io::Result<()> {
    let alloc = rt.alloc();
    let mut page = Page::new(alloc);
    let config = config_of(alloc, &fs::read(&rt, "bench.json")?)?;
    let calls = fs::read_to_string(&rt, "calls.txt")?;
    callers::play(&rt, alloc, &mut page, &config, calls.as_str())?;
    print!(rt; "{}", page.whole()?)
}

fn config_of(alloc: Global, bytes: &[u8]) -> io::Result<Config> {
    let Ok(config) = configuration(alloc, bytes) else {
        return Err(no_case());
    };
    Ok(config)
}
