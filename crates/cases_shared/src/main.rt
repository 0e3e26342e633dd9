//! Prints what a node with a book answers: alone, and under its lock in one thread. What must be printed is worked out outside of
//! the program.
//!
//! - `alone`: a node whose keeper may fail in one of its commits, case by case;
//! - `turns`: two passes that take turns in one thread;
//! - `answers`: how answers are printed.
#![tactic(auto)]

mod alone;
mod answers;
mod turns;

use cases_page::{Page, no_case};
use mt_files::config as configuration;
use mt_model::Config;
use std::alloc::Global;
use std::{fs, io};

fn main(rt: HostRuntime) -> io::Result<()> {
    let alloc = rt.alloc();
    let mut page = Page::new(alloc);
    let config = config_of(alloc, &fs::read(&rt, "bench.json")?)?;
    let cases = fs::read_to_string(&rt, "alone.txt")?;
    alone::play(alloc, &mut page, &config, cases.as_str())?;
    let lines = fs::read_to_string(&rt, "turns.txt")?;
    turns::play(&rt, alloc, &mut page, &config, lines.as_str())?;
    print!(rt; "{}", page.whole()?)
}

fn config_of(alloc: Global, bytes: &[u8]) -> io::Result<Config> {
    let Ok(config) = configuration(alloc, bytes) else {
        return Err(no_case());
    };
    Ok(config)
}
