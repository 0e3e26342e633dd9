//! Prints what a session and its exchanges answer and what is said in talks, what bytes are read as and written again, and what
//! is read of texts as a stranger writes them. Each line of the tables in data/ is a case, and what must be printed for it is
//! worked out outside of the program.
//!
//! - `happenings.txt`: something that happens on a session (`stand`);
//! - `talks.txt`: something that is heard or said over a session (`talking`);
//! - `elements.txt`: bytes as elements, headers, blocks and seals (`octets`);
//! - `bench.txt`, `others.txt`: configurations that are printed row by row;
//! - `configurations.txt`: a text, or `old|new` for the bench configuration with new in the place of old;
//! - `recordings.txt`: a recording, in which `/` ends a line.
#![tactic(auto)]

mod ciphers;
mod configurations;
mod elements;
mod frames;
mod octets;
mod pieces;
mod recordings;
mod shown;
mod stand;
mod talking;
mod words;

use cases_page::Page;
use stand::Stand;
use std::alloc::{AllocError, Global};
use std::{fs, io};
use talking::Talking;

fn main(rt: HostRuntime) -> io::Result<()> {
    let mut page = Page::new(rt.alloc());
    tell_sessions(&rt, &mut page)?;
    tell_octets(&rt, &mut page)?;
    tell_texts(&rt, &mut page)?;
    print!(rt; "{}", page.whole()?)
}

fn tell_sessions(rt: &HostRuntime, page: &mut Page) -> io::Result<()> {
    let happenings = fs::read_to_string(rt, "happenings.txt")?;
    tell_happenings(rt.alloc(), page, happenings.as_str())?;
    let talks = fs::read_to_string(rt, "talks.txt")?;
    tell_talks(rt.alloc(), page, talks.as_str())?;
    Ok(())
}

fn tell_happenings(alloc: Global, page: &mut Page, happenings: &str) -> Result<(), AllocError> {
    let mut stand = Stand::new(alloc, false, 5000);
    for line in happenings.lines() {
        page.line(line);
        let words: Vec<&str> = line.split(' ').collect(alloc)?;
        stand.happen(page, &words)?;
    }
    Ok(())
}

fn tell_talks(alloc: Global, page: &mut Page, talks: &str) -> Result<(), AllocError> {
    let mut talking = Talking::new(alloc, false, 5000);
    for line in talks.lines() {
        page.line(line);
        let words: Vec<&str> = line.split(' ').collect(alloc)?;
        talking.happen(page, &words)?;
    }
    Ok(())
}

fn tell_octets(rt: &HostRuntime, page: &mut Page) -> io::Result<()> {
    let cases = fs::read_to_string(rt, "elements.txt")?;
    for line in cases.as_str().lines() {
        page.line(line);
        let words: Vec<&str> = line.split(' ').collect(rt.alloc())?;
        octets::tell(rt.alloc(), page, &words)?;
    }
    Ok(())
}

fn tell_texts(rt: &HostRuntime, page: &mut Page) -> io::Result<()> {
    let alloc = rt.alloc();
    let bench = fs::read_to_string(rt, "bench.txt")?;
    configurations::tell_rows(alloc, page, bench.as_str())?;
    let others = fs::read_to_string(rt, "others.txt")?;
    for text in others.as_str().lines() {
        configurations::tell_rows(alloc, page, text)?;
    }
    let cases = fs::read_to_string(rt, "configurations.txt")?;
    for case in cases.as_str().lines() {
        configurations::tell(alloc, page, bench.as_str(), case)?;
    }
    let cases = fs::read_to_string(rt, "recordings.txt")?;
    for case in cases.as_str().lines() {
        recordings::tell(alloc, page, case)?;
    }
    Ok(())
}
