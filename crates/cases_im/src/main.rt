//! Reads cases of the interaction model from its input, a case a line, and writes what comes of each: what a
//! request is decoded as, or its first fault, the bytes of requests and replies, what the table of clusters
//! says, what grants, what is computed, what reads and writes are answered, and what stands in the way of
//! commands. A line that begins with `#` is a heading, and is written again. A line of another form is told to be
//! no case.
#![tactic(auto)]

mod access;
mod asking;
mod commands;
mod computed;
mod node;
mod reading;
mod replies;
mod requests;
mod stand;
mod table;
mod telling;

use cases_page::Page;
use stand::Stand;
use std::alloc::Global;
use std::io;

fn main(rt: HostRuntime) -> io::Result<()> {
    let alloc = rt.alloc();
    let cases = io::read_to_string(alloc, rt.stdin())?;
    let mut page = Page::new(alloc);
    tell_cases(alloc, &mut page, cases.as_str())?;
    print!(rt; "{}", page.whole()?)
}

fn tell_cases(alloc: Global, page: &mut Page, cases: &str) -> io::Result<()> {
    let mut stand = Stand::new(alloc);
    for line in cases.lines() {
        tell_line(alloc, page, &mut stand, line)?;
    }
    Ok(())
}

fn tell_line(alloc: Global, page: &mut Page, stand: &mut Stand, line: &str) -> io::Result<()> {
    if line.starts_with('#') {
        page.line(line);
        return Ok(());
    }
    let words: Vec<&str> = line.split_whitespace().collect(alloc)?;
    if words.is_empty() {
        return Ok(());
    }
    stand.tell(page, &words)
}
