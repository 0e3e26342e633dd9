//! Prints what a check of configurations says, over the texts of which cases_exchange has verdicts: a text, or `old|new` for the
//! bench configuration with new in the place of old. What must be printed comes from the tables of the page on configurations.
#![tactic(auto)]

use cases_page::Page;
use mt_check::{check, explain};
use std::alloc::{AllocError, Global};
use std::{fs, io};

fn main(rt: HostRuntime) -> io::Result<()> {
    let alloc = rt.alloc();
    let mut page = Page::new(alloc);
    let bench = fs::read_to_string(&rt, "bench.txt")?;
    let bench = long(alloc, bench.as_str())?;
    tell(alloc, &mut page, bench.as_str(), true)?;
    let cases = fs::read_to_string(&rt, "configurations.txt")?;
    tell_cases(alloc, &mut page, bench.as_str(), cases.as_str())?;
    print!(&rt; "{}", page.whole()?)
}

fn tell_cases(alloc: Global, page: &mut Page, bench: &str, cases: &str) -> Result<(), AllocError> {
    for case in cases.lines() {
        page.add("> ");
        page.line(case);
        let case = long(alloc, case)?;
        match case.as_str().split_once('|') {
            Some((old, new)) => {
                let text = bench.replacen(alloc, old, new, 1)?;
                tell(alloc, page, text.as_str(), false)?;
            }
            None => tell(alloc, page, case.as_str(), false)?,
        }
    }
    Ok(())
}

// Tells what is said of a text: whole, or without what a node is.
fn tell(alloc: Global, page: &mut Page, text: &str, whole: bool) -> Result<(), AllocError> {
    let checked = check(alloc, text.as_bytes())?;
    let told = explain(alloc, &checked)?;
    for line in told.as_str().lines() {
        if whole || !is_of_a_node(line) {
            page.line(line);
        }
    }
    Ok(())
}

fn is_of_a_node(line: &str) -> bool {
    line.starts_with("fabric ")
        || line.starts_with("  ")
        || line.starts_with("session ")
        || line.starts_with("good ")
        || line.starts_with("signing ")
        || line.starts_with("network ")
        || line.starts_with("no fabrics")
        || line.starts_with("sessions of ")
}

// The text in which each piece `count:part` between two marks stands for so many times the part: rows between two `^`, and in
// them bytes between two `~`. In a part `#` is the number of its turn, from 1, and `@` the same in 16 digits.
fn long(alloc: Global, text: &str) -> Result<String, AllocError> {
    let rows = spelled(alloc, text, '^')?;
    spelled(alloc, rows.as_str(), '~')
}

fn spelled(alloc: Global, text: &str, mark: char) -> Result<String, AllocError> {
    let mut all = String::new(alloc);
    let mut is_piece = false;
    for part in text.split(mark) {
        match part.split_once(':') {
            Some((count, part)) if is_piece => push_turns(alloc, &mut all, count, part)?,
            _ => all.push_str(part)?,
        }
        is_piece = !is_piece;
    }
    Ok(all)
}

fn push_turns(alloc: Global, all: &mut String, count: &str, part: &str) -> Result<(), AllocError> {
    let count = count.parse::<u32>().unwrap_or(0);
    let is_same = !part.contains('#') && !part.contains('@');
    for number in 1..=count {
        if is_same {
            all.push_str(part)?;
        } else {
            push_turn(alloc, all, number, part)?;
        }
    }
    Ok(())
}

fn push_turn(alloc: Global, all: &mut String, number: u32, part: &str) -> Result<(), AllocError> {
    let long = format!(in alloc; "{number:016}")?;
    let short = format!(in alloc; "{number}")?;
    let part = part.replace(alloc, '@', long.as_str())?;
    let part = part.as_str().replace(alloc, '#', short.as_str())?;
    all.push_str(part.as_str())
}
