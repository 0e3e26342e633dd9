//! How many lines a second `events` reads and `write_event` writes, and what the events take in memory, for
//! recordings of growing length; and what is read at the limits.

use crate::data::{repeated, text_of};
use crate::rates::rate;
use cases_page::Page;
use mt_files::{events, write_event};
use mt_model::{Events, LineFault};
use std::alloc::{AllocError, Global};
use std::time::Instant;
use std::{fs, io};

/// How many lines a recording has behind its head.
const SIZES: [u64; 3] = [10_000, 100_000, 1_000_000];

/// How many lines are read, and written, for one speed.
const AMOUNT: u64 = 4_000_000;

const HEAD: &[u8] = b"matter-record 1\n";

/// Writes each recording, reads it and writes it again, and tells what came of it, with the speeds where they
/// are asked for; then what is read at the limits of lines and bytes. The lines are of four kinds: requests,
/// datagrams, steps of time and report steps.
pub(crate) fn measure(rt: &HostRuntime, page: &mut Page, timed: bool) -> io::Result<()> {
    let alloc = rt.alloc();
    measure_sizes(rt, page, timed)?;
    for lines in &[1_048_576, 1_048_577] {
        tell_lines(alloc, page, *lines)?;
    }
    for bytes in &[67_108_864, 67_108_865] {
        tell_bytes(alloc, page, *bytes)?;
    }
    Ok(())
}

fn measure_sizes(rt: &HostRuntime, page: &mut Page, timed: bool) -> io::Result<()> {
    let mixed = text_of(rt, "mixed.txt")?;
    for lines in &SIZES {
        measure_size(rt, page, mixed.as_str(), *lines, timed)?;
    }
    Ok(())
}

// A recording of so many lines.
fn measure_size(
    rt: &HostRuntime,
    page: &mut Page,
    mixed: &str,
    lines: u64,
    timed: bool,
) -> io::Result<()> {
    let recording = repeated(rt.alloc(), mixed, lines)?;
    let text = recording.whole()?.as_bytes();
    if timed {
        time(rt, page, lines, text)
    } else {
        Ok(tell_size(rt.alloc(), page, lines, text)?)
    }
}

fn tell_size(alloc: Global, page: &mut Page, lines: u64, text: &[u8]) -> Result<(), AllocError> {
    page.add_number(lines);
    page.add(" lines, ");
    page.add_number(text.len() as u64);
    page.add(" bytes: ");
    tell_read(alloc, page, text)
}

// A recording with so many steps of time.
fn tell_lines(alloc: Global, page: &mut Page, lines: u64) -> Result<(), AllocError> {
    let recording = repeated(alloc, "matter-record 1\nT 0\n", lines)?;
    page.add_number(lines);
    page.add(" lines: ");
    tell_read(alloc, page, recording.whole()?.as_bytes())
}

// A text of so many bytes, all line ends.
fn tell_bytes(alloc: Global, page: &mut Page, bytes: usize) -> Result<(), AllocError> {
    let mut text = Vec::from_slice(alloc, HEAD)?;
    text.resize(bytes, b'\n')?;
    page.add_number(bytes as u64);
    page.add(" bytes: ");
    tell_read(alloc, page, &text)
}

// What is read, and whether it is written as it was.
fn tell_read(alloc: Global, page: &mut Page, text: &[u8]) -> Result<(), AllocError> {
    match events(alloc, text) {
        Ok(events) => tell_events(alloc, page, &events, text)?,
        Err(LineFault::Memory) => return Err(AllocError),
        Err(fault) => {
            page.add("fault ");
            page.add_shown(&fault);
        }
    }
    page.end_line();
    Ok(())
}

fn tell_events(
    alloc: Global,
    page: &mut Page,
    events: &Events,
    text: &[u8],
) -> Result<(), AllocError> {
    let same = rewritten(alloc, events)?.as_slice() == text;
    page.add_number(events.len() as u64);
    page.add(" events, written the same: ");
    page.add_shown(&same);
    Ok(())
}

fn rewritten(alloc: Global, events: &Events) -> Result<Vec<u8>, AllocError> {
    let mut text = Vec::from_slice(alloc, HEAD)?;
    for event in events.as_slice() {
        write_event(event, &mut text)?;
    }
    Ok(text)
}

// What is read of a recording, with the speeds, and what its events take.
fn time(rt: &HostRuntime, page: &mut Page, lines: u64, text: &[u8]) -> io::Result<()> {
    let rounds = AMOUNT / lines.max(1);
    let kilobytes = memory(rt, text)?;
    tell_size(rt.alloc(), page, lines, text)?;
    let reading = reading(rt, text, rounds)?;
    let writing = writing(rt, text, rounds)?;
    page.add("read ");
    page.add_number(reading);
    page.add(", written ");
    page.add_number(writing);
    page.line(" lines/s");
    page.add("the events take ");
    page.add_number(kilobytes);
    page.line(" kB of new memory");
    Ok(())
}

// How many events are read in a second.
fn reading(rt: &HostRuntime, text: &[u8], rounds: u64) -> io::Result<u64> {
    let start = Instant::now(rt)?;
    let mut read = 0_u64;
    for _ in 0..rounds {
        read = read.saturating_add(count_of(rt.alloc(), text));
    }
    rate(rt, start, read)
}

// How many events a text has.
fn count_of(alloc: Global, text: &[u8]) -> u64 {
    match events(alloc, text) {
        Ok(events) => events.len() as u64,
        Err(_) => 0,
    }
}

// How many events are written in a second.
fn writing(rt: &HostRuntime, text: &[u8], rounds: u64) -> io::Result<u64> {
    match events(rt.alloc(), text) {
        Ok(events) => writing_of(rt, &events, text.len(), rounds),
        Err(_) => Ok(0),
    }
}

fn writing_of(rt: &HostRuntime, events: &Events, length: usize, rounds: u64) -> io::Result<u64> {
    let start = Instant::now(rt)?;
    let mut written = 0_u64;
    for _ in 0..rounds {
        if rewritten(rt.alloc(), events)?.len() == length {
            written = written.saturating_add(events.len() as u64);
        }
    }
    rate(rt, start, written)
}

// By how many kilobytes the process grows for the events; what was used and freed before is used again.
fn memory(rt: &HostRuntime, text: &[u8]) -> io::Result<u64> {
    let before = resident(rt)?;
    match events(rt.alloc(), text) {
        Ok(events) if !events.is_empty() => Ok(resident(rt)?.saturating_sub(before)),
        _ => Ok(0),
    }
}

// How much memory the process has, in kilobytes, where the system tells it.
fn resident(rt: &HostRuntime) -> io::Result<u64> {
    let text = fs::read_to_string(rt, "/proc/self/statm")?;
    Ok(second(text.as_str()).saturating_mul(4))
}

// The second number of a line.
fn second(line: &str) -> u64 {
    let (_, rest) = line.split_once(' ').unwrap_or(("", ""));
    let (number, _) = rest.split_once(' ').unwrap_or(("", ""));
    number.parse::<u64>().unwrap_or(0)
}
