//! One source and one sink, call by call.

use crate::narrow::NarrowSink;
use crate::numbers::numbers;
use cases_page::{Page, word};
use mt_outside::{MemSink, MemSource, ReadFault, Source, read_all, write_all};
use std::alloc::{AllocError, Global};

// How many bytes a call of the source may give, and how many calls there are.
const ROOM: usize = 4;

const CALLS: u64 = 5;

/// Tells what a source gives, call by call into a room of four bytes, and then what reading another like it
/// to its end answers. A case is `CONTENTS|FAILS|LIMIT`, FAILS the numbers of the calls that fail.
pub(crate) fn tell_read(alloc: Global, page: &mut Page, case: &str) -> Result<(), AllocError> {
    let words: Vec<&str> = case.split('|').collect(alloc)?;
    let fails = numbers(alloc, word(&words, 1))?;
    let contents = word(&words, 0).as_bytes();
    page.add(case);
    page.add(":");
    tell_calls(page, MemSource::new(alloc, contents, &fails)?);
    let limit = word(&words, 2).parse::<usize>().unwrap_or(0);
    tell_all(alloc, page, MemSource::new(alloc, contents, &fails)?, limit);
    Ok(())
}

fn tell_calls(page: &mut Page, source: MemSource) {
    let mut source = source;
    let mut room = [b'.'; ROOM];
    for _ in 0..CALLS {
        match source.read(&mut room) {
            Ok(count) => {
                page.add(" ");
                page.add_number(count as u64);
                page.add(" ");
                page.add_lossy(&room);
            }
            Err(_) => page.add(" failed"),
        }
    }
}

fn tell_all(alloc: Global, page: &mut Page, source: MemSource, limit: usize) {
    let mut source = source;
    match read_all(alloc, &mut source, limit) {
        Ok(bytes) => {
            page.add("; all \"");
            page.add_lossy(&bytes);
            page.line("\"");
        }
        Err(ReadFault::Failed) => page.line("; failed"),
        Err(ReadFault::TooLong) => page.line("; too long"),
        Err(ReadFault::Memory) => page.line("; no memory"),
    }
}

/// Tells what a sink holds to which all of some bytes were to be written. A case is `BYTES|FAILS|MOST`, MOST
/// how many bytes it takes a call.
pub(crate) fn tell_written(alloc: Global, page: &mut Page, case: &str) -> Result<(), AllocError> {
    let words: Vec<&str> = case.split('|').collect(alloc)?;
    let fails = numbers(alloc, word(&words, 1))?;
    let mut sink = NarrowSink {
        inner: MemSink::new(alloc, &fails)?,
        most: word(&words, 2).parse::<usize>().unwrap_or(usize::MAX),
    };
    page.add(case);
    match write_all(&mut sink, word(&words, 0).as_bytes()) {
        Ok(()) => page.add(": all \""),
        Err(_) => page.add(": failed behind \""),
    }
    page.add_lossy(sink.inner.bytes());
    page.line("\"");
    Ok(())
}
