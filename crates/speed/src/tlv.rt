//! How many bytes a second `Cursor` goes over, `read` reads and `write` writes, for payloads of mixed elements,
//! in MB (millions of bytes) a second; and how long `read` takes for structures of many tags, in ps
//! (trillionths of a second) a byte.

use crate::data::{bytes_of, text_of};
use crate::rates::{a_second, since};
use cases_page::Page;
use mt_tlv::{Cursor, Tag, Value, read, write};
use std::alloc::{AllocError, Global};
use std::io;
use std::time::Instant;

/// How many bytes a payload spans.
const SIZES: [usize; 3] = [1_200, 12_000, 60_000];

/// How many tags the structures of many tags have. The last has nearly 65,535 bytes.
const TAGS: [u32; 5] = [100, 200, 400, 800, 15_000];

/// How many tags a context has.
const CONTEXT_TAGS: u32 = 256;

/// How many bytes are gone over, read and written for one speed; of many tags a 64th.
const AMOUNT: u64 = 240_000_000;

/// Tells the length and the parts of each payload and whether it is read; with its speeds, where they are
/// asked for.
pub(crate) fn measure(rt: &HostRuntime, page: &mut Page, timed: bool) -> io::Result<()> {
    let item = text_of(rt, "item.txt")?;
    let (before, behind) = item.as_str().trim().split_once(' ').unwrap_or(("", ""));
    measure_sizes(rt, page, before, behind, timed)?;
    for count in &TAGS {
        measure_tags(rt, page, *count, timed)?;
    }
    Ok(())
}

// Payloads of items that are told in these digits before and behind their number.
fn measure_sizes(
    rt: &HostRuntime,
    page: &mut Page,
    before: &str,
    behind: &str,
    timed: bool,
) -> io::Result<()> {
    let before = bytes_of(rt.alloc(), before)?;
    let behind = bytes_of(rt.alloc(), behind)?;
    for size in &SIZES {
        let bytes = payload(rt.alloc(), *size, &before, &behind)?;
        tell_payload(rt.alloc(), page, &bytes);
        if timed {
            time(rt, page, &bytes)?;
        }
    }
    Ok(())
}

fn tell_payload(alloc: Global, page: &mut Page, bytes: &[u8]) {
    page.add_number(bytes.len() as u64);
    page.add(" bytes, ");
    page.add_number(parts_of(bytes));
    page.add(" parts, read: ");
    tell_read(alloc, page, bytes);
}

fn tell_read(alloc: Global, page: &mut Page, bytes: &[u8]) {
    page.add_shown(&read(alloc, bytes).is_ok());
    page.end_line();
}

fn measure_tags(rt: &HostRuntime, page: &mut Page, count: u32, timed: bool) -> io::Result<()> {
    let bytes = many_tags(rt.alloc(), count)?;
    tell_tags(rt.alloc(), page, count, &bytes);
    if timed {
        time_tags(rt, page, &bytes)
    } else {
        Ok(())
    }
}

fn tell_tags(alloc: Global, page: &mut Page, count: u32, bytes: &[u8]) {
    page.add_number(u64::from(count));
    page.add(" tags, ");
    page.add_number(bytes.len() as u64);
    page.add(" bytes, read: ");
    tell_read(alloc, page, bytes);
}

fn time_tags(rt: &HostRuntime, page: &mut Page, bytes: &[u8]) -> io::Result<()> {
    let length = bytes.len() as u64;
    let rounds = AMOUNT / length.max(1) / 64;
    let amount = rounds.saturating_mul(length).max(1);
    let took = reading(rt, bytes, rounds)?;
    page.add("read ");
    page.add_number(took.saturating_mul(1_000) / amount);
    page.line(" ps/byte");
    Ok(())
}

// An array of structures and an octet string, of this many bytes: of structures with a number in the path, before
// and behind which stand these bytes.
fn payload(
    alloc: Global,
    size: usize,
    before: &[u8],
    behind: &[u8],
) -> Result<Vec<u8>, AllocError> {
    let mut bytes = Vec::from_slice(alloc, &[0x16])?;
    let mut spanned = 1;
    for number in 0..size as u64 {
        bytes.extend_from_slice(before)?;
        write(&Tag::Context(4), &Value::Uint(number), &mut bytes)?;
        bytes.extend_from_slice(behind)?;
        if bytes.len() > size.saturating_sub(3) {
            break;
        }
        spanned = bytes.len();
    }
    bytes.truncate(spanned);
    let filler = size.saturating_sub(3).saturating_sub(spanned).min(255);
    bytes.extend_from_slice(&[0x10, filler as u8])?;
    bytes.resize(size.saturating_sub(1), 7)?;
    bytes.push(0x18)?;
    Ok(bytes)
}

// A structure with this many tags, the context's first and then the implicit profile's.
fn many_tags(alloc: Global, count: u32) -> Result<Vec<u8>, AllocError> {
    let mut bytes = Vec::from_slice(alloc, &[0x15])?;
    for number in 0..count {
        let tag = match u8::try_from(number) {
            Ok(context) => Tag::Context(context),
            Err(_) => Tag::Implicit(number.wrapping_sub(CONTEXT_TAGS)),
        };
        write(&tag, &Value::Uint(7), &mut bytes)?;
    }
    bytes.push(0x18)?;
    Ok(bytes)
}

// How many parts there are before the end or a fault.
fn parts_of(bytes: &[u8]) -> u64 {
    let mut cursor = Cursor::new(bytes);
    for parts in 0..u64::MAX {
        let Ok(Some(_)) = cursor.next() else {
            return parts;
        };
    }
    u64::MAX
}

fn time(rt: &HostRuntime, page: &mut Page, bytes: &[u8]) -> io::Result<()> {
    let length = bytes.len() as u64;
    let rounds = AMOUNT / length.max(1);
    let amount = rounds.saturating_mul(length);
    let over = a_second(amount, going(rt, bytes, rounds)?) / 1_000_000;
    let reading = a_second(amount, reading(rt, bytes, rounds)?) / 1_000_000;
    let writing = a_second(amount, writing(rt, bytes, rounds)?) / 1_000_000;
    page.add("Cursor ");
    page.add_number(over);
    page.add(" MB/s, read ");
    page.add_number(reading);
    page.add(" MB/s, write ");
    page.add_number(writing);
    page.line(" MB/s");
    Ok(())
}

// How many nanoseconds it takes to go over bytes in these rounds.
fn going(rt: &HostRuntime, bytes: &[u8], rounds: u64) -> io::Result<u64> {
    let start = Instant::now(rt)?;
    let mut parts = 0_u64;
    for _ in 0..rounds {
        parts = parts.wrapping_add(parts_of(bytes));
    }
    took(rt, start, parts)
}

// How many nanoseconds these rounds of `read` take.
fn reading(rt: &HostRuntime, bytes: &[u8], rounds: u64) -> io::Result<u64> {
    let start = Instant::now(rt)?;
    let mut lengths = 0_u64;
    for _ in 0..rounds {
        lengths = lengths.wrapping_add(length_read(rt.alloc(), bytes));
    }
    took(rt, start, lengths)
}

// How long what `read` finds is; 0 where that is nothing.
fn length_read(alloc: Global, bytes: &[u8]) -> u64 {
    match read(alloc, bytes) {
        Ok((_, _, length)) => length as u64,
        Err(_) => 0,
    }
}

// How many nanoseconds these rounds of `write` take, to new memory each time.
fn writing(rt: &HostRuntime, bytes: &[u8], rounds: u64) -> io::Result<u64> {
    match read(rt.alloc(), bytes) {
        Ok((tag, value, _)) => writing_of(rt, &tag, &value, rounds),
        Err(_) => Ok(u64::MAX),
    }
}

fn writing_of(rt: &HostRuntime, tag: &Tag, value: &Value, rounds: u64) -> io::Result<u64> {
    let start = Instant::now(rt)?;
    let mut lengths = 0_u64;
    for _ in 0..rounds {
        lengths = lengths.wrapping_add(length_written(rt.alloc(), tag, value));
    }
    took(rt, start, lengths)
}

// How long what `write` writes is; 0 where there was no memory.
fn length_written(alloc: Global, tag: &Tag, value: &Value) -> u64 {
    let mut out = Vec::new(alloc);
    match write(tag, value, &mut out) {
        Ok(()) => out.len() as u64,
        Err(_) => 0,
    }
}

// How many nanoseconds have passed since then; without end where nothing came of it.
fn took(rt: &HostRuntime, start: Instant, count: u64) -> io::Result<u64> {
    if count == 0 {
        return Ok(u64::MAX);
    }
    since(rt, start)
}
