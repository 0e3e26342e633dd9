//! Comparisons of two recordings by what a fabric sees of them.

use crate::narrow::NarrowSink;
use crate::runs::{Endless, output, recording, source, tell_ended, words_of};
use cases_page::{Page, word};
use mt_outside::MemDisk;
use mt_top::run;
use std::alloc::{AllocError, Global};
use std::{fs, io};

/// Tells what a run answers and writes that is given two recordings. A case is
/// `NAME|WORDS|CONFIGURATION|FIRST|SECOND|FAILS|FAILS|FAILS|FAILS|BYTES`: the numbers of the calls that fail, of
/// the configuration's source, of the first recording's, of the second's, of the output, and how many bytes the
/// output takes a call. The configuration is the name of a file; in a recording `/` ends a line. The second can be
/// `endless`.
pub(crate) fn tell(rt: &HostRuntime, page: &mut Page, case: &str) -> io::Result<()> {
    let alloc = rt.alloc();
    let words: Vec<&str> = case.split('|').collect(alloc)?;
    let bytes = fs::read(rt, word(&words, 2))?;
    let mut out = output(alloc, word(&words, 8), word(&words, 9))?;
    let status = if word(&words, 4) == "endless" {
        with_endless(alloc, &bytes, &words, &mut out)?
    } else {
        with_second(alloc, &bytes, &words, &mut out)?
    };
    tell_ended(page, word(&words, 0), status, out.inner.bytes());
    Ok(())
}

fn with_endless(
    alloc: Global,
    bytes: &[u8],
    words: &[&str],
    out: &mut NarrowSink,
) -> Result<u8, AllocError> {
    let asked = words_of(alloc, word(words, 1))?;
    let mut config = source(alloc, bytes, word(words, 5))?;
    let mut first = recording(alloc, word(words, 3), word(words, 6))?;
    let mut disk = MemDisk::new(alloc, &[], &[])?;
    Ok(run(
        alloc,
        &asked,
        &mut config,
        &mut first,
        &mut Endless,
        &mut disk,
        out,
    ))
}

fn with_second(
    alloc: Global,
    bytes: &[u8],
    words: &[&str],
    out: &mut NarrowSink,
) -> Result<u8, AllocError> {
    let asked = words_of(alloc, word(words, 1))?;
    let mut config = source(alloc, bytes, word(words, 5))?;
    let mut first = recording(alloc, word(words, 3), word(words, 6))?;
    let mut second = recording(alloc, word(words, 4), word(words, 7))?;
    let mut disk = MemDisk::new(alloc, &[], &[])?;
    Ok(run(
        alloc,
        &asked,
        &mut config,
        &mut first,
        &mut second,
        &mut disk,
        out,
    ))
}
