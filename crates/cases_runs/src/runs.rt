//! Runs of the program.

ghost use Rattle.std.specs.Prelude.{None};

use crate::narrow::NarrowSink;
use crate::numbers::numbers;
use cases_page::{Page, word};
use mt_files::config as configuration;
use mt_model::Config;
use mt_outside::{Failed, MemDisk, MemSink, MemSource, Source};
use mt_top::{replay_with, run};
use std::alloc::{AllocError, Global};
use std::{fs, io};

/// A source that never ends.
#[derive(Drop)]
pub(crate) struct Endless;

impl Source for Endless {
    ghost left = { λ _. None };

    ghost faults = { λ _. 0 };

    fn read(&mut self, into: &mut [u8]) -> Result<usize, Failed> {
        Ok(into.len())
    }
}

/// Tells what a run answers and writes; `..` stands behind an output that was cut off in a line. A case is
/// `NAME|WORDS|CONFIGURATION|RECORDING|FAILS|FAILS|FAILS|BYTES`: the numbers of the calls that fail, of the
/// configuration's source, of the recording's, of the output, and how many bytes the output takes a call. The
/// configuration is the name of a file; in the recording `/` ends a line, and `3*` in front of a line says how many times it
/// stands there. Either can be `endless`. Where the words are `in hand` there are none, and the configuration is in hand.
pub(crate) fn tell(rt: &HostRuntime, page: &mut Page, case: &str) -> io::Result<()> {
    let alloc = rt.alloc();
    let words: Vec<&str> = case.split('|').collect(alloc)?;
    if word(&words, 1) == "in hand" {
        return in_hand(rt, page, &words);
    }
    asked_in_words(rt, page, &words)
}

fn in_hand(rt: &HostRuntime, page: &mut Page, words: &[&str]) -> io::Result<()> {
    let bytes = fs::read(rt, word(words, 2))?;
    match configuration(rt.alloc(), &bytes) {
        Ok(config) => tell_replayed(rt.alloc(), page, &config, words)?,
        Err(fault) => {
            page.add(word(words, 0));
            page.add(": ");
            page.add_shown(&fault);
            page.end_line();
        }
    }
    Ok(())
}

fn tell_replayed(
    alloc: Global,
    page: &mut Page,
    config: &Config,
    words: &[&str],
) -> Result<(), AllocError> {
    let mut out = output(alloc, word(words, 6), word(words, 7))?;
    let status = replayed(alloc, config, words, &mut out)?;
    tell_ended(page, word(words, 0), status, out.inner.bytes());
    Ok(())
}

fn replayed(
    alloc: Global,
    config: &Config,
    words: &[&str],
    out: &mut NarrowSink,
) -> Result<u8, AllocError> {
    if word(words, 3) == "endless" {
        return Ok(replay_with(alloc, config, &mut Endless, out));
    }
    let mut first = recording(alloc, word(words, 3), word(words, 5))?;
    Ok(replay_with(alloc, config, &mut first, out))
}

fn asked_in_words(rt: &HostRuntime, page: &mut Page, words: &[&str]) -> io::Result<()> {
    let alloc = rt.alloc();
    let mut out = output(alloc, word(words, 6), word(words, 7))?;
    let status = if word(words, 2) == "endless" {
        over_endless(alloc, words, &mut out)?
    } else {
        let bytes = fs::read(rt, word(words, 2))?;
        with_words(alloc, &bytes, words, &mut out)?
    };
    tell_ended(page, word(words, 0), status, out.inner.bytes());
    Ok(())
}

fn over_endless(alloc: Global, words: &[&str], out: &mut NarrowSink) -> Result<u8, AllocError> {
    let asked = words_of(alloc, word(words, 1))?;
    let mut first = recording(alloc, word(words, 3), word(words, 5))?;
    let mut second = MemSource::new(alloc, &[], &[])?;
    let mut disk = MemDisk::new(alloc, &[], &[])?;
    Ok(run(
        alloc,
        &asked,
        &mut Endless,
        &mut first,
        &mut second,
        &mut disk,
        out,
    ))
}

fn with_words(
    alloc: Global,
    bytes: &[u8],
    words: &[&str],
    out: &mut NarrowSink,
) -> Result<u8, AllocError> {
    let asked = words_of(alloc, word(words, 1))?;
    let mut config = source(alloc, bytes, word(words, 4))?;
    let mut first = recording(alloc, word(words, 3), word(words, 5))?;
    let mut second = MemSource::new(alloc, &[], &[])?;
    let mut disk = MemDisk::new(alloc, &[], &[])?;
    Ok(run(
        alloc,
        &asked,
        &mut config,
        &mut first,
        &mut second,
        &mut disk,
        out,
    ))
}

/// The source of these bytes.
pub(crate) fn source(alloc: Global, bytes: &[u8], fails: &str) -> Result<MemSource, AllocError> {
    let fails = numbers(alloc, fails)?;
    MemSource::new(alloc, bytes, &fails)
}

/// The source of a recording as it is spelled in a case.
pub(crate) fn recording(alloc: Global, text: &str, fails: &str) -> Result<MemSource, AllocError> {
    let mut lines = String::new(alloc);
    for line in text.split('/') {
        let (times, line) = line.split_once('*').unwrap_or(("1", line));
        for _ in 0..times.parse::<usize>().unwrap_or(1) {
            lines.push_str(line)?;
            lines.push_str("\n")?;
        }
    }
    // What stands behind the last `/` has no end.
    let text = lines.as_str().strip_suffix("\n").unwrap_or("");
    source(alloc, text.as_bytes(), fails)
}

/// An output that takes so many bytes a call, and as many as there are where that is no number.
pub(crate) fn output(alloc: Global, fails: &str, most: &str) -> Result<NarrowSink, AllocError> {
    let fails = numbers(alloc, fails)?;
    Ok(NarrowSink {
        inner: MemSink::new(alloc, &fails)?,
        most: most.parse::<usize>().unwrap_or(usize::MAX),
    })
}

/// The words of a command line.
pub(crate) fn words_of(alloc: Global, text: &str) -> Result<Vec<String>, AllocError> {
    let mut words = Vec::new(alloc);
    for word in text.split_whitespace() {
        words.push(String::from_str(alloc, word)?)?;
    }
    Ok(words)
}

/// Tells the status of a run and what it wrote; `..` stands behind an output that was cut off in a line.
pub(crate) fn tell_ended(page: &mut Page, name: &str, status: u8, output: &[u8]) {
    page.add(name);
    page.add(": ");
    page.add_number(u64::from(status));
    page.end_line();
    page.add_lossy(output);
    match output {
        [.., b'\n'] | [] => {}
        _ => page.line(".."),
    }
}
