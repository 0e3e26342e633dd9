//! What other commands make of what a case has left: a replay of its record, and what is recovered of its disk.

use crate::cases::{Case, words_of};
use cases_page::no_case;
use mt_files::read_output;
use mt_model::SentList;
use mt_outside::{MemDisk, MemSink, MemSource};
use mt_top::run;
use std::alloc::{AllocError, Global};
use std::io;

/// What a replay of this record sends, from a new node with the configuration of the case.
pub(crate) fn replayed(alloc: Global, case: &Case<'_>, record: &[u8]) -> io::Result<SentList> {
    let mut disk = MemDisk::new(alloc, &[], &[])?;
    let words = "replay configuration record";
    let (status, out) = run_over(alloc, case, words, record, &mut disk)?;
    if status != 0 {
        return Err(no_case());
    }
    read_output(alloc, out.bytes()).ok().ok_or(no_case())
}

/// The status of `settle` over this disk with the configuration of the case, and what it writes.
pub(crate) fn settled(
    alloc: Global,
    case: &Case<'_>,
    disk: &mut MemDisk,
) -> Result<(u8, MemSink), AllocError> {
    run_over(alloc, case, "settle configuration journal", &[], disk)
}

// The status of these words over the configuration of the case, a recording and a disk, and what is written.
fn run_over(
    alloc: Global,
    case: &Case<'_>,
    words: &str,
    recording: &[u8],
    disk: &mut MemDisk,
) -> Result<(u8, MemSink), AllocError> {
    let words = words_of(alloc, words)?;
    let mut config = MemSource::new(alloc, case.text(), &[])?;
    let mut first = MemSource::new(alloc, recording, &[])?;
    let mut second = MemSource::new(alloc, &[], &[])?;
    let mut out = MemSink::new(alloc, &[])?;
    let status = run(
        alloc,
        &words,
        &mut config,
        &mut first,
        &mut second,
        disk,
        &mut out,
    );
    Ok((status, out))
}
