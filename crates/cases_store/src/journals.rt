//! One journal, call by call. A case is the bytes of a file in hex, `-` for none, and then what is done, a word each:
//!
//! - `s16..18`: an image; `a17..18`: a change that may follow each list, where it fits; `b60000`: a change of so many bytes, where it fits;
//! - `x3kept`, `x3lost`, `x3torn`: the disk stops at that one of the writes and syncs to come, with this fate;
//! - `r`: the disk is restarted if it has stopped, and the journal recovered;
//! - `w1020102=5a17`: these bytes are written into the file at this place, and are safe;
//! - `d`: the first eleven bytes of the file, `d48` the first 48.
//!
//! The journal is recovered at first, and each time it is, its list is printed.

use crate::disks::{disk_of, restarted, stop};
use crate::form::{TestForm, is_change, is_image};
use crate::shown::{Outcome, add_fault, add_outcome};
use cases_page::{Page, hex_bytes};
use mt_journal::Journal;
use mt_outside::{Disk, MemDisk};
use mt_tlv::Bytes;
use std::alloc::{AllocError, Global};

type TestJournal = Journal<MemDisk, TestForm>;

// The length of an image or a change at most.
const LONGEST: usize = 65_536;

/// Plays a case and tells what is answered.
pub(crate) fn play(
    alloc: Global,
    page: &mut Page,
    case: &str,
    words: &[&str],
) -> Result<(), AllocError> {
    page.add(case);
    page.add(":");
    match words {
        [file, calls @ ..] => play_on(alloc, page, disk_of(alloc, file)?, calls),
        [] => Ok(()),
    }
}

// Makes the calls on the journal of a disk, as long as there is one.
fn play_on(
    alloc: Global,
    page: &mut Page,
    disk: MemDisk,
    calls: &[&str],
) -> Result<(), AllocError> {
    let Some(mut journal) = recovered(alloc, page, disk) else {
        return Ok(());
    };
    for call in calls {
        if *call == "r" {
            let Some(next) = recovered(alloc, page, restarted(journal.into_disk())) else {
                return Ok(());
            };
            journal = next;
        } else {
            called(alloc, page, &mut journal, call)?;
        }
    }
    Ok(())
}

// Recovers a journal, and tells its list, of each item the first three bytes.
fn recovered(alloc: Global, page: &mut Page, disk: MemDisk) -> Option<TestJournal> {
    let (journal, list) = match Journal::recover(alloc, disk) {
        Ok(found) => found,
        Err((_, fault)) => {
            add_fault(page, fault);
            return None;
        }
    };
    page.add(" [");
    for item in &list {
        add_front(page, item.as_slice(), 3);
        page.add(",");
    }
    page.add("]");
    Some(journal)
}

fn add_front(page: &mut Page, bytes: &[u8], count: usize) {
    page.add_hex(&bytes[..bytes.len().min(count)]);
}

// A call other than a recovery.
fn called(
    alloc: Global,
    page: &mut Page,
    journal: &mut TestJournal,
    call: &str,
) -> Result<(), AllocError> {
    if let Some(word) = call.strip_prefix("x") {
        stop(journal.disk_mut(), word);
    } else if let Some(word) = call.strip_prefix("w") {
        written(alloc, page, journal.disk_mut(), word);
    } else if let Some(word) = call.strip_prefix("d") {
        page.add(" ");
        add_front(
            page,
            journal.disk().bytes(),
            word.parse::<usize>().unwrap_or(11),
        );
    } else {
        let outcome = committed(alloc, journal, call)?;
        add_outcome(page, outcome, journal.disk().faults());
    }
    Ok(())
}

// A call that puts an image in the place of all before it, or adds a change.
fn committed(alloc: Global, journal: &mut TestJournal, call: &str) -> Result<Outcome, AllocError> {
    if let Some(word) = call.strip_prefix("s") {
        return Ok(switched(journal, &hex_bytes(alloc, word)));
    }
    Ok(appended(journal, &*change_of(alloc, call)?))
}

// The change of a call that adds one.
fn change_of(alloc: Global, call: &str) -> Result<Vec<u8>, AllocError> {
    if let Some(word) = call.strip_prefix("a") {
        return Ok(hex_bytes(alloc, word));
    }
    let count = call.trim_start_matches('b').parse::<usize>().unwrap_or(0);
    let mut change = Vec::new(alloc);
    change.resize(count, 0x17)?;
    Ok(change)
}

// Writes bytes into the file, behind the journal's back.
fn written(alloc: Global, page: &mut Page, disk: &mut MemDisk, word: &str) {
    let (at, bytes) = word.split_once('=').unwrap_or((word, ""));
    let at = at.parse::<u64>().unwrap_or(0);
    if disk.write_at(at, &hex_bytes(alloc, bytes)).is_err() || disk.sync().is_err() {
        page.add(" not written");
    }
}

/// Puts an image in the place of all before it, if it is one.
pub(crate) fn switched<D: Disk>(journal: &mut Journal<D, TestForm>, image: &[u8]) -> Outcome {
    if !is_image(image) || image.len() > LONGEST {
        return Outcome::NotOne;
    }
    Outcome::of(journal.switch(image))
}

/// Adds a change, if it is one that may follow each list, where it fits.
pub(crate) fn appended<D: Disk>(journal: &mut Journal<D, TestForm>, change: &[u8]) -> Outcome {
    if !is_change(change) || change.len() > LONGEST {
        return Outcome::NotOne;
    }
    if !journal.fits(change.len()) {
        return Outcome::Full;
    }
    Outcome::of(journal.append(change))
}
