//! Answers, as they are printed.

use cases_page::Page;
use mt_durable::{Durable, write_image};
use mt_journal::JournalFault;
use mt_outside::Failed;
use std::alloc::{AllocError, Global};

// How many bytes are printed in hex at most.
const FEW: usize = 40;

/// What became of a commit.
#[derive(Clone, Copy)]
pub(crate) enum Outcome {
    /// The bytes are nothing that may be committed here.
    NotOne,
    /// There is no room for them.
    Full,
    Done,
    Failed,
}

impl Outcome {
    /// Of a commit that was made.
    pub(crate) fn of(done: Result<(), Failed>) -> Self {
        match done {
            Ok(()) => Outcome::Done,
            Err(Failed) => Outcome::Failed,
        }
    }
}

/// Adds what became of a commit, and where it failed how many calls have.
pub(crate) fn add_outcome(page: &mut Page, outcome: Outcome, faults: u64) {
    match outcome {
        Outcome::NotOne => page.add(" none"),
        Outcome::Full => page.add(" full"),
        Outcome::Done => page.add(" ok"),
        Outcome::Failed => {
            page.add(" failed ");
            page.add_number(faults);
        }
    }
}

/// Adds why nothing was recovered.
pub(crate) fn add_fault(page: &mut Page, fault: JournalFault) {
    match fault {
        JournalFault::NotAJournal(place) => {
            page.add(" no journal ");
            page.add_number(place);
        }
        JournalFault::Disk => page.add(" fault"),
        JournalFault::Memory => page.add(" no memory"),
    }
}

/// Adds a map, as its image: in hex, or if that is long, its length and sum.
pub(crate) fn add_map(alloc: Global, page: &mut Page, map: &Durable) -> Result<(), AllocError> {
    let mut image = Vec::new(alloc);
    write_image(alloc, map, &mut image)?;
    page.add(" ");
    if image.len() <= FEW {
        page.add_hex(&image);
    } else {
        add_sum(page, &image);
    }
    Ok(())
}

/// Adds the length of bytes, and their sum, each times its place from 1 on, modulo 2^32.
pub(crate) fn add_sum(page: &mut Page, bytes: &[u8]) {
    let mut sum = 0u32;
    let mut place = 0u32;
    for byte in bytes {
        place = place.wrapping_add(1);
        sum = sum.wrapping_add(place.wrapping_mul(u32::from(*byte)));
    }
    page.add_number(bytes.len() as u64);
    page.add("/");
    page.add_number(u64::from(sum));
}
