//! Answers, as they are printed.

use cases_page::Page;
use mt_durable::{Durable, Entry};
use mt_journal::JournalFault;
use mt_tlv::{Tag, write};
use sha2::{Digest, Sha256};
use std::alloc::{AllocError, Global};

// How many bytes of a file are printed in hex at most, and how many in front of a longer one.
const WHOLE: usize = 4096;

const FRONT: usize = 64;

/// Adds the lines of a text, with ` | ` between them.
pub(crate) fn add_lines(alloc: Global, page: &mut Page, text: &[u8]) -> Result<(), AllocError> {
    let text = String::from_utf8_lossy(alloc, text)?;
    for (place, line) in text.as_str().lines().enumerate() {
        if place > 0 {
            page.add(" | ");
        }
        page.add(line);
    }
    Ok(())
}

/// Adds a map, key by key with its value.
pub(crate) fn add_map(alloc: Global, page: &mut Page, map: &Durable) -> Result<(), AllocError> {
    page.add("map");
    for entry in map.as_slice() {
        add_entry(alloc, page, entry)?;
    }
    Ok(())
}

// A key and the bytes of its value, both in hex.
fn add_entry(alloc: Global, page: &mut Page, entry: &Entry) -> Result<(), AllocError> {
    page.add(" | K ");
    page.add_hex(entry.key.as_slice());
    page.add(" ");
    if let Some(value) = &entry.value {
        let mut bytes = Vec::new(alloc);
        write(&Tag::Anonymous, value, &mut bytes)?;
        page.add_hex(&bytes);
    }
    Ok(())
}

/// Adds why nothing was recovered.
pub(crate) fn add_fault(page: &mut Page, fault: JournalFault) {
    match fault {
        JournalFault::NotAJournal(place) => {
            page.add("fault 9 journal ");
            page.add_number(place);
        }
        JournalFault::Disk => page.add("fault 8 disk"),
        JournalFault::Memory => page.add("fault 7 memory"),
    }
}

/// Adds how many bytes there are, and the bytes in hex, `-` for none; of many bytes the front and the digest of all.
pub(crate) fn add_bytes(page: &mut Page, bytes: &[u8]) {
    page.add_number(bytes.len() as u64);
    page.add(" ");
    if bytes.is_empty() {
        page.add("-");
    } else if bytes.len() <= WHOLE {
        page.add_hex(bytes);
    } else {
        let (front, _) = bytes.split_at(FRONT.min(bytes.len()));
        page.add_hex(front);
        page.add(" ");
        page.add_hex(&digest(bytes));
    }
}

fn digest(bytes: &[u8]) -> [u8; 32] {
    let mut hasher = Sha256::new();
    hasher.update(bytes);
    hasher.finalize()
}
