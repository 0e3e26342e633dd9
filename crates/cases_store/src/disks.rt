//! Disks in memory.

use cases_page::hex_bytes;
use mt_outside::{Fate, MemDisk};
use std::alloc::{AllocError, Global};

/// A disk with the bytes of a file in hex, `-` for none. Behind a number, as in `5:-`, its call of that number fails.
pub(crate) fn disk_of(alloc: Global, file: &str) -> Result<MemDisk, AllocError> {
    let (call, bytes) = file.split_once(':').unwrap_or(("0", file));
    let bytes = hex_bytes(alloc, bytes.trim_start_matches('-'));
    MemDisk::new(alloc, &bytes, &[call.parse::<u64>().unwrap_or(0)])
}

/// The disk, restarted if it has stopped.
pub(crate) fn restarted(mut disk: MemDisk) -> MemDisk {
    if disk.stopped() {
        disk.restart();
    }
    disk
}

/// Sets where the disk stops, as `3torn` says.
pub(crate) fn stop(disk: &mut MemDisk, word: &str) {
    for fate in [Fate::Kept, Fate::Lost, Fate::Torn] {
        if let Some(calls) = word.strip_suffix(fate.text()) {
            disk.stop_at(calls.parse::<u64>().unwrap_or(0), fate);
        }
    }
}
