//! The disks of the cases. A file is hex in pieces with `,` between them, or `-` where it is empty; a piece may say with
//! `*` how many times it stands there.

use cases_page::{no_case, pieces};
use mt_outside::{Fate, MemDisk};
use std::alloc::{AllocError, Global};
use std::io;

/// A disk with the bytes of a file, whose calls of these numbers fail, from 1, with `,` between them; `-` for none.
pub(crate) fn disk_of(alloc: Global, file: &str, fails: &str) -> io::Result<MemDisk> {
    let bytes = pieces(alloc, file)?;
    let fails = numbers(alloc, fails)?;
    Ok(MemDisk::new(alloc, &bytes, &fails)?)
}

fn numbers(alloc: Global, words: &str) -> Result<Vec<u64>, AllocError> {
    let mut all = Vec::new(alloc);
    for word in words.split(',') {
        if let Ok(number) = word.parse::<u64>() {
            all.push(number)?;
        }
    }
    Ok(all)
}

/// Sets where the disk stops, as `3:t` says: at which of the writes and syncs to come, and with which fate.
pub(crate) fn stop(disk: &mut MemDisk, word: &str) -> io::Result<()> {
    let Some((calls, fate)) = word.split_once(':') else {
        return Err(no_case());
    };
    let calls = calls.parse::<u64>().ok().ok_or(no_case())?;
    disk.stop_at(calls, fate_of(fate)?);
    Ok(())
}

fn fate_of(word: &str) -> io::Result<Fate> {
    match word {
        "k" => Ok(Fate::Kept),
        "l" => Ok(Fate::Lost),
        "t" => Ok(Fate::Torn),
        _ => Err(no_case()),
    }
}

/// The disk, restarted.
pub(crate) fn restarted(mut disk: MemDisk) -> MemDisk {
    disk.restart();
    disk
}
