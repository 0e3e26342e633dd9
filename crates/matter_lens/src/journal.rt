//! What a journal keeps, in words. The file is opened for reading alone: it is neither made nor changed.

use crate::faults::{Fault, Which};
use mt_durable::Durable;
use mt_grammar::{MapContents, kept_in};
use mt_journal::JournalFault;
use mt_keeping::Store;
use mt_lens::{Page, show_kept};
use mt_model::Config;
use mt_os::FileDisk;
use std::alloc::Global;
use std::fs::File;
use std::io::{self, IsTerminal, Write};

/// Shows what the journal of this name keeps, or where it keeps nothing what a node with the configuration begins with: all
/// of that, or what is of the one fabric.
pub(crate) fn tell(
    rt: &HostRuntime,
    name: &str,
    config: &Config,
    fabric: Option<u8>,
) -> Result<(), Fault> {
    let alloc = rt.alloc();
    let (store, beginning) = recovered(alloc, opened(rt, name)?, config)?;
    let map = store.image().map(alloc)?;
    let has_started = !map.as_slice().is_empty();
    let contents = contents_of(alloc, if has_started { &map } else { &beginning })?;
    let mut page = Page::new(alloc, rt.stdout().is_terminal());
    show_kept(&mut page, &contents, has_started, fabric);
    match io::writer(rt).write_all(page.whole()?) {
        Ok(()) => Ok(()),
        Err(_) => Err(Fault::Unwritten),
    }
}

// A disk over the file of this name.
fn opened(rt: &HostRuntime, name: &str) -> Result<FileDisk, Fault> {
    match File::open(rt, name) {
        Ok(file) if !is_folder(&file) => Ok(FileDisk::new(Some(file))),
        _ => Err(Fault::Unread(Which::Journal)),
    }
}

fn is_folder(file: &File) -> bool {
    match file.metadata() {
        Ok(metadata) => metadata.is_dir(),
        Err(_) => false,
    }
}

// The store, with the map from which a node goes on.
fn recovered(
    alloc: Global,
    disk: FileDisk,
    config: &Config,
) -> Result<(Store<FileDisk>, Durable), Fault> {
    match Store::recover(alloc, disk, config) {
        Ok(found) => Ok(found),
        Err((_, JournalFault::Disk)) => Err(Fault::Disk),
        Err((_, JournalFault::NotAJournal(place))) => Err(Fault::NotAJournal(place)),
        Err((_, JournalFault::Memory)) => Err(Fault::Memory),
    }
}

// What a map of a store keeps. What is recovered is a state's, so that no other comes here.
fn contents_of(alloc: Global, map: &Durable) -> Result<MapContents, Fault> {
    match kept_in(alloc, map)? {
        Some(contents) => Ok(contents),
        None => Err(Fault::NotAJournal(0)),
    }
}
