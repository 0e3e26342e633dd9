//! A node's durable state on a disk. A case is `NAME CONFIGURATION JOURNAL` and what is done, a word each: the
//! configuration is the name of a file, and the journal the file on the disk (`disks`). The state is recovered, and then:
//!
//! - `c1618`: a change is committed, by its bytes;
//! - `x3:k`, `x3:l`, `x3:t`: the disk stops at that one of the writes and syncs to come, 0 at once, and what was written since
//!   the latest sync is kept, lost or torn;
//! - `r`: the disk is restarted, and the state recovered; `R`: the same, in place;
//! - `b`: the bytes on the disk.
//!
//! Told are the map of each recovery, or why there is none, what became of each commit, and the bytes, with ` | ` between
//! them.

use crate::answers::{add_bytes, add_fault, add_map};
use crate::disks::{disk_of, restarted, stop};
use cases_page::{Page, hex_bytes, no_case};
use mt_durable::{Keeper, read_change};
use mt_files::config as configuration;
use mt_grammar::States;
use mt_keeping::Store;
use mt_model::Config;
use mt_outside::{Failed, MemDisk};
use std::alloc::{AllocError, Global};
use std::{fs, io};

type StateStore = Store<MemDisk>;

/// Plays a case and tells what is answered.
pub(crate) fn play(rt: &HostRuntime, page: &mut Page, case: &str) -> io::Result<()> {
    let alloc = rt.alloc();
    let words: Vec<&str> = case.split(' ').collect(alloc)?;
    let [name, config, journal, calls @ ..] = words.as_slice() else {
        return Err(no_case());
    };
    let config = fs::read(rt, config)?;
    let disk = disk_of(alloc, journal, "-")?;
    page.add(name);
    page.add(" = ");
    play_with(alloc, page, &config, disk, calls)?;
    page.end_line();
    Ok(())
}

fn play_with(
    alloc: Global,
    page: &mut Page,
    config: &[u8],
    disk: MemDisk,
    calls: &[&str],
) -> io::Result<()> {
    let Ok(config) = configuration(alloc, config) else {
        return Err(no_case());
    };
    play_on(alloc, page, &config, disk, calls)
}

// Makes the calls on the state on a disk, as long as there is one.
fn play_on(
    alloc: Global,
    page: &mut Page,
    config: &Config,
    disk: MemDisk,
    calls: &[&str],
) -> io::Result<()> {
    let Some(mut store) = recovered(alloc, page, config, disk)? else {
        return Ok(());
    };
    for call in calls {
        if *call == "r" {
            page.add(" | ");
            let Some(next) = recovered(alloc, page, config, restarted(store.into_disk()))? else {
                return Ok(());
            };
            store = next;
        } else if *call == "R" {
            page.add(" | ");
            store.disk_mut().restart();
            if !reopened(alloc, page, config, &mut store)? {
                return Ok(());
            }
        } else {
            called(alloc, page, &mut store, call)?;
        }
    }
    Ok(())
}

// Recovers the state on a disk, and tells its map.
fn recovered(
    alloc: Global,
    page: &mut Page,
    config: &Config,
    disk: MemDisk,
) -> Result<Option<StateStore>, AllocError> {
    match Store::recover(alloc, disk, config) {
        Ok((store, map)) => {
            add_map(alloc, page, &map)?;
            Ok(Some(store))
        }
        Err((_, fault)) => {
            add_fault(page, fault);
            Ok(None)
        }
    }
}

// Recovers the state again on the disk that the store has, and tells its map; whether there is one.
fn reopened(
    alloc: Global,
    page: &mut Page,
    config: &Config,
    store: &mut StateStore,
) -> Result<bool, AllocError> {
    match store.reopen(alloc, config) {
        Ok(map) => {
            add_map(alloc, page, &map)?;
            Ok(true)
        }
        Err(fault) => {
            add_fault(page, fault);
            Ok(false)
        }
    }
}

// A call other than a recovery.
fn called(alloc: Global, page: &mut Page, store: &mut StateStore, call: &str) -> io::Result<()> {
    if let Some(word) = call.strip_prefix("x") {
        return stop(store.disk_mut(), word);
    }
    page.add(" | ");
    if let Some(change) = call.strip_prefix("c") {
        page.add(committed(alloc, store, &hex_bytes(alloc, change)));
    } else {
        add_bytes(page, store.disk_mut().bytes());
    }
    Ok(())
}

// Commits a change, if it is one that leads to a state, and there is room.
fn committed(alloc: Global, store: &mut StateStore, change: &[u8]) -> &'static str {
    if read_change(alloc, change).is_err() {
        return "no change";
    }
    let Ok(true) = store.told().has_room(alloc, change) else {
        return "no room";
    };
    let Ok(true) = store.told().is_admitted::<States>(alloc, change) else {
        return "not admitted";
    };
    outcome(store.commit(change))
}

fn outcome(done: Result<(), Failed>) -> &'static str {
    match done {
        Ok(()) => "ok",
        Err(Failed) => "failed",
    }
}
