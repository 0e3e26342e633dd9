//! One store or one keeper, call by call. A case is the bytes of a file in hex, `-` for none, behind `5:` if the fifth call of its disk fails, or `keeper:2,5` for a keeper
//! whose calls 2 and 5 fail, and then what is done, a word each:
//!
//! - `k07=3:ab+k08=`: a change that puts three octets ab under the key 07, and takes away what stands under 08;
//! - `c1618`: a change by its bytes;
//! - `x3kept`, `x3lost`, `x3torn`: the disk stops at that one of the writes and syncs to come, with this fate;
//! - `o`: the disk forgets what was done up to the latest sync;
//! - `r`: the disk is restarted if it has stopped, and the store recovered;
//! - `f`: the length of the file and the sum of its bytes, each times its place from 1 on, modulo 2^32;
//! - `d`: the file;
//! - `m`: the map, as its image: in hex, or if that is long, its length and sum.
//!
//! A case is told by its place among the lines, from 0 on. A store is recovered at first. Each time it is, its map is printed.

use crate::changes::change_of;
use crate::disks::{disk_of, restarted, stop};
use crate::shown::{Outcome, add_fault, add_map, add_outcome, add_sum};
use cases_page::Page;
use mt_durable::{Durable, Keeper, ListKeeper, has_room, read_change};
use mt_outside::MemDisk;
use mt_store::{MapForm, Maps, Store};
use std::alloc::{AllocError, Global};

type TestStore = Store<MemDisk, Maps>;

/// Plays a case and tells what is answered.
pub(crate) fn play(
    alloc: Global,
    page: &mut Page,
    place: u64,
    words: &[&str],
) -> Result<(), AllocError> {
    page.add_number(place);
    page.add(":");
    let [first, calls @ ..] = words else {
        return Ok(());
    };
    match first.strip_prefix("keeper:") {
        Some(fail) => play_keeper(alloc, page, fail, calls),
        None => play_store(alloc, page, disk_of(alloc, first)?, calls),
    }
}

// Makes the calls on the store of a disk, as long as there is one.
fn play_store(
    alloc: Global,
    page: &mut Page,
    disk: MemDisk,
    calls: &[&str],
) -> Result<(), AllocError> {
    let Some(mut store) = recovered(alloc, page, disk)? else {
        return Ok(());
    };
    for call in calls {
        if *call == "r" {
            let Some(next) = recovered(alloc, page, restarted(store.into_disk()))? else {
                return Ok(());
            };
            store = next;
        } else {
            called(alloc, page, &mut store, call)?;
        }
    }
    Ok(())
}

/// Recovers a store, and tells its map.
pub(crate) fn recovered<F: MapForm>(
    alloc: Global,
    page: &mut Page,
    disk: MemDisk,
) -> Result<Option<Store<MemDisk, F>>, AllocError> {
    match Store::recover(alloc, disk) {
        Ok((store, map)) => {
            add_map(alloc, page, &map)?;
            Ok(Some(store))
        }
        Err((_, fault)) => {
            add_fault(page, fault);
            Ok(None)
        }
    }
}

// A call other than a recovery.
fn called(
    alloc: Global,
    page: &mut Page,
    store: &mut TestStore,
    call: &str,
) -> Result<(), AllocError> {
    match call {
        "f" | "d" => add_bytes(page, call, store.journal().disk().bytes()),
        "o" => store.disk_mut().forget(),
        "m" => add_map(alloc, page, &store.image().map(alloc)?)?,
        _ => {
            if let Some(word) = call.strip_prefix("x") {
                stop(store.disk_mut(), word);
            } else {
                add_committed(alloc, page, store, call)?;
            }
        }
    }
    Ok(())
}

// The bytes of a file, or how many they are, and their sum.
fn add_bytes(page: &mut Page, call: &str, bytes: &[u8]) {
    page.add(" ");
    if call == "f" {
        add_sum(page, bytes);
    } else {
        page.add_hex(bytes);
    }
}

// Commits a change, and tells what became of it.
fn add_committed(
    alloc: Global,
    page: &mut Page,
    store: &mut TestStore,
    change: &str,
) -> Result<(), AllocError> {
    let outcome = committed(alloc, store, &change_of(alloc, change)?);
    add_outcome(page, outcome, store.faults());
    Ok(())
}

// Commits a change, if it is one and there is room.
fn committed(alloc: Global, store: &mut TestStore, change: &[u8]) -> Outcome {
    match store.image().has_room(alloc, change) {
        Ok(true) => Outcome::of(store.commit(change)),
        Ok(false) => Outcome::Full,
        Err(_) => Outcome::NotOne,
    }
}

// Makes the calls on a keeper.
fn play_keeper(
    alloc: Global,
    page: &mut Page,
    fail: &str,
    calls: &[&str],
) -> Result<(), AllocError> {
    let mut keeper = keeper_of(alloc, fail)?;
    for call in calls {
        if *call == "m" {
            add_map(alloc, page, keeper.map())?;
        } else {
            add_kept(alloc, page, &mut keeper, call)?;
        }
    }
    Ok(())
}

// A keeper in memory, whose calls of these numbers fail.
fn keeper_of(alloc: Global, fail: &str) -> Result<ListKeeper, AllocError> {
    let mut numbers = Vec::new(alloc);
    for word in fail.split(',') {
        numbers.push(word.parse::<u64>().unwrap_or(0))?;
    }
    ListKeeper::new(alloc, &Durable::new(alloc), &numbers)
}

// Commits a change to the keeper, and tells what became of it.
fn add_kept(
    alloc: Global,
    page: &mut Page,
    keeper: &mut ListKeeper,
    change: &str,
) -> Result<(), AllocError> {
    let outcome = kept(alloc, keeper, &change_of(alloc, change)?)?;
    add_outcome(page, outcome, keeper.faults());
    Ok(())
}

// Commits a change to the keeper, if it is one and there is room.
fn kept(alloc: Global, keeper: &mut ListKeeper, change: &[u8]) -> Result<Outcome, AllocError> {
    let Ok(entries) = read_change(alloc, change) else {
        return Ok(Outcome::NotOne);
    };
    if !has_room(alloc, keeper.map(), entries)? {
        return Ok(Outcome::Full);
    }
    Ok(Outcome::of(keeper.commit(change)))
}
