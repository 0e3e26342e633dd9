//! The grammar of states. A case is its name, and a map as the bytes of its image in hex. A name says what is tried, and
//! ends in `in` or `out`; what must be printed is worked out by a model outside of the program, which makes each map and
//! judges its bytes once more. Where the name begins with `file`, the bytes are those of a journal's file, and behind them
//! may stand changes to commit; printed are the map that is recovered, or the place from which on it is no journal, and
//! what became of each change.

use crate::changes::map_of;
use crate::disks::disk_of;
use crate::shown::{Outcome, add_map, add_outcome};
use crate::stores::recovered;
use cases_page::{Page, hex_bytes, word};
use mt_durable::Keeper;
use mt_grammar::{States, is_in_grammar};
use mt_outside::MemDisk;
use mt_store::{MapsOf, Store};
use std::alloc::{AllocError, Global};

type StateStore = Store<MemDisk, MapsOf<States>>;

/// Plays a case and tells what is answered.
pub(crate) fn play(alloc: Global, page: &mut Page, words: &[&str]) -> Result<(), AllocError> {
    let name = word(words, 0);
    page.add(name);
    page.add(":");
    if name.starts_with("file") {
        return play_store(alloc, page, words);
    }
    page.add(told(alloc, word(words, 1))?);
    Ok(())
}

// Whether the map of an image is in the grammar, in a word.
fn told(alloc: Global, image: &str) -> Result<&'static str, AllocError> {
    let Some(map) = map_of(alloc, &[image])? else {
        return Ok(" no image");
    };
    Ok(if is_in_grammar(alloc, &map)? {
        " in"
    } else {
        " out"
    })
}

// Recovers a store from a file, and commits changes, a word each: those behind the case's name and the file.
fn play_store(alloc: Global, page: &mut Page, words: &[&str]) -> Result<(), AllocError> {
    let disk = disk_of(alloc, word(words, 1))?;
    let Some(mut store) = recovered::<MapsOf<States>>(alloc, page, disk)? else {
        return Ok(());
    };
    for place in 2..words.len() {
        add_committed(alloc, page, &mut store, word(words, place))?;
    }
    Ok(())
}

// Commits a change in hex, and tells the map to which it led, or what became of it.
fn add_committed(
    alloc: Global,
    page: &mut Page,
    store: &mut StateStore,
    change: &str,
) -> Result<(), AllocError> {
    match committed(alloc, store, &hex_bytes(alloc, change)) {
        Outcome::Done => add_map(alloc, page, &store.image().map(alloc)?),
        outcome => {
            add_outcome(page, outcome, store.faults());
            Ok(())
        }
    }
}

// Commits a change, if it is one that leads to a state, and there is room.
fn committed(alloc: Global, store: &mut StateStore, change: &[u8]) -> Outcome {
    let Ok(true) = store.image().is_admitted::<States>(alloc, change) else {
        return Outcome::NotOne;
    };
    let Ok(true) = store.image().has_room(alloc, change) else {
        return Outcome::Full;
    };
    Outcome::of(store.commit(change))
}
