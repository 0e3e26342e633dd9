//! What goes to the journal of a node that plays, on a disk in memory: commits, and one in which the disk stops.

ghost use Rattle.std.specs.Prelude.{◌≡◌, ◌≢◌, ◌<◌, ◌≤◌, ◌^◌, List, [], None, Some, IfOk, IsTrue, OnErr, OnOk};
ghost use Rattle.mt_durable.specs.Keeping.{Committed, HasRoom, IsAdmitted, IsChange, WasOrCommitted};
ghost use Rattle.mt_durable.specs.Maps.{have_values, keys_ascend};
ghost use Rattle.mt_durable.specs.Reading.{Says};
ghost use Rattle.mt_durable.specs.Setting.{with_all};
ghost use Rattle.mt_durable.specs.declared.durable.Entry.{Entry};
ghost use Rattle.mt_grammar.specs.Grammar.{is_in_grammar};
ghost use Rattle.mt_keeping.specs.Laws.{MayCommit};
ghost use Rattle.mt_keeping.specs.States.{told_map};
ghost use Rattle.mt_whole.specs.mt_regained.Begun.{boot_in, ceiling_in};
ghost use Rattle.mt_store.specs.Leading.{map_left};
ghost use Rattle.mt_play.specs.Journal.{IsReady, Keeps, Rests};

use mt_durable::{Durable, Keeper, bytes_of_a_change_are_read};
use mt_grammar::kept_in;
use mt_keeping::{
    Store, journals_are_recovered, kept_maps_take_four_calls, states_may_be_committed,
};
use mt_outside::{Fate, MemDisk};
use std::alloc::{AllocError, Global};

// How many bytes a slot of the journal has for an image and the changes behind it, without those that frame the image.
const SLOT_ROOM: usize = 1_048_566;

// Behind so many bytes of changes the image is written. A recovery goes over the whole map for each change.
const MOST_CHANGES: usize = 1_024;

/// Commits a change, and lets the disk forget what is safe by then. Where many changes stand behind the image of the journal, it is
/// written anew, so that neither a recovery nor a long run's memory grows with what was committed before.
pub(crate) fn commit(store: &mut Store<MemDisk>, change: &[u8]) -> Result<(), AllocError>
    requires form { IsChange change.now }
    requires room { HasRoom change.now (Some (told_map store.old)) }
    requires admitted { IsAdmitted is_in_grammar change.now (Some (told_map store.old)) }
    ensures keeps { (entries : List Entry) → IsReady store.old → IsTrue (keys_ascend (told_map store.old)) → IsTrue (have_values (told_map store.old)) → Says entries change.now
        → OnOk result (Keeps store.new (with_all entries (told_map store.old))) }
    ensures part { OnErr result (WasOrCommitted change.now (Some (told_map store.old)) (Some (told_map store.new))) }
{
    commit_behind(store, change)?;
    compact_if_long(store)
}

// Commits a change behind the others.
fn commit_behind(store: &mut Store<MemDisk>, change: &[u8]) -> Result<(), AllocError>
    requires form { IsChange change.now }
    requires room { HasRoom change.now (Some (told_map store.old)) }
    requires admitted { IsAdmitted is_in_grammar change.now (Some (told_map store.old)) }
    ensures keeps { (entries : List Entry) → IsReady store.old → IsTrue (keys_ascend (told_map store.old)) → IsTrue (have_values (told_map store.old)) → Says entries change.now
        → OnOk result (Keeps store.new (with_all entries (told_map store.old))) }
    ensures committed { OnOk result (Committed change.now (Some (told_map store.old)) (Some (told_map store.new))) }
    ensures part { OnErr result (WasOrCommitted change.now (Some (told_map store.old)) (Some (told_map store.new))) }
    ensures in_use { OnOk result (store.new.rolled ≡ None) }
    ensures admitted { OnOk result (IsTrue (is_in_grammar store.new.store.image)) }
{
    states_may_be_committed();
    let Ok(()) = store.commit(change) else {
        return Err(AllocError);
    };
    let disk = store.disk_mut();
    disk.forget();
    // It has not stopped, so it only forgets where it was to stop.
    disk.restart();
    Ok(())
}

// Writes the image of the map in the place of the changes, where there are many.
fn compact_if_long(store: &mut Store<MemDisk>) -> Result<(), AllocError>
    requires in_use { store.old.rolled ≡ None }
    requires admitted { IsTrue (is_in_grammar store.old.store.image) }
    ensures keeps { (map : List Entry) → Keeps store.old map → OnOk result (Keeps store.new map) }
    ensures told { OnErr result (told_map store.new ≡ told_map store.old) }
{
    if !is_long(store) {
        return Ok(());
    }
    let Ok(()) = store.compact() else {
        return Err(AllocError);
    };
    store.disk_mut().forget();
    Ok(())
}

// Whether many changes stand behind the image.
fn is_long(store: &Store<MemDisk>) -> bool {
    let image = store.image().as_slice().len();
    !store.fits((SLOT_ROOM - MOST_CHANGES).saturating_sub(image))
}

/// The same where there is a change, and nothing where there is none.
pub(crate) fn commit_if_any(store: &mut Store<MemDisk>, change: &[u8]) -> Result<(), AllocError>
    requires { change.now ≢ [] → MayCommit change.now (told_map store.old) }
    ensures none { change.now ≡ [] → store.new ≡ store.old }
    ensures some { (entries : List Entry) → change.now ≢ [] → IsReady store.old → IsTrue (keys_ascend (told_map store.old)) → IsTrue (have_values (told_map store.old)) → Says entries change.now
        → OnOk result (Keeps store.new (with_all entries (told_map store.old))) }
    ensures part { OnErr result (WasOrCommitted change.now (Some (told_map store.old)) (Some (told_map store.new))) }
{
    if change.is_empty() {
        return Ok(());
    }
    commit(store, change)
}

/// Commits a change on a disk that stops at this one of the four calls, and restarts the disk. What it holds then leads to the map
/// with the change exactly where the third or the fourth call was the one, and all was kept.
pub(crate) fn commit_stopped(
    store: &mut Store<MemDisk>,
    change: &[u8],
    calls: u64,
    fate: Fate,
) -> Result<(), AllocError>
    requires form { IsChange change.now }
    requires room { HasRoom change.now (Some (told_map store.old)) }
    requires admitted { IsAdmitted is_in_grammar change.now (Some (told_map store.old)) }
    requires within { calls ≤ 4 }
    ensures { (entries map : List Entry) → Keeps store.old map → map ≢ [] → Says entries change.now
        → OnOk result (Rests store.new (map_left 4 (record { calls = calls; fate = fate }) map (with_all entries map))) }
{
    journals_are_recovered();
    kept_maps_take_four_calls();
    bytes_of_a_change_are_read();
    store.disk_mut().stop_at(calls, fate);
    let Err(_) = store.commit(change) else {
        return Err(AllocError);
    };
    let disk = store.disk_mut();
    if !disk.stopped() {
        // Another call failed before, for want of memory.
        return Err(AllocError);
    }
    disk.restart();
    Ok(())
}

/// Whether a node may start with a map of which a boot may be counted and in which there is room for event numbers.
pub(crate) fn counts_one_more(alloc: Global, map: &Durable) -> Result<bool, AllocError>
    ensures { IfOk result (λ yes. IsTrue yes → (boot_in map.now < 2 ^ 31) × (ceiling_in map.now ≤ 2 ^ 61)) }
{
    let Some(kept) = kept_in(alloc, map)? else {
        return Ok(false);
    };
    let boot = kept.boot.unwrap_or(0);
    let ceiling = kept.ceiling.unwrap_or(0);
    Ok(boot < (1 << 31) && ceiling <= (1 << 61))
}
