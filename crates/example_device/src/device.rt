//! A node beside its journal, on any disk.

ghost use Rattle.std.specs.Prelude.{◌≡◌, ◌<◌, ◌≤◌, ◌^◌, ℕ, Some, false, nat_lt, true, IfOk, IsTrue, OnErr};
ghost use Rattle.std.specs.List.{list_all};
ghost use Rattle.mt_model.specs.texts.Contents.{contents_of};
ghost use Rattle.mt_regained.specs.Begun.{MayStart, boot_in, ceiling_in};
ghost use Rattle.mt_regained.specs.Laws.{is_of_bytes};
ghost use Rattle.mt_regained.specs.Reopened.{reopened_map};
ghost use Rattle.mt_runs.specs.Lines.{is_stop, sent};
ghost use Rattle.mt_runs.specs.Whole.{Whole as Told};
ghost use Rattle.mt_whole.specs.Plan.{given_to};
ghost use Rattle.mt_whole.specs.Talks.{IsWholeOf};

use mt_durable::{ChangeFault, Durable, Entry, Keeper};
use mt_grammar::{States, kept_in};
use mt_journal::JournalFault;
use mt_keeping::Store;
use mt_model::{Config, Event, SentList, Verdicts};
use mt_outside::Disk;
use mt_regained::reopened_nodes_may_start;
use mt_whole::Whole;
use std::alloc::{AllocError, Global};
use thiserror::Error;

/// Why a device does not start, or an event is not carried out.
#[derive(Clone, Copy, Debug, Drop, Error)]
pub(crate) enum DeviceFault {
    #[error("no memory is left")]
    Memory,
    #[error("the disk failed, or the journal has no room")]
    Disk,
    #[error("the file is no journal of a node")]
    NotAJournal,
    #[error("no boot more can be counted, or there is no room for event numbers")]
    Worn,
}

impl From<AllocError> for DeviceFault {
    fn from(_error: AllocError) -> DeviceFault {
        DeviceFault::Memory
    }
}

impl From<ChangeFault> for DeviceFault {
    fn from(fault: ChangeFault) -> DeviceFault {
        match fault {
            ChangeFault::NotAChange => DeviceFault::Disk,
            ChangeFault::Memory => DeviceFault::Memory,
        }
    }
}

impl From<JournalFault> for DeviceFault {
    fn from(fault: JournalFault) -> DeviceFault {
        match fault {
            JournalFault::Disk => DeviceFault::Disk,
            JournalFault::NotAJournal(_) => DeviceFault::NotAJournal,
            JournalFault::Memory => DeviceFault::Memory,
        }
    }
}

/// A node, and the journal of what lasts of it.
pub(crate) struct Device<D: Disk> {
    alloc: Global,
    whole: Whole,
    store: Store<D>,
}

impl<D: Disk + Drop> Drop for Device<D> {
    fn drop(self) {
        let Device {
            alloc: _,
            whole: _,
            store: _,
        } = self;
    }
}

impl<D: Disk + Drop> Device<D> {
    /// The next boot of a node: what its disk has is recovered and rolled back, and the boot is committed first. An empty disk is
    /// that of a new node.
    pub(crate) fn start(alloc: Global, disk: D, config: &Config) -> Result<Self, DeviceFault> {
        let (mut store, map) = recovered(alloc, disk, config)?;
        let had = store.image().map(alloc)?;
        let may = may_start(alloc, config, &had, &map)?;
        if !may {
            return Err(DeviceFault::Worn);
        }
        let (whole, first) = Whole::start(alloc, map, config)?;
        keep(alloc, &mut store, first.as_slice())?;
        Ok(Device {
            alloc,
            whole,
            store,
        })
    }

    /// What is sent for an event: planned, kept, and then put in place. Where it is not carried out, the node is as it was. A line
    /// that stops a disk is for recordings, and nothing here.
    pub(crate) fn hear<V: Verdicts>(
        &mut self,
        event: &Event,
        verdicts: &V,
    ) -> Result<SentList, DeviceFault>
        ensures written { let given = given_to self.old.whole (V.roots verdicts.now) (V.csrs verdicts.now) (V.joins verdicts.now) in
            (w : Told) → IsWholeOf self.old.whole w → is_stop event.now ≡ false → IfOk result (λ messages. messages ≡ sent given w event.now) }
        ensures stays { OnErr result (self.new.whole ≡ self.old.whole) }
    {
        let Some(mut outcome) = self.whole.plan(event, verdicts)? else {
            return Ok(SentList::new(self.alloc));
        };
        keep(self.alloc, &mut self.store, outcome.change())?;
        let messages = outcome.take_sent(self.alloc);
        self.whole.apply(outcome);
        Ok(messages)
    }
}

// The store over a disk, and the map with which a node goes on.
fn recovered<D: Disk + Drop>(
    alloc: Global,
    disk: D,
    config: &Config,
) -> Result<(Store<D>, Durable), DeviceFault>
    ensures { IfOk result (λ found. reopened_map (contents_of config.now) found.0.store.image ≡ Some found.1) }
{
    match Store::recover(alloc, disk, config) {
        Ok(found) => Ok(found),
        Err((_disk, fault)) => Err(DeviceFault::from(fault)),
    }
}

// Whether a node may start with the map with which it goes on behind this one.
fn may_start(
    alloc: Global,
    config: &Config,
    had: &Durable,
    map: &Durable,
) -> Result<bool, AllocError>
    requires { reopened_map (contents_of config.now) had.now ≡ Some map.now }
    ensures { IfOk result (λ may. IsTrue may → MayStart map.now) }
{
    reopened_nodes_may_start();
    keys_are_of_bytes(had.as_slice());
    let counts = counts_one_more(alloc, map)?;
    Ok(counts)
}

// Commits a change, where there is one. What a commit requires is asked first; what a node plans has it always.
fn keep<D: Disk>(alloc: Global, store: &mut Store<D>, change: &[u8]) -> Result<(), DeviceFault> {
    if change.is_empty() {
        return Ok(());
    }
    let has_room = store.told().has_room(alloc, change)?;
    if !has_room {
        return Err(DeviceFault::Disk);
    }
    let is_admitted = store.told().is_admitted::<States>(alloc, change)?;
    if !is_admitted {
        return Err(DeviceFault::Disk);
    }
    let Ok(()) = store.commit(change) else {
        return Err(DeviceFault::Disk);
    };
    Ok(())
}

// Whether one more boot can be counted behind this map, and it has room for event numbers.
fn counts_one_more(alloc: Global, map: &Durable) -> Result<bool, AllocError>
    ensures { IfOk result (λ yes. IsTrue yes → (boot_in map.now < 2 ^ 31) × (ceiling_in map.now ≤ 2 ^ 61)) }
{
    let Some(kept) = kept_in(alloc, map)? else {
        return Ok(false);
    };
    let boot = kept.boot.unwrap_or(0);
    let ceiling = kept.ceiling.unwrap_or(0);
    Ok(boot < (1 << 31) && ceiling <= (1 << 61))
}

// Keys are of bytes, as contracts want it said. It does nothing.
fn keys_are_of_bytes(entries: &[Entry])
    ensures { list_all is_of_bytes entries.now ≡ true }
{
    for entry in entries {
        are_below_256(entry.key.as_slice());
    }
}

fn are_below_256(bytes: &[u8])
    ensures { list_all (λ (byte : ℕ). nat_lt byte 256) bytes.now ≡ true }
{
    for byte in bytes {
        let _value = *byte;
    }
}
