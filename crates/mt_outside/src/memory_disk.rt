//! A disk in memory, some of whose calls fail, and that stops where it is told to: for tests, and for
//! runs that keep nothing.

ghost use Rattle.std.specs.Prelude.{◌≡◌, ◌≤◌, ◌<◌, ◌↔◌, ◌⊎◌, ◌+◌, ◌-◌, ◌^◌, [], ◌∷◌, ◌++◌, Some, false, length, min, max, take, drop, vec_len, vec_capacity, IfOk, IfSome, OnErr, OnOk, IsErr, IsTrue};
ghost use Rattle.mt_outside.specs.Disk.{CutShort, Elapses, Follows, LeavesContents, NoneNew, ReadAt, WroteAt, WrotePart, overwritten};
ghost use Rattle.mt_outside.specs.DiskMoments.{log_leaves, left_now, left_since_now};
ghost use Rattle.mt_outside.specs.Logs.{Logs, LogsNothing, log_of};
ghost use Rattle.mt_outside.specs.MemoryDisk.{DiskState, IsRefused, Leaves, LeftSince, contents_of, failed, forgotten, held, new_disk, restarted};
ghost use Rattle.mt_outside.specs.MemoryDisk.DiskEvent.{wrote, synced};
ghost use Rattle.mt_outside.specs.Stops.{fate_now, has_stopped, one_fewer, stops_next};
ghost use Rattle.mt_outside.specs.Stream.{HasCause, one_more};

use crate::disk::Disk;
use crate::failures::Failures;
use crate::fate::Fate;
use crate::replaying::{Event, copy_down, overwrite, replay, rewind};
use crate::stop::{Stop, count_down, fate_now, is_stopped};
use crate::stream::Failed;
use std::alloc::{AllocError, Global};
use std::marker::Model;

// A disk's length at most, and how far a write may come.
const LONGEST: u64 = 1 << 62;

/// A disk of bytes in memory. A contract sees what it held when it was made or restarted, each write and
/// sync since, the numbers of the calls that are to fail, how many calls and faults there were, and where
/// it stops. So it keeps each write until it is restarted.
pub struct MemDisk {
    alloc: Global,
    first: Vec<u8>,
    events: Vec<Event>,
    synced: usize,
    bytes: Vec<u8>,
    failures: Failures,
    stop: Option<Stop>,
}

impl Drop for MemDisk {
    fn drop(self) {
        let MemDisk {
            alloc: _,
            first: _,
            events: _,
            synced: _,
            bytes: _,
            failures: _,
            stop: _,
        } = self;
    }
}

impl Model for MemDisk {
    ghost use Rattle.mt_outside.specs.MemoryDisk.{DiskState};

    ghost Value = { DiskState };

    ghost use Rattle.mt_outside.specs.DiskInside.{IsSound, state_of};

    ghost view = { state_of };

    ghost invariant = { IsSound };
}

impl MemDisk {
    /// A disk with these bytes, all of them safe, whose calls of the numbers in `fail` fail, counted
    /// from 1 over calls of all four kinds.
    pub fn new(alloc: Global, contents: &[u8], fail: &[u64]) -> Result<Self, AllocError>
        ensures { IfOk result (λ disk. disk ≡ new_disk contents.now fail.now) }
    {
        Ok(MemDisk {
            alloc,
            first: Vec::from_slice(alloc, contents)?,
            events: Vec::new(alloc),
            synced: 0,
            bytes: Vec::from_slice(alloc, contents)?,
            failures: Failures::new(alloc, fail)?,
            stop: None,
        })
    }

    /// What a read gives.
    pub fn bytes(&self) -> &[u8]
        ensures { result.now ≡ contents_of self.now }
    {
        self.bytes.as_slice()
    }

    /// Whether the disk has stopped. Then each call fails until `restart`.
    pub fn stopped(&self) -> bool
        ensures { result ≡ has_stopped self.now.stop }
    {
        is_stopped(&self.stop)
    }

    /// Stops the disk at the call of that number among the writes and syncs to come; 0 stops it at once.
    /// The call at which it stops fails, and all after it. A write at which it stops counts among those
    /// since the latest sync, and a sync does nothing. Calls that are refused are not counted. A disk that
    /// has stopped stays as it is.
    pub fn stop_at(&mut self, calls: u64, fate: Fate)
        ensures set { has_stopped self.old.stop ≡ false →
            self.new ≡ record self.old { stop = Some (record { calls = calls; fate = fate }) } }
        ensures stays { IsTrue (has_stopped self.old.stop) → self.new ≡ self.old }
    {
        if !is_stopped(&self.stop) {
            self.stop = Some(Stop { calls, fate });
        }
    }

    /// Gives what the stop has left, by its fate, all of it safe, with no stop set. A disk that has not
    /// stopped loses nothing, and only forgets where it was to stop.
    pub fn restart(&mut self)
        ensures restarted { self.new ≡ restarted self.old }
        ensures image { IfSome (fate_now self.old.stop) (λ _. Leaves (held self.old) (contents_of self.new)) }
    {
        let Some(fate) = fate_now(&self.stop) else {
            self.stop = None;
            return;
        };
        rewind(&mut self.first, &self.events, self.synced, fate);
        copy_down(&mut self.bytes, &self.first);
        self.events.clear();
        self.synced = 0;
        self.stop = None;
    }

    /// Forgets what was done up to the latest sync: what was safe then is what the disk held at first. What
    /// a read gives, and what a stop leaves, is as before, and so is where it stops. A disk that is used for
    /// long keeps no list of old writes so.
    pub fn forget(&mut self)
        ensures forgotten { self.new ≡ forgotten self.old }
        ensures held { held self.new ≡ held self.old }
    {
        replay(&mut self.first, &self.events[..self.synced], Fate::Kept);
        self.events.rotate_left(self.synced);
        self.events.truncate(self.events.len() - self.synced);
        self.synced = 0;
    }
}

impl Disk for MemDisk {
    ghost contents = { λ disk. Some (contents_of disk) };

    ghost images = { λ disk. Leaves (held disk) };

    ghost moment = { λ disk. length disk.events };

    ghost images_since = { LeftSince };

    ghost faults = { λ disk. disk.faults };

    ghost calls = { λ disk. disk.calls };

    ghost log = { log_of };

    ghost allowed = { λ disk. disk.stop };

    ghost counts_now = { left_now };

    ghost only_now = { left_since_now };

    ghost leaves = { log_leaves };

    fn length(&mut self) -> Result<u64, Failed>
        ensures within { IfOk result (λ count. count ≤ 2 ^ 62) }
        ensures told { IfOk result (λ count. count ≡ length (contents_of self.old)) }
        ensures kept { contents_of self.new ≡ contents_of self.old }
        ensures crash { NoneNew (Leaves (held self.old)) (Leaves (held self.new)) }
        ensures time { Elapses (length self.old.events) (length self.new.events) (LeftSince self.old) (LeftSince self.new) (Leaves (held self.new)) }
        ensures counted { self.new.calls ≡ one_more self.old.calls }
        ensures logged { LogsNothing (log_of self.old) (log_of self.new) self.old.stop self.new.stop }
        ensures cause { HasCause self.old.faults self.new.faults result }

        // The calls of the listed numbers fail, those of a stopped disk and of one that is too long.
        ensures refused { IsErr result ↔ (IsRefused self.old ⊎ (2 ^ 62 < length (contents_of self.old))) }
        ensures done { OnOk result (self.new ≡ record self.old { calls = one_more self.old.calls }) }
        ensures failed { OnErr result (self.new ≡ failed self.old) }
    {
        let length = self.bytes.len() as u64;
        if self.failures.next_fails() || is_stopped(&self.stop) || length > LONGEST {
            self.failures.count_fault();
            return Err(Failed);
        }
        Ok(length)
    }

    fn read_at(&mut self, at: u64, into: &mut [u8]) -> Result<usize, Failed>
        ensures within { IfOk result (λ count. count ≤ length into.old) }
        ensures gave { IfOk result (λ count. ReadAt (Some (contents_of self.old)) at into.old into.new count) }
        ensures kept { contents_of self.new ≡ contents_of self.old }
        ensures crash { NoneNew (Leaves (held self.old)) (Leaves (held self.new)) }
        ensures time { Elapses (length self.old.events) (length self.new.events) (LeftSince self.old) (LeftSince self.new) (Leaves (held self.new)) }
        ensures counted { self.new.calls ≡ one_more self.old.calls }
        ensures logged { LogsNothing (log_of self.old) (log_of self.new) self.old.stop self.new.stop }
        ensures cause { HasCause self.old.faults self.new.faults result }

        // The calls of the listed numbers fail, and those of a stopped disk.
        ensures refused { IsErr result ↔ IsRefused self.old }
        ensures done { OnOk result (self.new ≡ record self.old { calls = one_more self.old.calls }) }
        ensures failed { OnErr result (self.new ≡ failed self.old) }
        ensures untouched { OnErr result (into.new ≡ into.old) }
    {
        if self.failures.next_fails() || is_stopped(&self.stop) {
            self.failures.count_fault();
            return Err(Failed);
        }
        let length = self.bytes.len();
        let from = (at as usize).min(length);
        let count = into.len().min(length - from);
        into[..count].copy_from_slice(&self.bytes[from..from + count]);
        Ok(count)
    }

    fn write_at(&mut self, at: u64, from: &[u8]) -> Result<(), Failed>
        ensures within { OnOk result (at + length from.now ≤ 2 ^ 62) }
        ensures wrote { OnOk result (WroteAt (Some (contents_of self.old)) at from.now (Some (contents_of self.new))) }
        ensures part { OnErr result (WrotePart (Some (contents_of self.old)) at (length from.now) (Some (contents_of self.new))) }
        ensures crash { Follows (CutShort at (length from.now)) (Leaves (held self.old)) (Leaves (held self.new)) }
        ensures time { Elapses (length self.old.events) (length self.new.events) (LeftSince self.old) (LeftSince self.new) (Leaves (held self.new)) }
        ensures counted { self.new.calls ≡ one_more self.old.calls }
        ensures logged { Logs (wrote at from.now ∷ []) (log_of self.old) (log_of self.new) self.old.stop self.new.stop result }
        ensures cause { HasCause self.old.faults self.new.faults result }

        // The calls of the listed numbers fail, those of a stopped disk, and one that would come too far.
        ensures refused { IsRefused self.old ⊎ (2 ^ 62 < at + length from.now) → IsErr result }
        ensures unchanged { IsRefused self.old ⊎ (2 ^ 62 < at + length from.now) → self.new ≡ failed self.old }
        // It stops where it is told to.
        ensures stops { IsTrue (stops_next self.old.stop) → IsErr result }
        ensures done { OnOk result (self.new ≡ record self.old {
          events = self.old.events ++ wrote at from.now ∷ [];
          calls = one_more self.old.calls;
          stop = one_fewer self.old.stop;
        }) }
        // A call that fails changes nothing, unless the disk stops at it.
        ensures failed { OnErr result ((self.new ≡ failed self.old) ⊎ (IsTrue (stops_next self.old.stop) × (self.new ≡ record (failed self.old) {
          events = self.old.events ++ wrote at from.now ∷ [];
          stop = one_fewer self.old.stop;
        }))) }
    {
        let listed = self.failures.next_fails();
        if listed || is_stopped(&self.stop) || !comes_within(at, from.len()) {
            self.failures.count_fault();
            return Err(Failed);
        }
        let at = at as usize;
        let Ok(copy) = prepare(&mut self.first, &mut self.events, &mut self.bytes, at, from) else {
            self.failures.count_fault();
            return Err(Failed);
        };
        overwrite(&mut self.bytes, at, from);
        self.events.push_reserved(Event::Wrote { at, bytes: copy });
        if count_down(&mut self.stop) {
            self.failures.count_fault();
            return Err(Failed);
        }
        Ok(())
    }

    fn sync(&mut self) -> Result<(), Failed>
        ensures safe { OnOk result (LeavesContents (Some (contents_of self.new)) (Leaves (held self.new))) }
        ensures kept { contents_of self.new ≡ contents_of self.old }
        ensures crash { NoneNew (Leaves (held self.old)) (Leaves (held self.new)) }
        ensures time { Elapses (length self.old.events) (length self.new.events) (LeftSince self.old) (LeftSince self.new) (Leaves (held self.new)) }
        ensures counted { self.new.calls ≡ one_more self.old.calls }
        ensures logged { Logs (synced ∷ []) (log_of self.old) (log_of self.new) self.old.stop self.new.stop result }
        ensures cause { HasCause self.old.faults self.new.faults result }

        // The calls of the listed numbers fail, and those of a stopped disk.
        ensures refused { IsRefused self.old → IsErr result }
        ensures unchanged { IsRefused self.old → self.new ≡ failed self.old }
        // It stops where it is told to.
        ensures stops { IsTrue (stops_next self.old.stop) → IsErr result }
        ensures done { OnOk result (self.new ≡ record self.old {
          events = self.old.events ++ synced ∷ [];
          calls = one_more self.old.calls;
          stop = one_fewer self.old.stop;
        }) }
        // A call that fails changes nothing, unless the disk stops at it.
        ensures failed { OnErr result ((self.new ≡ failed self.old) ⊎ (IsTrue (stops_next self.old.stop) × (self.new ≡ record (failed self.old) { stop = one_fewer self.old.stop }))) }
    {
        let listed = self.failures.next_fails();
        if listed
            || is_stopped(&self.stop)
            || self.events.reserve(1).is_err()
            || count_down(&mut self.stop)
        {
            self.failures.count_fault();
            return Err(Failed);
        }
        self.events.push_reserved(Event::Synced);
        self.synced = self.events.len();
        Ok(())
    }

    fn faults(&self) -> u64 {
        self.failures.faults
    }
}

fn comes_within(at: u64, count: usize) -> bool
    ensures { IsTrue result ↔ (at + count ≤ 2 ^ 62) }
{
    at <= LONGEST && count as u64 <= LONGEST - at
}

// Takes all the memory that a write needs, and changes nothing. It gives a copy of the bytes.
fn prepare(
    first: &mut Vec<u8>,
    events: &mut Vec<Event>,
    bytes: &mut Vec<u8>,
    at: usize,
    from: &[u8],
) -> Result<Vec<u8>, AllocError>
    requires { at + length from.now ≤ 2 ^ 62 }
    ensures first { first.new.items ≡ first.old.items }
    ensures events { events.new.items ≡ events.old.items }
    ensures bytes { bytes.new.items ≡ bytes.old.items }
    ensures copy { IfOk result (λ copy. copy.items ≡ from.now) }
    ensures never_falls { vec_capacity first.old ≤ vec_capacity first.new }
    ensures first_room { OnOk result (max (vec_len bytes.old) (at + length from.now) ≤ vec_capacity first.new) }
    ensures events_room { OnOk result (vec_len events.old < vec_capacity events.new) }
    ensures bytes_room { OnOk result (max (vec_len bytes.old) (at + length from.now) ≤ vec_capacity bytes.new) }
{
    let end = bytes.len().max(at + from.len());
    bytes.reserve(end - bytes.len())?;
    first.reserve(end.saturating_sub(first.len()))?;
    events.reserve(1)?;
    Vec::from_slice(*bytes.allocator(), from)
}
