//! What was done to a disk in memory, and how it is done again.

ghost use Rattle.std.specs.Prelude.{◌≡◌, ◌≤◌, ◌+◌, ◌-◌, ◌++◌, length, max, take, drop, replicate, vec_len, vec_capacity};
ghost use Rattle.mt_outside.specs.Disk.{overwritten};
ghost use Rattle.mt_outside.specs.MemoryDisk.{half_torn, held_after, left_by, settled};
ghost use Rattle.mt_outside.specs.Replaying.{AreWrites, IsAtRest, event_of, events_of, left_after, left_after_one};

use crate::fate::Fate;

// What is on a torn disk where bytes did not come through.
const TORN: u8 = 0xa5;

/// What was done to a disk.
#[derive(Drop)]
pub enum Event {
    Wrote { at: usize, bytes: Vec<u8> },
    Synced,
}

// Fills up with 0 to a length.
fn fill_up(bytes: &mut Vec<u8>, end: usize)
    requires { max (vec_len bytes.old) end ≤ vec_capacity bytes.old }
    ensures filled { bytes.new.items ≡ bytes.old.items ++ replicate (end - vec_len bytes.old) 0 }
    ensures capacity { vec_capacity bytes.old ≤ vec_capacity bytes.new }
{
    if bytes.len() < end {
        // There is room.
        let _ = bytes.resize(end, 0);
    }
}

// Puts bytes at an offset in the place of what stood there.
fn put(bytes: &mut [u8], at: usize, from: &[u8])
    requires { at + length from.now ≤ length bytes.old }
    ensures { bytes.new ≡ take at bytes.old ++ from.now ++ drop (at + length from.now) bytes.old }
{
    bytes[at..at + from.len()].copy_from_slice(from);
}

// Puts so many torn bytes at an offset.
fn tear(bytes: &mut [u8], at: usize, count: usize)
    requires { at + count ≤ length bytes.old }
    ensures { bytes.new ≡ take at bytes.old ++ replicate count 0xa5 ++ drop (at + count) bytes.old }
{
    bytes[at..at + count].fill(TORN);
}

/// Puts bytes at an offset in the place of what stood there, and fills a gap behind the old end with 0.
pub fn overwrite(bytes: &mut Vec<u8>, at: usize, from: &[u8])
    requires { max (vec_len bytes.old) (at + length from.now) ≤ vec_capacity bytes.old }
    ensures written { bytes.new.items ≡ overwritten at from.now bytes.old.items }
    ensures capacity { vec_capacity bytes.old ≤ vec_capacity bytes.new }
{
    fill_up(bytes, at + from.len());
    put(bytes, at, from);
}

// Puts the first half of the bytes at an offset, rounded down, and torn bytes in the place of the rest.
fn overwrite_torn(bytes: &mut Vec<u8>, at: usize, from: &[u8])
    requires { max (vec_len bytes.old) (at + length from.now) ≤ vec_capacity bytes.old }
    ensures written { bytes.new.items ≡ overwritten at (half_torn from.now) bytes.old.items }
    ensures capacity { vec_capacity bytes.old ≤ vec_capacity bytes.new }
{
    let half = from.len() / 2;
    overwrite(bytes, at, from);
    tear(bytes, at + half, from.len() - half);
}

// Does again what an event did, as far as the fate of a disk that stopped leaves it.
fn replay_one(bytes: &mut Vec<u8>, event: &Event, fate: Fate)
    requires { length (left_after_one fate bytes.old.items (event_of event.now)) ≤ vec_capacity bytes.old }
    ensures left { bytes.new.items ≡ left_after_one fate bytes.old.items (event_of event.now) }
    ensures capacity { vec_capacity bytes.old ≤ vec_capacity bytes.new }
{
    let Event::Wrote { at, bytes: from } = event else {
        return;
    };
    match fate {
        Fate::Kept => overwrite(bytes, *at, from),
        Fate::Lost => {}
        Fate::Torn => overwrite_torn(bytes, *at, from),
    }
}

/// Does again what the events did, as far as the fate of a disk that stopped after them leaves it.
pub fn replay(bytes: &mut Vec<u8>, events: &[Event], fate: Fate)
    requires { length (left_after fate bytes.old.items (events_of events.now)) ≤ vec_capacity bytes.old }
    ensures left { bytes.new.items ≡ left_after fate bytes.old.items (events_of events.now) }
    ensures capacity { vec_capacity bytes.old ≤ vec_capacity bytes.new }
{
    'events: for event in events {
        replay_one(bytes, event, fate);
    }
}

/// Puts what a disk that stopped has left in the place of what it held at first. So many of the events
/// lead to the latest sync.
pub fn rewind(first: &mut Vec<u8>, events: &[Event], synced: usize, fate: Fate)
    requires within { synced ≤ length events.now }
    requires at_rest { IsAtRest (held_after (settled first.old.items) (take synced (events_of events.now))) }
    requires writes { AreWrites (drop synced (events_of events.now)) }
    requires room { length (held_after (settled first.old.items) (events_of events.now)).kept ≤ vec_capacity first.old }
    ensures left { first.new.items ≡ left_by fate (held_after (settled first.old.items) (events_of events.now)) }
    ensures capacity { vec_capacity first.old ≤ vec_capacity first.new }
{
    replay(first, &events[..synced], Fate::Kept);
    replay(first, &events[synced..], fate);
}

/// Makes bytes the same as others, which are no longer.
pub fn copy_down(bytes: &mut Vec<u8>, from: &[u8])
    requires { length from.now ≤ vec_len bytes.old }
    ensures copied { bytes.new.items ≡ from.now }
{
    bytes.truncate(from.len());
    bytes.copy_from_slice(from);
}
