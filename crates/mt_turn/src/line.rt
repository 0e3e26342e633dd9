//! The steps of a turn, over the lock's words and its slot.

ghost use Rattle.std.specs.Prelude.{◌≡◌, ℕ, ◌%◌, ◌^◌, ◌<◌, ◌≤◌, length, ◌∷◌, [], Some, None, MatchBool};
ghost use mathlib.Core.List.{IsPrefix};
ghost use Rattle.mt_turn.specs.Counts.{how_often};
ghost use Rattle.mt_turn.specs.Known.{GrowsByOne};
ghost use Rattle.mt_turn.specs.Rule.{in_line, slot_back, slot_out, turn_over, IsServed, IsTaken, IsLock, IsSame};

use crate::booked::Booked;
use crate::rule::{Draw, End, Law, Look, Notes, PutBack, Ring, TakeOut};
use atomic_table::{Seat, Shared};
use std::hint::spin_loop;
use std::snapshot::Snapshot;
use std::sync::Wait;
use std::thread::yield_now;

/// The words and the slot of a lock.
pub type Board<T> = Shared<
    Option<T>,
    Notes<<T as Booked>::Entry, <T as Booked>::Origin>,
    Snapshot<T>,
    Law,
>;

/// A pass that takes its steps.
pub type Stand<T> = Seat<Option<T>, Notes<<T as Booked>::Entry, <T as Booked>::Origin>>;

const NEXT_TICKET: usize = 0;

const TURNS_ENDED: usize = 1;

// A pass that sleeps until its ticket is served sleeps on the bell of the ticket. As many passes wait as
// there are bells at most, and their tickets follow one another, so each has a bell of its own.
const FIRST_BELL: usize = 2;

const BELLS: u64 = 64;

// Never changes, so a load of it waits for no other processor. A pass that gives the slot back or takes it
// out does so at a load.
const STILL: usize = 66;

/// How many words a lock has.
pub const WORDS: usize = 67;

const VALUE: usize = 0;

// What a bell says: that a pass sleeps on it, or is about to.
const ASLEEP: u64 = 1;

// That none does.
const AWAKE: u64 = 0;

// How often a pass that waits looks again at once.
const LOOKS: u32 = 20;

// How often it then lets other threads run before it looks again. After that it sleeps.
const YIELDS: u32 = 200;

// Draws the next ticket.
fn draw<T: Booked>(board: &Board<T>, stand: &mut Stand<T>) -> u64
    requires own { IsLock board.now.table_id × (stand.old.table_id ≡ board.now.table_id) }
    requires idle { (stand.old.me.0.queued ≡ 0) × (stand.old.me.0.inside ≡ 0) × (0 < stand.old.me.0.share) }
    ensures own { IsSame stand.old stand.new × (stand.new.me.1 ≡ stand.old.me.1) }
    ensures ticket { (t : ℕ) × (t % 2 ^ 64 ≡ result) × (stand.new.me.0 ≡ in_line stand.old.me.0 t) }
{
    board.fetch_add::<Draw>(stand, NEXT_TICKET, 1)
}

// Whether the ticket is served. If it is, the slot is out.
fn is_served<T: Booked>(board: &Board<T>, stand: &mut Stand<T>, ticket: u64) -> bool
    requires own { IsLock board.now.table_id × (stand.old.table_id ≡ board.now.table_id) }
    requires waits { (stand.old.me.0.queued ≡ 1) × (stand.old.me.0.inside ≡ 0) × (stand.old.me.0.emptied ≡ 0) }
    requires ticket { stand.old.me.0.ticket % 2 ^ 64 ≡ ticket }
    ensures own { IsSame stand.old stand.new }
    ensures told { MatchBool result (IsServed T.book T.origin stand.old.me stand.new.me) (stand.new.me ≡ stand.old.me) }
{
    board.load::<Look>(stand, TURNS_ENDED) == ticket
}

// Takes the value out of the slot, and gives the slot back.
fn take_value<T: Booked>(board: &Board<T>, stand: &mut Stand<T>) -> T
    requires own { IsLock board.now.table_id × (stand.old.table_id ≡ board.now.table_id) }
    requires inside { (stand.old.me.0.inside ≡ 1) × (stand.old.me.0.emptied ≡ 0) }
    requires out { (x : T) × (stand.old.me.1 ≡ (0, Some x) ∷ []) }
    ensures own { IsSame stand.old stand.new }
    ensures value { stand.old.me.1 ≡ (0, Some result) ∷ [] }
    ensures back { stand.new.me ≡ (slot_back stand.old.me.0, []) }
{
    let value = board.exchange(stand, VALUE, None).unwrap();
    board.load::<PutBack>(stand, STILL);
    value
}

// The bell of a ticket.
fn bell_of(ticket: u64) -> usize
    ensures bell { (2 ≤ result) × (result < 66) }
{
    FIRST_BELL + (ticket % BELLS) as usize
}

// Whether the ticket is served within a little while, for which the pass looks again and again: at once at
// first, and then with other threads let run between two looks.
fn is_soon<T: Booked>(board: &Board<T>, ticket: u64) -> bool
    requires { IsLock board.now.table_id }
{
    for look in 0..LOOKS + YIELDS {
        if board.peek(TURNS_ENDED) == ticket {
            return true;
        }
        if look < LOOKS {
            spin_loop();
        } else {
            yield_now();
        }
    }
    false
}

// Sleeps until the bell of the ticket rings, unless it is served already.
fn sleep<T: Booked, R: Wait>(board: &Board<T>, rt: &R, stand: &mut Stand<T>, ticket: u64)
    requires own { IsLock board.now.table_id × (stand.old.table_id ≡ board.now.table_id) }
    ensures same { IsSame stand.old stand.new × (stand.new.me ≡ stand.old.me) }
{
    let bell = bell_of(ticket);
    board.store::<Ring>(stand, bell, ASLEEP);
    if board.peek(TURNS_ENDED) != ticket {
        board.park(rt, bell, ASLEEP as u32);
    }
}

// Wakes the pass that has the ticket, if it sleeps.
fn ring<T: Booked>(board: &Board<T>, stand: &mut Stand<T>, ticket: u64)
    requires own { IsLock board.now.table_id × (stand.old.table_id ≡ board.now.table_id) }
    ensures same { IsSame stand.old stand.new × (stand.new.me ≡ stand.old.me) }
{
    let bell = bell_of(ticket);
    if board.peek(bell) == ASLEEP {
        board.store::<Ring>(stand, bell, AWAKE);
        board.wake_one(bell);
    }
}

/// Draws a ticket, waits until it is served, and takes the value.
pub fn wait_for_turn<T: Booked, R: Wait>(board: &Board<T>, rt: &R, stand: &mut Stand<T>) -> T
    requires own { IsLock board.now.table_id × (stand.old.table_id ≡ board.now.table_id) }
    requires idle { (stand.old.me.0.queued ≡ 0) × (stand.old.me.0.inside ≡ 0) × (stand.old.me.0.emptied ≡ 0) × (0 < stand.old.me.0.share) × (stand.old.me.1 ≡ []) }
    ensures own { IsSame stand.old stand.new }
    ensures taken { IsTaken (T.book result) stand.old.me.0 stand.new.me.0 × (stand.new.me.1 ≡ []) }
    ensures begins { IsPrefix stand.old.me.0.seen (T.book result) }
    ensures origin { stand.old.me.0.origin ≡ Some (T.origin result) }
    ensures places { (k : ℕ) → 0 < how_often k stand.old.me.0.places → k < length (T.book result) }
{
    let ticket = draw(board, stand);
    for _ in rt.forever() {
        if is_served(board, stand, ticket) {
            return take_value(board, stand);
        }
        if !is_soon(board, ticket) {
            sleep(board, rt, stand, ticket);
        }
    }
    unreachable!()
}

/// Puts the value back, and ends the turn.
pub fn end_turn<T: Booked>(board: &Board<T>, stand: &mut Stand<T>, value: T)
    requires own { IsLock board.now.table_id × (stand.old.table_id ≡ board.now.table_id) }
    requires inside { (stand.old.me.0.inside ≡ 1) × (stand.old.me.0.emptied ≡ 1) × (stand.old.me.1 ≡ []) }
    requires origin { stand.old.me.0.origin ≡ Some (T.origin value) }
    requires book { GrowsByOne stand.old.me.0.found (T.book value) }
    ensures own { IsSame stand.old stand.new }
    ensures over { stand.new.me ≡ (turn_over (slot_out stand.old.me.0) (T.book value), []) }
{
    board.load::<TakeOut>(stand, STILL);
    match board.exchange(stand, VALUE, Some(value)) {
        None => {}
        Some(_) => unreachable!(),
    }
    let ended = board.fetch_add::<End>(stand, TURNS_ENDED, 1);
    ring(board, stand, ended.wrapping_add(1));
}
