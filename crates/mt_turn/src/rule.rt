//! What the passes of a lock know, and the rule that each step keeps. Nothing of it is there at run time.

use crate::booked::Booked;
use atomic_table::{Join, Play, Split, TableRule};
use std::collections::LinkedList;
use std::snapshot::Snapshot;

/// What a pass knows, as the rule sees it. No value of it is made. What is counted over all passes is a
/// number, 0 or 1.
pub struct Notes<E, O> {
    /// 1 from the draw of a ticket to the end of the turn.
    pub queued: u64,
    pub ticket: u64,
    /// 1 from being served to the end of the turn.
    pub inside: u64,
    /// 1 while the slot is back with nothing in it, and the value with the caller.
    pub emptied: u64,
    /// The book that was found inside.
    pub found: LinkedList<E>,
    pub seen: LinkedList<E>,
    /// What the pass that was taken in last had seen or, if that is longer, what this one had.
    pub told: LinkedList<E>,
    pub places: LinkedList<u64>,
    pub share: u64,
    /// None for a pass that another took in.
    pub origin: Option<O>,
}

/// The rule.
pub struct Law;

impl<T: Booked> TableRule<Option<T>, Notes<T::Entry, T::Origin>, Snapshot<T>> for Law {
    ghost use Rattle.mt_turn.specs.Rule.{IsKept, first_notes};

    ghost holds = { λ _ state. IsKept T.book T.origin state };

    ghost first = { λ key. first_notes (T.origin key.value) };
}

/// Draws a ticket.
pub struct Draw;

impl<T: Booked> Play<Option<T>, Notes<T::Entry, T::Origin>> for Draw {
    ghost use Rattle.mt_turn.specs.Rule.{Draws};

    ghost then = { Draws };
}

/// Looks whether the ticket is served.
pub struct Look;

impl<T: Booked> Play<Option<T>, Notes<T::Entry, T::Origin>> for Look {
    ghost use Rattle.mt_turn.specs.Rule.{Looks};

    ghost then = { Looks T.book T.origin };
}

/// Gives the slot back once the value is out of it.
pub struct PutBack;

impl<T: Booked> Play<Option<T>, Notes<T::Entry, T::Origin>> for PutBack {
    ghost use Rattle.mt_turn.specs.Rule.{PutsBack};

    ghost then = { PutsBack };
}

/// Takes the slot again, to put the value into it.
pub struct TakeOut;

impl<T: Booked> Play<Option<T>, Notes<T::Entry, T::Origin>> for TakeOut {
    ghost use Rattle.mt_turn.specs.Rule.{TakesOut};

    ghost then = { TakesOut };
}

/// Rings the bell of a ticket, or makes it ready. It tells nothing.
pub struct Ring;

impl<T: Booked> Play<Option<T>, Notes<T::Entry, T::Origin>> for Ring {
    ghost use Rattle.mt_turn.specs.Rule.{Rings};

    ghost then = { Rings };
}

/// Ends the turn.
pub struct End;

impl<T: Booked> Play<Option<T>, Notes<T::Entry, T::Origin>> for End {
    ghost use Rattle.mt_turn.specs.Rule.{Ends};

    ghost then = { Ends T.book };
}

/// Compares what a pass was told with what it has seen.
pub struct Compare;

impl<T: Booked> Play<Option<T>, Notes<T::Entry, T::Origin>> for Compare {
    ghost use Rattle.mt_turn.specs.Rule.{Compares};

    ghost then = { Compares };
}

/// Cuts a share of 1 off, and joins shares.
pub struct Share;

impl<E, O> Split<Notes<E, O>> for Share {
    ghost use Rattle.mt_turn.specs.Rule.{notes_kept, notes_given};

    ghost left = { notes_kept };

    ghost right = { notes_given };
}

impl<E, O> Join<Notes<E, O>> for Share {
    ghost use Rattle.mt_turn.specs.Rule.{notes_joined, spent};

    ghost both = { notes_joined };

    ghost spent = { spent };
}
