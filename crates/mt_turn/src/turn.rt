//! The lock and its calls.

ghost use denote.Param.Send.{IsSync};
ghost use Rattle.mt_turn.specs.contracts.turn.Turn as turn;
ghost use Rattle.std.specs.Prelude.{◌≡◌, ℕ, ◌<◌, ◌≤◌, ◌⊎◌, ◌++◌, ◌∷◌, [], length, true, false, Some, Ok, IfOk, IfErr};
ghost use mathlib.Core.List.{IsPrefix};
ghost use Rattle.mt_turn.specs.Counts.{how_often};
ghost use Rattle.mt_turn.specs.Known.{GrowsByOne, entered, first_pass, joined, left, part_given, part_kept};

use crate::booked::Booked;
use crate::line::{Stand, WORDS, end_turn, wait_for_turn};
use crate::pass::Pass;
use crate::rule::{Compare, Law, Notes, Share};
use atomic_table::{Badge, Refused, Table};
use std::alloc::{AllocError, Global};
use std::marker::Model;
use std::mem;
use std::snapshot::Snapshot;
use std::sync::Wait;

/// A value under a ticket lock. Contracts see which lock it is.
#[derive(Drop)]
pub struct Turn<T: Booked> {
    table: Table<Option<T>, Notes<T::Entry, T::Origin>, Snapshot<T>, Law, Global>,
}

impl<T: Booked> Model for Turn<T> {
    ghost use Rattle.atomic_table.specs.Seated.{TableId, table_id_coded};

    ghost Value = { TableId };

    ghost coded = { table_id_coded };

    ghost use Rattle.mt_turn.specs.Rule.{IsLock};

    ghost view = { λ turn. turn.table.shared.table_id };

    ghost invariant = { λ turn. IsLock turn.table.shared.table_id };
}

impl<T: Booked + Send> Turn<T> {
    /// Puts the value under a lock, and gives the first pass, which has the whole share, 64. The value
    /// comes back where memory is refused.
    pub fn new(alloc: Global, value: T) -> Result<(Turn<T>, Pass<T::Entry, T::Origin>), T>
        requires empty { T.book value ≡ [] }
        ensures first { IfOk result (λ made. made.1 ≡ first_pass made.0 (T.origin value)) }
        ensures refused { IfErr result (λ given. given ≡ value) }
    {
        let about = Snapshot::of(&value);
        let mut slots = Vec::new(alloc);
        if slots.reserve(1).is_err() {
            slots.destroy_empty();
            return Err(value);
        }
        slots.push_reserved(Some(value));
        match Table::new(alloc, &[0; WORDS], slots, &about) {
            Ok((table, stand)) => Ok((
                Turn { table },
                Pass {
                    badge: stand.into_badge(),
                },
            )),
            Err(Refused { slots }) => Err(only_value(slots)),
        }
    }

    /// Draws a ticket, waits until it is served, and gives the value. The book begins with all that the
    /// pass had seen, and has all its places.
    pub fn enter<R: Wait>(&self, rt: &R, pass: &mut Pass<T::Entry, T::Origin>) -> T
        requires own { pass.old.lock ≡ self.now }
        requires outside { pass.old.inside ≡ false }
        ensures inside { pass.new ≡ entered pass.old (T.book result) }
        ensures begins { IsPrefix pass.old.seen (T.book result) }
        ensures places { (k : ℕ) → 0 < how_often k pass.old.places → k < length (T.book result) }
        ensures origin { pass.old.origin ≡ Some (T.origin result) }
    {
        let mut stand: Stand<T> = mem::replace(&mut pass.badge, Badge::blank()).into_seat();
        let value = wait_for_turn(&self.table.shared, rt, &mut stand);
        pass.badge = stand.into_badge();
        value
    }

    /// Gives the value back, with one entry more in its book at most, and ends the turn. The place of
    /// that entry is the number of entries before it.
    pub fn leave(&self, pass: &mut Pass<T::Entry, T::Origin>, value: T)
        requires own { pass.old.lock ≡ self.now }
        requires inside { pass.old.inside ≡ true }
        requires origin { pass.old.origin ≡ Some (T.origin value) }
        requires book { GrowsByOne pass.old.found (T.book value) }
        ensures outside { pass.new ≡ left pass.old (T.book value) }
        ensures grown { (entry : T.Entry) → T.book value ≡ pass.old.found ++ entry ∷ []
            → pass.new.places ≡ pass.old.places ++ length pass.old.found ∷ [] }
        ensures same { T.book value ≡ pass.old.found → pass.new.places ≡ pass.old.places }
    {
        let mut stand: Stand<T> = mem::replace(&mut pass.badge, Badge::blank()).into_seat();
        end_turn(&self.table.shared, &mut stand, value);
        pass.badge = stand.into_badge();
    }

    /// A pass for another thread, which has seen as much, with a share of 1 of this one's. A pass takes
    /// no memory today, so there is always one.
    pub fn split(
        &self,
        pass: &mut Pass<T::Entry, T::Origin>,
    ) -> Result<Pass<T::Entry, T::Origin>, AllocError>
        requires own { pass.old.lock ≡ self.now }
        requires outside { pass.old.inside ≡ false }
        requires share { 2 ≤ pass.old.share }
        ensures kept { pass.new ≡ part_kept pass.old }
        ensures given { result ≡ Ok (part_given pass.old) }
    {
        let mut stand: Stand<T> = mem::replace(&mut pass.badge, Badge::blank()).into_seat();
        let other = self.table.shared.split_seat::<Share>(&mut stand);
        pass.badge = stand.into_badge();
        Ok(Pass {
            badge: other.into_badge(),
        })
    }

    /// Takes in what another pass has seen, its places and its share. Of what the two have seen the
    /// shorter list begins the longer, which is what this one has seen then.
    pub fn join(&self, pass: &mut Pass<T::Entry, T::Origin>, other: Pass<T::Entry, T::Origin>)
        requires own { (pass.old.lock ≡ self.now) × (other.lock ≡ self.now) }
        requires outside { (pass.old.inside ≡ false) × (other.inside ≡ false) }
        ensures both { pass.new ≡ joined pass.old other }
        ensures longer { (pass.new.seen ≡ pass.old.seen) ⊎ (pass.new.seen ≡ other.seen) }
        ensures begins { IsPrefix pass.old.seen pass.new.seen }
        ensures other_begins { IsPrefix other.seen pass.new.seen }
    {
        let mut stand: Stand<T> = mem::replace(&mut pass.badge, Badge::blank()).into_seat();
        let Pass { badge } = other;
        self.table
            .shared
            .join_seat::<Share>(&mut stand, badge.into_seat());
        self.table.shared.load::<Compare>(&mut stand, 0);
        pass.badge = stand.into_badge();
    }

    /// Gives the value, to the pass that has the whole share. It has seen all of the book, and each place
    /// of the book is one of its own calls or of those that it took over, once.
    pub fn close(self, pass: Pass<T::Entry, T::Origin>) -> T
        requires own { pass.lock ≡ self }
        requires outside { pass.inside ≡ false }
        requires whole { pass.share ≡ 64 }
        ensures book { T.book result ≡ pass.seen }
        ensures once { (k : ℕ) → k < length (T.book result) → how_often k pass.places ≡ 1 }
        ensures no_other { (k : ℕ) → length (T.book result) ≤ k → how_often k pass.places ≡ 0 }
        ensures origin { pass.origin ≡ Some (T.origin result) }
    {
        let Turn { table } = self;
        let Pass { badge } = pass;
        let stand: Stand<T> = badge.into_seat();
        let mut closed = table.close_with(stand);
        let value = closed.take(0);
        closed.free();
        value.unwrap()
    }
}

// The value of the one slot.
fn only_value<T>(mut slots: Vec<Option<T>, Global>) -> T
    requires { (x : T) × (slots.items ≡ Some x ∷ []) }
    ensures { slots.items ≡ Some result ∷ [] }
{
    let last = slots.pop();
    slots.destroy_empty();
    last.unwrap().unwrap()
}

// A type that may be lent to another thread.
fn lends<T: Sync>()
    ensures { IsSync T.row }
{}

/// A lock may be lent to other threads, where its value may go to them. It does nothing.
pub fn locks_are_lent<T: Booked + Send>()
    ensures { IsSync (turn.the_row T.row T.Entry.row T.Origin.row T.Booked) }
{
    lends::<Turn<T>>();
}
