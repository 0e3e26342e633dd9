//! When each attribute changed last.

ghost use Rattle.std.specs.Prelude.{◌≡◌, ◌+◌, ◌≤◌, ◌<◌, ◌∷◌, ◌++◌, true, IfOk, drop, get_or, length, position, take};
ghost use Rattle.mt_model.specs.declared.node.state.ChangeNumber.{ChangeNumber};
ghost use Rattle.std.specs.List.{list_any};
ghost use Rattle.mt_subs.specs.Changes.{IsChanges, are_newest_first, change_at, is_among, is_change_of, later, newest_of, noted, unchanged};

use mt_meta::all_places;
use mt_model::{ChangeNumber, ChangeNumbers, ExactCopy, Place};
use std::alloc::{AllocError, Global};
use std::marker::Model;

/// When each attribute changed last, as the count of the node's changes. Contracts see the list of them,
/// the newest change first: the numbers don't rise, and each place stands once.
#[derive(Drop)]
pub struct Changes {
    changes: Vec<ChangeNumber>,
}

impl Model for Changes {
    ghost use Rattle.std.specs.Prelude.{List};
    ghost use Rattle.mt_model.specs.declared.node.state.ChangeNumber.{ChangeNumber};
    ghost use Rattle.mt_subs.specs.Changes.{IsChanges};

    ghost Value = { List ChangeNumber };

    ghost view = { λ changes. changes.changes.items };

    ghost invariant = { λ changes. IsChanges changes.changes.items };
}

impl Changes {
    /// Every attribute of the table, with the number 0: none has changed.
    pub fn new(alloc: Global) -> Result<Changes, AllocError>
        ensures { IfOk result (λ changes. changes ≡ unchanged) }
    {
        let places = all_places(alloc)?;
        let mut changes = Vec::with_capacity(alloc, places.len())?;
        for place in places.as_slice() {
            changes.push(ChangeNumber {
                place: *place,
                number: 0,
            })?;
        }
        Ok(Changes { changes })
    }

    /// The changes that a node has kept, in the same memory.
    pub fn from_numbers(numbers: ChangeNumbers) -> Changes
        requires { IsChanges numbers }
        ensures { result ≡ numbers }
    {
        Changes {
            changes: numbers.into_vec(),
        }
    }

    /// All of them, for a node to keep, in the same memory.
    pub fn into_numbers(self) -> ChangeNumbers
        ensures value { result ≡ self }
        ensures valid { IsChanges result }
    {
        ChangeNumbers::from_vec(self.changes)
    }

    /// All of them, the newest first, lent.
    pub fn as_slice(&self) -> &[ChangeNumber]
        ensures value { result.now ≡ self.now }
        ensures valid { IsChanges self.now }
    {
        self.changes.as_slice()
    }

    /// The number of the newest change, 0 where there is none.
    pub fn newest(&self) -> u64
        ensures { result ≡ newest_of self.now }
    {
        match self.changes.first() {
            Some(change) => change.number,
            None => 0,
        }
    }

    /// The changes that are later than this number, the newest first, lent: only these are gone through,
    /// and the first that is not.
    pub fn later(&self, number: u64) -> &[ChangeNumber]
        ensures { result.now ≡ later number self.now }
    {
        later(&self.changes, number)
    }

    /// A place has changed, as the change of this number, which is none of earlier ones: it stands first.
    /// False exactly where the place is none of these, and then nothing changes. It takes no memory.
    pub fn note(&mut self, place: &Place, number: u64) -> bool
        requires { newest_of self.old ≤ number }
        ensures found { result ≡ is_among place.now self.old }
        ensures noted { self.new ≡ noted place.now number self.old }
    {
        match place_of(&self.changes, place) {
            Some(at) => {
                move_to_front(&mut self.changes, at, number);
                true
            }
            None => false,
        }
    }
}

impl ExactCopy for Changes {
    fn copy(&self) -> Result<Changes, AllocError> {
        let changes = Vec::from_slice(*self.changes.allocator(), &self.changes)?;
        Ok(Changes { changes })
    }
}

// Those of a list that keeps the rules which are later than a number.
pub(crate) fn later(changes: &[ChangeNumber], number: u64) -> &[ChangeNumber]
    requires { IsChanges changes.now }
    ensures { result.now ≡ later number changes.now }
{
    for (count, change) in changes.iter().enumerate() {
        if change.number <= number {
            return &changes[..count];
        }
    }
    changes
}

// Moves the change at a place of the list to its front, with another number.
fn move_to_front(changes: &mut [ChangeNumber], at: usize, number: u64)
    requires { at < length changes.old }
    ensures { (d : ChangeNumber) → changes.new ≡ change_at (get_or changes.old at d).place number ∷ (take at changes.old ++ drop (at + 1) changes.old) }
{
    changes[..=at].rotate_right(1);
    changes[0].number = number;
}

// Where the change of a place stands.
fn place_of(changes: &[ChangeNumber], place: &Place) -> Option<usize>
    ensures { result ≡ position (is_change_of place.now) changes.now }
{
    changes.iter().position(|change| change.place == *place)
}
