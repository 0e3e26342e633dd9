//! The rings of events.

ghost use Rattle.std.specs.Prelude.{◌≡◌, ◌++◌, ◌∷◌, ◌≤◌, [], List, IfOk, IsTrue, option_copied, slice_get};
ghost use Rattle.std.specs.List.{list_all};
ghost use Rattle.circular_buffer.specs.Buffer.{Buffer};
ghost use Rattle.mt_model.specs.declared.messages.message.Happened.{Happened};
ghost use Rattle.mt_events.specs.Rings.{StandFor, capacity_of, empty, forgotten, is_below, is_new, pushed, remembered, ring_of};
ghost use Rattle.mt_events.specs.Telling.{own_of};

use circular_buffer::HeapCircularBuffer;
use mt_model::Happened;
use mt_model::limits::{FABRICS, PRIVATE_EVENTS, SHARED_EVENTS};
use std::alloc::{AllocError, Global};
use std::marker::Model;

// One for the events that all may see, and one for each fabric.
const RINGS: usize = FABRICS + 1;

/// The latest events: 128 of those that all may see, and 32 of those that are private to each fabric. Contracts see
/// the rings as lists of events, the first for all and then one for each fabric by its index. In each the numbers rise.
pub struct Rings {
    pub(crate) rings: Vec<HeapCircularBuffer<Happened>>,
}

impl Drop for Rings {
    fn drop(self) {
        let Rings { rings: _ } = self;
    }
}

impl Model for Rings {
    ghost use Rattle.std.specs.Prelude.{List};
    ghost use Rattle.mt_model.specs.declared.messages.message.Happened.{Happened};
    ghost use Rattle.mt_events.specs.Kept.{AreKept, items_of};
    ghost use Rattle.mt_tlv.specs.contracts.value.Value as values;
    ghost use Rattle.std.specs.Coded.{codes};

    ghost Value = { List (List Happened) };

    ghost coded = { Prim.hlevel (codes, values.the_row.coded) };

    ghost view = { λ rings. items_of rings.rings.items };

    ghost invariant = { λ rings. AreKept rings.rings.items };
}

impl Rings {
    /// No event has happened. It takes the memory of all rings.
    pub fn new(alloc: Global) -> Result<Rings, AllocError>
        ensures empty { IfOk result (λ rings. rings ≡ empty) }
        ensures stand { IfOk result (λ rings. StandFor rings []) }
    {
        let mut rings = Vec::with_capacity(alloc, RINGS)?;
        for fabric in 0..RINGS {
            rings.push(HeapCircularBuffer::with_capacity(alloc, capacity_of(fabric))?)?;
        }
        Ok(Rings { rings })
    }

    /// Whether a number is above those of all events that are kept.
    pub fn is_new(&self, number: u64) -> bool
        ensures { result ≡ is_new number self.now }
    {
        are_below(&self.rings, number)
    }

    /// An event has happened, whose number is above those of all before it (`is_new` tells). It stands last in its ring; where
    /// that is full, its oldest event goes. It takes no memory.
    pub fn push(&mut self, event: Happened)
        requires fabric { event.fabric ≤ 16 }
        requires new { IsTrue (is_new event.number self.old) }
        ensures pushed { self.new ≡ pushed event self.old }
        ensures stand { (events : List Happened) → StandFor self.old events → StandFor self.new (events ++ event ∷ []) }
    {
        let ring = usize::from(event.fabric);
        self.rings[ring].push_back(event);
    }

    /// What is private to a fabric is forgotten. It takes no memory.
    pub fn forget(&mut self, fabric: u8)
        ensures forgotten { self.new ≡ forgotten fabric self.old }
        ensures stand { (events : List Happened) → StandFor self.old events → StandFor self.new (remembered fabric events) }
    {
        let ring = usize::from(fabric);
        if 0 < ring && ring < self.rings.len() {
            self.rings[ring].clear();
        }
    }

    /// An event of those that all may see, by its place in the ring, the oldest first; None behind the last.
    pub fn shared_at(&self, index: usize) -> Option<&Happened>
        ensures { option_copied result ≡ slice_get (ring_of 0 self.now) index }
    {
        self.rings[0].get(index)
    }

    /// An event that is private to a fabric, by its place in its ring, the oldest first; None behind the last. What is no
    /// fabric has none.
    pub fn own_at(&self, fabric: u8, index: usize) -> Option<&Happened>
        ensures { option_copied result ≡ slice_get (own_of fabric self.now) index }
    {
        let ring = usize::from(fabric);
        if ring == 0 || ring >= self.rings.len() {
            return None;
        }
        self.rings[ring].get(index)
    }
}

// Whether the numbers of all events of rings are below this.
fn are_below(rings: &[HeapCircularBuffer<Happened>], number: u64) -> bool
    ensures { result ≡ list_all (λ (ring : Buffer Happened). list_all (is_below number) ring.items) rings.now }
{
    rings.iter().all(|ring| is_below(ring, number))
}

fn is_below(ring: &HeapCircularBuffer<Happened>, number: u64) -> bool
    ensures { result ≡ list_all (is_below number) ring.now.items }
{
    ring.iter().all(|event| event.number < number)
}

// How many events the ring of a fabric keeps.
fn capacity_of(fabric: usize) -> usize
    ensures { result ≡ capacity_of fabric }
{
    if fabric == 0 {
        SHARED_EVENTS
    } else {
        PRIVATE_EVENTS
    }
}
