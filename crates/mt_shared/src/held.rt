//! The node beside its keeper and its book.

ghost use Rattle.std.specs.Prelude.{◌≡◌, ◌≤◌, ◌+◌, ◌++◌, ◌∷◌, [], Err, List, None, Some, false, true, is_some, length, slice_get, vec_capacity, vec_len, IfErr, IfOk, OnErr, OnOk};
ghost use Rattle.std.specs.Coded.{codes};
ghost use Rattle.mt_tlv.specs.contracts.value.Value as values;
ghost use Rattle.mt_durable.specs.declared.durable.Entry.{Entry as KeptEntry};
ghost use Rattle.mt_files.specs.Form.{HasForm};
ghost use Rattle.mt_grammar.specs.Grammar.{is_in_grammar};
ghost use Rattle.mt_model.specs.declared.limits.TheConstants.{RECORDING_BYTES, RECORDING_LINES};
ghost use Rattle.mt_outside.specs.Stream.{one_more};
ghost use Rattle.mt_interactions.specs.Deeds.{IsWithin};
ghost use Rattle.mt_shared.specs.Acts.{AdmitsStates, HasEither, HasOneOf, HasVerdicts, IsEntered, Refuses, StandsBetween};
ghost use Rattle.mt_shared.specs.Book.{AreFormed, are_in_time, done, failed, is_full, is_timed, last_time, lines_in, record_size, stop_in, time_for};
ghost use Rattle.mt_shared.specs.Replay.{map_of, replay};
ghost use Rattle.mt_shared.specs.declared.entry.Stop.{Stop as AnyStop};

use crate::acting::{Refusal, act_on};
use crate::entry::{ActFault, Call, Entry, Stamped, Stop};
use crate::room::{Room, time_of};
use crate::typing::events_have_types;
use mt_durable::Keeper;
use mt_files::line_size;
use mt_interactions::Interactions;
use mt_model::Verdicts;
use mt_model::limits::{RECORDING_BYTES, RECORDING_LINES};
use mt_turn::Booked;
use std::alloc::Global;
use std::snapshot::Snapshot;

// How many bytes the head of a recording has.
const HEAD_BYTES: usize = 16;

/// The node beside its keeper and its book. The book replays to the node, from the node with which it began; the keeper has the
/// node's map, until a commit fails.
#[derive(Drop)]
pub struct Held<K: Keeper> {
    alloc: Global,
    pub origin: Snapshot<Interactions>,
    pub node: Interactions,
    pub keeper: K,
    pub book: Vec<Entry>,
    // how many bytes the recording of the book has
    bytes: usize,
    // the time of the last entry, 0 where there is none
    last: u64,
    // the stop that ends the book
    stop: Option<Stop>,
    pub ghost replays: { replay origin.value book.items ≡ node },
    pub ghost timed: { is_timed 0 book.items ≡ true },
    pub ghost in_time: { are_in_time book.items ≡ true },
    pub ghost short: { record_size book.items ≤ RECORDING_BYTES },
    pub ghost few: { length (lines_in book.items) ≤ RECORDING_LINES },
    pub ghost formed: { ∥ AreFormed book.items ∥₁ },
    ghost bytes_are: { record_size book.items ≡ bytes },
    ghost last_is: { last_time 0 book.items ≡ last },
    ghost stop_is: { stop_in book.items ≡ stop },
    ghost stop_is_last: { (it : AnyStop) → stop ≡ Some it → length book.items ≡ it.place + 1 },
    ghost faults_rose: { (it : AnyStop) → stop ≡ Some it → it.after ≡ one_more it.before },
    ghost halted: { (it : AnyStop) → stop ≡ Some it → ∥ HasEither node (slice_get book.items it.place) (K.map keeper) ∥₁ },
    ghost between: { (it : AnyStop) → stop ≡ Some it → ∥ StandsBetween (K.stands_between keeper) node (slice_get book.items it.place) ∥₁ },
    ghost counted: { (it : AnyStop) → stop ≡ Some it → K.faults keeper ≡ it.after },
    ghost failed: { K.failed keeper ≡ is_some stop },
    ghost kept: { stop ≡ None → K.map keeper ≡ Some (map_of node) } by { Prim.hlevel (codes, values.the_row.coded) },
    ghost admits: { (map : List KeptEntry) → is_in_grammar map ≡ true → K.admits map ≡ true },
    ghost config: { node.config ≡ origin.value.config },
}

impl<K: Keeper> Booked for Held<K> {
    type Entry = Entry;

    type Origin = Interactions;

    ghost book = { λ held. held.book.items };

    ghost origin = { λ held. held.origin.value };
}

impl<K: Keeper + Drop> Held<K> {
    /// A node with an empty book, beside a keeper that has its map.
    pub fn new(alloc: Global, node: Interactions, keeper: K) -> Held<K>
        requires map { K.map keeper ≡ Some (map_of node) }
        requires runs { K.failed keeper ≡ false }
        requires admits { AdmitsStates K.admits }
        ensures origin { result.origin.value ≡ node }
        ensures node { result.node ≡ node }
        ensures keeper { result.keeper ≡ keeper }
        ensures book { result.book.items ≡ [] }
    {
        Held {
            alloc,
            origin: Snapshot::of(&node),
            node,
            keeper,
            book: Vec::new(alloc),
            bytes: HEAD_BYTES,
            last: 0,
            stop: None,
        }
    }

    /// Does what is asked: it is planned, what of it lasts is committed, it is put in place, and it is entered in the book. In this
    /// order it is refused: where a commit has failed before, where the record is full, where memory is wanting, and where the
    /// commit fails.
    pub fn act<V: Verdicts>(&mut self, call: Call, verdicts: &V) -> Result<Stamped, ActFault>
        requires within { IsWithin call.deed }
        requires form { HasForm call.event }
        requires verdicts { HasVerdicts self.old.origin.value (V.roots verdicts.now) (V.csrs verdicts.now) (V.joins verdicts.now) }
        ensures origin { self.new.origin.value ≡ self.old.origin.value }
        ensures entered { IfOk result (IsEntered self.new.origin.value self.old.book.items self.new.book.items call) }
        ensures room { OnOk result (is_full self.old.book.items call ≡ false) }
        ensures kept { OnOk result (K.map self.new.keeper ≡ Some (map_of self.new.node)) }
        ensures refused { IfErr result (λ fault. Refuses fault call self.old.book.items self.new.book.items) }
        ensures again { (it : AnyStop) → stop_in self.old.book.items ≡ Some it → result ≡ Err (ActFault.Stopped it) }
        ensures full { stop_in self.old.book.items ≡ None → is_full self.old.book.items call ≡ true
            → result ≡ Err (ActFault.RecordFull (length (lines_in self.old.book.items)) (record_size self.old.book.items)) }
        ensures stays { OnErr result (self.new.node ≡ self.old.node) }
        ensures part { OnErr result (HasOneOf self.old.node self.old.book.items call (K.map self.old.keeper) (K.map self.new.keeper)) }
    {
        let Room { ms, bytes } = match self.room_for(&call) {
            Ok(room) => room,
            Err(fault) => {
                let_go(call);
                return Err(fault);
            }
        };
        let place = self.book.len() as u64;
        let Ok(()) = self.book.reserve(1) else {
            let_go(call);
            return Err(ActFault::Memory);
        };
        let acted = act_on(
            self.alloc,
            &mut self.node,
            &mut self.keeper,
            &call.deed,
            ms,
            verdicts,
        );
        let answer = match acted {
            Ok(answer) => answer,
            Err(Refusal::Memory) => {
                let_go(call);
                return Err(ActFault::Memory);
            }
            Err(Refusal::Faults { before, after }) => {
                let stop = enter_stop(&mut self.book, call, ms, before, after);
                self.stop = Some(stop);
                self.last = ms;
                return Err(ActFault::Stopped(stop));
            }
        };
        self.bytes = bytes;
        self.last = ms;
        self.book.push_reserved(Entry {
            call,
            ms,
            stop: None,
        });
        Ok(Stamped { place, ms, answer })
    }

    /// The keeper alone.
    pub fn into_keeper(self) -> K
        ensures { result ≡ self.keeper }
    {
        let Held {
            alloc: _,
            origin: _,
            node: _,
            keeper,
            book: _,
            bytes: _,
            last: _,
            stop: _,
        } = self;
        keeper
    }

    // When a call is done, and how many bytes the record then has, where no commit has failed and the record has room.
    fn room_for(&self, call: &Call) -> Result<Room, ActFault>
        requires form { HasForm call.now.event }
        ensures ms { IfOk result (λ room. room.ms ≡ time_for self.now.book.items call.now) }
        ensures bytes { IfOk result (λ room. room.bytes ≡ record_size (self.now.book.items ++ done call.now room.ms ∷ [])) }
        ensures room { OnOk result ((is_full self.now.book.items call.now ≡ false) × (self.now.stop ≡ None)) }
        ensures refused { IfErr result (λ fault. Refuses fault call.now self.now.book.items self.now.book.items) }
        ensures again { (it : AnyStop) → stop_in self.now.book.items ≡ Some it → result ≡ Err (ActFault.Stopped it) }
        ensures full { stop_in self.now.book.items ≡ None → is_full self.now.book.items call.now ≡ true
            → result ≡ Err (ActFault.RecordFull (length (lines_in self.now.book.items)) (record_size self.now.book.items)) }
    {
        if let Some(stop) = self.stop {
            return Err(ActFault::Stopped(stop));
        }
        let ms = time_of(&call.event).max(self.last);
        let bytes = self.bytes.saturating_add(line_size(&call.event, ms));
        let entries = self.book.len();
        if entries >= RECORDING_LINES || bytes > RECORDING_BYTES {
            events_have_types(&call.event);
            return Err(ActFault::RecordFull {
                entries: entries as u64,
                bytes: self.bytes as u64,
            });
        }
        Ok(Room { ms, bytes })
    }
}

// Lets a call go that is refused. It stands apart, and so does what enters a stop: a function fills all its memory with zeros as it
// begins, and calls that are done make no room for this.
#[cold]
#[inline(never)]
fn let_go(call: Call) {
    let _gone = call;
}

// Enters a call whose commit failed, with the counts of the keeper's faults before and behind it. The stop that it is.
#[cold]
#[inline(never)]
fn enter_stop(book: &mut Vec<Entry>, call: Call, ms: u64, before: u64, after: u64) -> Stop
    requires { vec_len book.old + 1 ≤ vec_capacity book.old }
    ensures place { result.place ≡ length book.old.items }
    ensures counts { (result.before ≡ before) × (result.after ≡ after) }
    ensures entered { book.new.items ≡ book.old.items ++ failed call ms result ∷ [] }
{
    let stop = Stop {
        place: book.len() as u64,
        before,
        after,
    };
    book.push_reserved(Entry {
        call,
        ms,
        stop: Some(stop),
    });
    stop
}
