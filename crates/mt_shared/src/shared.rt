//! The node under a lock: threads take turns with it, and each call stands in the one book.

ghost use Rattle.std.specs.Prelude.{◌≡◌, ◌≤◌, ◌<◌, ◌⊎◌, ℕ, Err, None, Ok, Some, false, is_some, length, slice_get, true, IfErr, IfOk};
ghost use mathlib.Core.List.{IsPrefix};
ghost use Rattle.mt_files.specs.Form.{HasForm};
ghost use Rattle.mt_interactions.specs.Deeds.{IsWithin};
ghost use Rattle.mt_model.specs.declared.limits.TheConstants.{RECORDING_BYTES, RECORDING_LINES};
ghost use Rattle.mt_turn.specs.Counts.{how_often};
ghost use Rattle.mt_turn.specs.History.{IsOutsideAgain};
ghost use Rattle.mt_turn.specs.Known.{first_pass, joined, part_given, part_kept};
ghost use Rattle.mt_shared.specs.Acts.{AdmitsStates, HasVerdicts, IsHalted, StandsBetween};
ghost use Rattle.mt_shared.specs.Book.{AreFormed, are_in_time, is_timed, lines_in, record_size, stop_in};
ghost use Rattle.mt_shared.specs.Replay.{map_of, replay};
ghost use Rattle.mt_shared.specs.declared.entry.Stop.{Stop as AnyStop};
ghost use Rattle.mt_shared.specs.Shared.{IsAnswered, IsPassOf, IsRefused};

use crate::crossing::{entries_cross, interactions_cross, origins_cross};
use crate::entry::{ActFault, Call, Entry, Stamped};
use crate::held::Held;
use crate::usage::{Watcher, usage_of};
use mt_durable::Keeper;
use mt_interactions::Interactions;
use mt_model::Verdicts;
use mt_turn::{Pass, Turn};
use std::alloc::{AllocError, Global};
use std::marker::Model;
use std::snapshot::Snapshot;
use std::sync::Wait;

/// A thread's pass to the node. It takes no bytes; contracts see which beginning of the book it has seen, and which places are its own.
pub type NodePass = Pass<Entry, Interactions>;

/// The node under a lock, with the verdicts of its configuration. Contracts see the lock, and the node with which its book began.
#[derive(Drop)]
pub struct SharedNode<K: Keeper, V: Verdicts> {
    turn: Turn<Box<Held<K>>>,
    verdicts: V,
    origin: Snapshot<Interactions>,
}

impl<K: Keeper, V: Verdicts> Model for SharedNode<K, V> {
    ghost use Rattle.mt_shared.specs.Shared.{SharedView};
    ghost use Rattle.mt_shared.specs.Acts.{HasVerdicts};
    ghost use Rattle.mt_tlv.specs.contracts.value.Value as values;
    ghost use Rattle.std.specs.Coded.{codes};
    ghost use Rattle.atomic_table.specs.Seated.{table_id_coded};

    ghost Value = { SharedView };

    ghost coded = { Prim.hlevel (codes, values.the_row.coded, table_id_coded) };

    ghost view = { λ shared. record { lock = shared.turn; origin = shared.origin.value } };

    ghost invariant = { λ shared. HasVerdicts shared.origin.value (V.roots shared.verdicts) (V.csrs shared.verdicts) (V.joins shared.verdicts) };
}

impl<K: Keeper + Drop + Send, V: Verdicts + Drop> SharedNode<K, V> {
    /// Puts a node under a lock, beside a keeper that has its map and with the verdicts of its configuration, and gives the first pass.
    /// The keeper comes back where memory is refused.
    pub fn new(
        alloc: Global,
        node: Interactions,
        keeper: K,
        verdicts: V,
    ) -> Result<(SharedNode<K, V>, NodePass), K>
        requires map { K.map keeper ≡ Some (map_of node) }
        requires runs { K.failed keeper ≡ false }
        requires admits { AdmitsStates K.admits }
        requires verdicts { HasVerdicts node (V.roots verdicts) (V.csrs verdicts) (V.joins verdicts) }
        ensures first { IfOk result (λ made. (made.0.origin ≡ node) × (made.1 ≡ first_pass made.0.lock node)) }
        ensures refused { IfErr result (λ given. given ≡ keeper) }
    {
        origins_cross();
        interactions_cross();
        entries_cross();
        let origin = Snapshot::of(&node);
        let held = match Box::new(alloc, Held::new(alloc, node, keeper)) {
            Ok(held) => held,
            Err(refused) => return Err(refused.value.into_keeper()),
        };
        match Turn::new(alloc, held) {
            Ok((turn, pass)) => Ok((
                SharedNode {
                    turn,
                    verdicts,
                    origin,
                },
                pass,
            )),
            Err(held) => Err(Box::into_inner(held).into_keeper()),
        }
    }

    /// Waits for its turn, and does what is asked.
    pub fn act<R: Wait>(&self, rt: &R, pass: &mut NodePass, call: Call) -> Result<Stamped, ActFault>
        requires own { IsPassOf self.now pass.old }
        requires within { IsWithin call.deed }
        requires form { HasForm call.event }
        ensures outside { IsOutsideAgain pass.old pass.new }
        ensures seen { IsPrefix pass.old.seen pass.new.seen }
        ensures answered { IfOk result (IsAnswered self.now.origin pass.old pass.new call) }
        ensures refused { IfErr result (IsRefused pass.old pass.new call) }
        ensures again { (it : AnyStop) → stop_in pass.old.seen ≡ Some it → result ≡ Err (ActFault.Stopped it) }
    {
        origins_cross();
        interactions_cross();
        entries_cross();
        let mut held = self.turn.enter(rt, pass);
        let answer = held.act(call, &self.verdicts);
        self.turn.leave(pass, held);
        answer
    }

    /// The same, and `watcher` is told how much the node is used behind it.
    pub fn act_watched<R: Wait, U: Watcher>(
        &self,
        rt: &R,
        pass: &mut NodePass,
        call: Call,
        watcher: &mut U,
    ) -> Result<Stamped, ActFault>
        requires own { IsPassOf self.now pass.old }
        requires within { IsWithin call.deed }
        requires form { HasForm call.event }
        ensures outside { IsOutsideAgain pass.old pass.new }
        ensures seen { IsPrefix pass.old.seen pass.new.seen }
        ensures answered { IfOk result (IsAnswered self.now.origin pass.old pass.new call) }
        ensures refused { IfErr result (IsRefused pass.old pass.new call) }
        ensures again { (it : AnyStop) → stop_in pass.old.seen ≡ Some it → result ≡ Err (ActFault.Stopped it) }
    {
        origins_cross();
        interactions_cross();
        entries_cross();
        let mut held = self.turn.enter(rt, pass);
        let answer = held.act(call, &self.verdicts);
        let usage = usage_of(&held.node);
        self.turn.leave(pass, held);
        watcher.sees(usage);
        answer
    }

    /// A pass for another thread, which has seen as much, with a share of 1 of this one's.
    pub fn split(&self, pass: &mut NodePass) -> Result<NodePass, AllocError>
        requires own { IsPassOf self.now pass.old }
        requires share { 2 ≤ pass.old.share }
        ensures kept { pass.new ≡ part_kept pass.old }
        ensures given { result ≡ Ok (part_given pass.old) }
    {
        origins_cross();
        interactions_cross();
        entries_cross();
        self.turn.split(pass)
    }

    /// Takes in what another pass has seen, its places and its share. Of what the two have seen the shorter list begins the longer,
    /// which is what this one has seen then.
    pub fn join(&self, pass: &mut NodePass, other: NodePass)
        requires own { IsPassOf self.now pass.old × IsPassOf self.now other }
        ensures both { pass.new ≡ joined pass.old other }
        ensures longer { (pass.new.seen ≡ pass.old.seen) ⊎ (pass.new.seen ≡ other.seen) }
        ensures begins { IsPrefix pass.old.seen pass.new.seen }
        ensures other_begins { IsPrefix other.seen pass.new.seen }
    {
        origins_cross();
        interactions_cross();
        entries_cross();
        self.turn.join(pass, other);
    }

    /// Gives the node, its keeper and its book, to the pass that has the whole share. It has seen all of the book, and each place of the
    /// book is one of its own calls or of those that it took over, once.
    pub fn close(self, pass: NodePass) -> Held<K>
        requires own { IsPassOf self pass }
        requires whole { pass.share ≡ 64 }
        ensures book { result.book.items ≡ pass.seen }
        ensures once { (k : ℕ) → k < length pass.seen → how_often k pass.places ≡ 1 }
        ensures no_other { (k : ℕ) → length pass.seen ≤ k → how_often k pass.places ≡ 0 }
        ensures origin { result.origin.value ≡ self.origin }
        ensures in_time { are_in_time pass.seen ≡ true }
        ensures timed { is_timed 0 pass.seen ≡ true }
        ensures node { result.node ≡ replay self.origin pass.seen }
        ensures kept { stop_in pass.seen ≡ None → K.map result.keeper ≡ Some (map_of result.node) }
        ensures failed { K.failed result.keeper ≡ is_some (stop_in pass.seen) }
        ensures few { length (lines_in pass.seen) ≤ RECORDING_LINES }
        ensures short { record_size pass.seen ≤ RECORDING_BYTES }
        ensures formed { ∥ AreFormed pass.seen ∥₁ }
        ensures counted { (stop : AnyStop) → stop_in pass.seen ≡ Some stop → K.faults result.keeper ≡ stop.after }
        ensures between { (stop : AnyStop) → stop_in pass.seen ≡ Some stop → ∥ StandsBetween (K.stands_between result.keeper) result.node (slice_get pass.seen stop.place) ∥₁ }
        ensures halted { (stop : AnyStop) → stop_in pass.seen ≡ Some stop → IsHalted stop result.node pass.seen (K.map result.keeper) }
    {
        origins_cross();
        interactions_cross();
        entries_cross();
        let SharedNode {
            turn,
            verdicts: _,
            origin: _,
        } = self;
        Box::into_inner(turn.close(pass))
    }
}
