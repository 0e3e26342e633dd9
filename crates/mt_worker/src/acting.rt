//! What the threads of a served node act with, and one call of the node.

ghost use Rattle.std.specs.Prelude.{IfErr, IfOk};
ghost use mathlib.Core.List.{IsPrefix};
ghost use Rattle.mt_files.specs.Form.{HasForm};
ghost use Rattle.mt_layer.specs.mt_interactions.Deeds.{IsWithin};
ghost use Rattle.mt_layer.specs.mt_shared.Shared.{IsAnswered, IsPassOf};
ghost use Rattle.mt_turn.specs.History.{IsOutsideAgain};
ghost use Rattle.mt_worker.specs.Faults.{IsDenied};

use crate::fault::WorkFault;
use mt_durable::Keeper;
use mt_layer::{Call, NodePass, SharedNode, Stamped, Watcher};
use mt_model::Verdicts;
use mt_outside::{Gate, Point};
use std::sync::Wait;

/// What a thread of a served node acts with: what it waits by, the node, the gate, and the number that the gate is told.
#[derive(Drop)]
pub(crate) struct Desk<'a, R, K: Keeper, V: Verdicts, G> {
    pub(crate) rt: &'a R,
    pub(crate) node: &'a SharedNode<K, V>,
    pub(crate) gate: &'a G,
    pub(crate) number: u32,
}

impl<'a, R: Wait, K: Keeper + Drop + Send, V: Verdicts + Drop, G: Gate> Desk<'a, R, K, V, G> {
    /// Acts on the node, where whoever has this number may be held just before and just behind that.
    pub(crate) fn act(&self, pass: &mut NodePass, call: Call) -> Result<Stamped, WorkFault>
        requires own { IsPassOf self.now.node.now pass.old }
        requires within { IsWithin call.deed }
        requires form { HasForm call.event }
        ensures outside { IsOutsideAgain pass.old pass.new }
        ensures seen { IsPrefix pass.old.seen pass.new.seen }
        ensures answered { IfOk result (IsAnswered self.now.node.now.origin pass.old pass.new call) }
        ensures refused { IfErr result (IsDenied pass.old pass.new call) }
    {
        self.gate.pass(self.number, Point::BeforeAct);
        let answered = self.node.act(self.rt, pass, call);
        self.gate.pass(self.number, Point::AfterAct);
        Ok(answered?)
    }

    /// The same, and `watcher` is told how much the node is used behind it.
    pub(crate) fn act_watched<U: Watcher>(
        &self,
        pass: &mut NodePass,
        call: Call,
        watcher: &mut U,
    ) -> Result<Stamped, WorkFault>
        requires own { IsPassOf self.now.node.now pass.old }
        requires within { IsWithin call.deed }
        requires form { HasForm call.event }
        ensures outside { IsOutsideAgain pass.old pass.new }
        ensures seen { IsPrefix pass.old.seen pass.new.seen }
        ensures answered { IfOk result (IsAnswered self.now.node.now.origin pass.old pass.new call) }
        ensures refused { IfErr result (IsDenied pass.old pass.new call) }
    {
        self.gate.pass(self.number, Point::BeforeAct);
        let answered = self.node.act_watched(self.rt, pass, call, watcher);
        self.gate.pass(self.number, Point::AfterAct);
        Ok(answered?)
    }
}
