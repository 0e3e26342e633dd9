//! What comes of a line.

ghost use Rattle.std.specs.Prelude.{◌≡◌, IfOk};
ghost use Rattle.mt_node.specs.Plan as nodes;
ghost use Rattle.mt_interactions.specs.Plan.{IsPlanned, told_to_commit};

use crate::behind::SubsBehind;
use crate::interactions::Interactions;
use mt_model::PlainDeadlines;
use mt_node::{Outcome, bytes_to_commit, raised_ceilings_come_first};
use mt_tlv::Bytes;
use std::alloc::AllocError;

/// What a planned event makes of the interactions.
pub struct InteractionOutcome {
    // the time, in ms
    pub(crate) ms: u64,
    pub(crate) node: Outcome,
    // the deadlines of plain actors, None where they stay
    pub(crate) deadlines: Option<PlainDeadlines>,
    // what is made of the subscriptions
    pub(crate) subs: SubsBehind,
    // what has to be committed before it is put in place
    pub(crate) change: Bytes,
}

impl Drop for InteractionOutcome {
    fn drop(self) {
        let InteractionOutcome {
            ms: _,
            node: _,
            deadlines: _,
            subs: _,
            change: _,
        } = self;
    }
}

impl InteractionOutcome {
    /// The sessions that end.
    pub fn closed(&self) -> &[u16]
        ensures { result.now ≡ self.now.node.closed }
    {
        self.node.closed.as_slice()
    }

    /// The bytes of the change that has to be committed before it is put in place, none where nothing of what lasts changes.
    pub fn change(&self) -> &[u8]
        ensures { result.now ≡ self.now.change }
    {
        self.change.as_slice()
    }

    /// What putting it in place needs: the time, in ms, the node's outcome, the deadlines and the subscriptions.
    pub(crate) fn into_parts(self) -> (u64, Outcome, Option<PlainDeadlines>, SubsBehind)
        ensures { result ≡ (self.ms, self.node, self.deadlines, self.subs) }
    {
        let InteractionOutcome {
            ms,
            node,
            deadlines,
            subs,
            change: _,
        } = self;
        (ms, node, deadlines, subs)
    }
}

impl Interactions {
    /// The outcome of what was planned at this time, in ms, with what has to be committed for it. Want of memory is told where what it
    /// tells can't be recorded, to which no node comes: its numbers would be near their end.
    pub(crate) fn outcome(
        &self,
        ms: u64,
        node: Outcome,
        deadlines: Option<PlainDeadlines>,
        subs: SubsBehind,
    ) -> Result<InteractionOutcome, AllocError>
        requires { nodes.IsPlanned self.now.state.node node }
        ensures made { IfOk result (λ outcome. outcome ≡ record { ms = ms; node = node; deadlines = deadlines; subs = subs; change = told_to_commit self.now.ledger.history ms node }) }
        ensures planned { IfOk result (IsPlanned self.now.state self.now.ledger) }
    {
        raised_ceilings_come_first();
        if !self.history.may_record(node.told.as_slice()) {
            return Err(AllocError);
        }
        let ceiling = self.history.numbers().ceiling;
        let next = self.history.ceiling_behind(node.told.as_slice());
        let change = bytes_to_commit(self.alloc, ceiling, next, node.change.as_slice())?;
        Ok(InteractionOutcome {
            ms,
            node,
            deadlines,
            subs,
            change,
        })
    }
}
