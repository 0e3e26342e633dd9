//! A node beside a keeper in memory, with its book and the verdicts of its configuration.

ghost use Rattle.std.specs.Prelude.{◌≡◌, [], IfErr, IfOk};
ghost use Rattle.mt_files.specs.Form.{HasForm};
ghost use Rattle.mt_interactions.specs.Deeds.{IsWithin};
ghost use Rattle.mt_shared.specs.Acts.{HasVerdicts, IsEntered, Refuses};

use crate::start::begin;
use mt_durable::ListKeeper;
use mt_model::{Config, TableVerdicts};
use mt_shared::{ActFault, Call, Held, Stamped};
use std::alloc::{AllocError, Global};

/// A node that takes calls, one after the other.
#[derive(Drop)]
pub struct Bench {
    pub held: Held<ListKeeper>,
    verdicts: TableVerdicts,
    ghost judged: { HasVerdicts held.origin.value verdicts.roots verdicts.csrs verdicts.joins },
}

impl Bench {
    /// A new node with this configuration, whose keeper fails in the commits of these numbers, from 1.
    pub fn new(alloc: Global, config: &Config, fail: &[u64]) -> Result<Bench, AllocError>
        ensures { IfOk result (λ bench. bench.held.book.items ≡ []) }
    {
        let begun = begin(alloc, config, fail)?;
        Ok(Bench {
            held: Held::new(alloc, begun.node, begun.keeper),
            verdicts: begun.verdicts,
        })
    }

    /// Makes a call, as the node with a book does.
    pub fn act(&mut self, call: Call) -> Result<Stamped, ActFault>
        requires within { IsWithin call.deed }
        requires form { HasForm call.event }
        ensures entered { IfOk result (IsEntered self.new.held.origin.value self.old.held.book.items self.new.held.book.items call) }
        ensures refused { IfErr result (λ fault. Refuses fault call self.old.held.book.items self.new.held.book.items) }
    {
        self.held.act(call, &self.verdicts)
    }
}
