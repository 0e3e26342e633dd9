//! What the node with its plain actors is, lent to whoever compares two of them.

ghost use Rattle.std.specs.Prelude.{◌≡◌};
ghost use Rattle.mt_events.specs.Rings.{AreRings};
ghost use Rattle.mt_node.specs.mt_machine.State.{IsValid};

use crate::interactions::Interactions;
use mt_events::{Numbers, Rings};
use mt_model::{NodeState, PlainDeadline};
use mt_subs::Subs;

impl Interactions {
    /// The state of the node, which is valid.
    pub fn state(&self) -> &NodeState
        ensures same { result.now ≡ self.now.state.node }
        ensures valid { IsValid result.now }
    {
        self.node.state_is_valid();
        self.node.state()
    }

    /// The deadlines of plain actors.
    pub fn deadlines(&self) -> &[PlainDeadline]
        ensures { result.now ≡ self.now.state.deadlines }
    {
        self.deadlines.as_slice()
    }

    /// The latest events. No ring has more than it keeps.
    pub fn rings(&self) -> &Rings
        ensures same { result.now ≡ self.now.ledger.history.rings }
        ensures kept { AreRings result.now }
    {
        self.history.rings()
    }

    /// The numbers of events.
    pub fn numbers(&self) -> Numbers
        ensures { result ≡ self.now.ledger.history.numbers }
    {
        self.history.numbers()
    }

    /// The subscriptions.
    pub fn subs(&self) -> &Subs
        ensures { result.now ≡ self.now.ledger.subs }
    {
        &self.subs
    }
}
