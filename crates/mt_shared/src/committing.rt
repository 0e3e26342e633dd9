//! What lasts of a planned deed goes to the keeper.

ghost use Rattle.std.specs.Prelude.{◌≡◌, ◌⊎◌, List, Some, false, is_err, OnErr, OnOk};
ghost use Rattle.mt_durable.specs.Keeping.{Committed, HasRoom, IsAdmitted, IsChange, LeadsTo, WasOrCommitted};
ghost use Rattle.mt_durable.specs.declared.durable.Entry.{Entry};
ghost use Rattle.mt_outside.specs.Stream.{HasCause};
ghost use Rattle.mt_interactions.specs.Configured.{behind};
ghost use Rattle.mt_interactions.specs.Plan.{IsPlanned, applied_ledger, applied_state};
ghost use Rattle.mt_shared.specs.Acts.{AdmitsStates};
ghost use Rattle.mt_shared.specs.Replay.{map_of};

use mt_durable::{Keeper, changes_lead_on};
use mt_interactions::{InteractionOutcome, Interactions, commits_lead_on, maps_are_maps};
use mt_keeping::states_may_be_committed;
use mt_outside::Failed;

/// Commits what an outcome that was planned on a node changes of what lasts, where it changes something. The keeper has the map of
/// the node before it and that of the node behind it.
pub(crate) fn commit_if_any<K: Keeper>(
    node: &Interactions,
    outcome: &InteractionOutcome,
    keeper: &mut K,
) -> Result<(), Failed>
    requires planned { IsPlanned node.now.state node.now.ledger outcome.now }
    requires admits { AdmitsStates K.admits }
    requires map { K.map keeper.old ≡ Some (map_of node.now) }
    requires runs { K.failed keeper.old ≡ false }
    ensures committed { OnOk result (K.map keeper.new ≡ Some (map_of (behind (applied_state outcome.now node.now.state) (applied_ledger outcome.now node.now.state node.now.ledger) node.now))) }
    ensures part { OnErr result ((K.map keeper.new ≡ K.map keeper.old)
        ⊎ (K.map keeper.new ≡ Some (map_of (behind (applied_state outcome.now node.now.state) (applied_ledger outcome.now node.now.state node.now.ledger) node.now)))) }
    ensures failed { K.failed keeper.new ≡ is_err result }
    ensures cause { HasCause (K.faults keeper.old) (K.faults keeper.new) result }
    ensures between { OnErr result (K.stands_between keeper.new (map_of node.now) (map_of (behind (applied_state outcome.now node.now.state) (applied_ledger outcome.now node.now.state node.now.ledger) node.now))) }
{
    changes_lead_on();
    commits_lead_on();
    states_may_be_committed();
    maps_are_maps();
    let change = outcome.change();
    if change.is_empty() {
        return Ok(());
    }
    commit(keeper, change)
}

// The keeper's commit, apart: few calls change what lasts, and the others then make no room for what it needs.
#[inline(never)]
fn commit<K: Keeper>(keeper: &mut K, change: &[u8]) -> Result<(), Failed>
    requires form { IsChange change.now }
    requires room { HasRoom change.now (K.map keeper.old) }
    requires admitted { IsAdmitted K.admits change.now (K.map keeper.old) }
    ensures committed { OnOk result (Committed change.now (K.map keeper.old) (K.map keeper.new)) }
    ensures part { OnErr result (WasOrCommitted change.now (K.map keeper.old) (K.map keeper.new)) }
    ensures failed { K.failed keeper.new ≡ is_err result }
    ensures cause { K.failed keeper.old ≡ false → HasCause (K.faults keeper.old) (K.faults keeper.new) result }
    ensures between { (before : List Entry) (after : List Entry) → K.failed keeper.old ≡ false → K.map keeper.old ≡ Some before → LeadsTo change.now before after
        → OnErr result (K.stands_between keeper.new before after) }
{
    keeper.commit(change)
}
