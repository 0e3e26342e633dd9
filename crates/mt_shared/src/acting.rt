//! A deed is done on a node beside its keeper: it is planned, what of it lasts is committed, and it is put in place.

ghost use Rattle.std.specs.Prelude.{◌≡◌, Some, false, IfErr, IfOk, OnErr, OnOk};
ghost use Rattle.mt_interactions.specs.Configured.{behind};
ghost use Rattle.mt_interactions.specs.Deeds.{IsWithin};
ghost use Rattle.mt_interactions.specs.Plan.{IsPlanned, applied_ledger, applied_state, closed_by};
ghost use Rattle.mt_shared.specs.Acts.{AdmitsStates, HasVerdicts};
ghost use Rattle.mt_shared.specs.Replay.{answer_to, behind_deed, map_of};
ghost use Rattle.mt_shared.specs.Refused.{Leaves};

use crate::committing::commit_if_any;
use crate::entry::Answer;
use crate::planning::{closed, plan};
use mt_durable::Keeper;
use mt_interactions::{Deed, InteractionOutcome, Interactions};
use mt_model::{SessionIds, Verdicts};
use std::alloc::Global;

/// Why a deed was not done.
#[derive(Clone, Copy, Drop)]
pub(crate) enum Refusal {
    /// Memory is wanting.
    Memory,
    /// The commit failed: how many faults the keeper counted before it, and how many behind it.
    Faults { before: u64, after: u64 },
}

/// Does a deed at this time, in ms: it is planned, what of it lasts is committed, and it is put in place. It stands apart, so that what
/// a plan needs is no part of what a call needs.
#[inline(never)]
pub(crate) fn act_on<K: Keeper, V: Verdicts>(
    alloc: Global,
    node: &mut Interactions,
    keeper: &mut K,
    deed: &Deed,
    ms: u64,
    verdicts: &V,
) -> Result<Answer, Refusal>
    requires within { IsWithin deed.now }
    requires verdicts { HasVerdicts node.old (V.roots verdicts.now) (V.csrs verdicts.now) (V.joins verdicts.now) }
    requires admits { AdmitsStates K.admits }
    requires map { K.map keeper.old ≡ Some (map_of node.old) }
    requires runs { K.failed keeper.old ≡ false }
    ensures answer { IfOk result (λ answer. answer ≡ answer_to node.old deed.now ms) }
    ensures done { OnOk result (node.new ≡ behind_deed node.old deed.now ms) }
    ensures kept { OnOk result (K.map keeper.new ≡ Some (map_of node.new)) }
    ensures runs { OnOk result (K.failed keeper.new ≡ false) }
    ensures stays { OnErr result (node.new ≡ node.old) }
    ensures left { let next = map_of (behind_deed node.old deed.now ms) in
        IfErr result (λ refusal. Leaves refusal (K.failed keeper.new) (K.faults keeper.new) (K.map keeper.old) (K.map keeper.new) next (K.stands_between keeper.new (map_of node.old) next)) }
{
    let planned = plan(node, deed, ms, verdicts);
    let closed = match &planned {
        Ok(planned) => committed(alloc, node, &planned.outcome, keeper)?,
        Err(_) => return Err(Refusal::Memory),
    };
    let Ok(planned) = planned else {
        return Err(Refusal::Memory);
    };
    let (reply, fabric, _, outcome) = planned.into_parts();
    node.apply(outcome);
    Ok(Answer {
        reply,
        fabric,
        closed,
    })
}

// Commits what lasts of what was planned. The sessions that end with it.
#[inline(never)]
fn committed<K: Keeper>(
    alloc: Global,
    node: &Interactions,
    outcome: &InteractionOutcome,
    keeper: &mut K,
) -> Result<SessionIds, Refusal>
    requires planned { IsPlanned node.now.state node.now.ledger outcome.now }
    requires admits { AdmitsStates K.admits }
    requires map { K.map keeper.old ≡ Some (map_of node.now) }
    requires runs { K.failed keeper.old ≡ false }
    ensures closed { IfOk result (λ closed. closed ≡ closed_by outcome.now) }
    ensures kept { OnOk result (K.map keeper.new ≡ Some (map_of (behind (applied_state outcome.now node.now.state) (applied_ledger outcome.now node.now.state node.now.ledger) node.now))) }
    ensures runs { OnOk result (K.failed keeper.new ≡ false) }
    ensures left { let next = map_of (behind (applied_state outcome.now node.now.state) (applied_ledger outcome.now node.now.state node.now.ledger) node.now) in
        IfErr result (λ refusal. Leaves refusal (K.failed keeper.new) (K.faults keeper.new) (K.map keeper.old) (K.map keeper.new) next (K.stands_between keeper.new (map_of node.now) next)) }
{
    let Ok(closed) = closed(alloc, outcome) else {
        return Err(Refusal::Memory);
    };
    let before = keeper.faults();
    let Ok(()) = commit_if_any(node, outcome, keeper) else {
        let after = keeper.faults();
        return Err(Refusal::Faults { before, after });
    };
    Ok(closed)
}
