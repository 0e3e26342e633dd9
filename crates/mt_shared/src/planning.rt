//! What a deed is answered, and what comes of it.

ghost use Rattle.std.specs.Prelude.{◌≡◌, IfOk};
ghost use Rattle.mt_interactions.specs.Deeds.{IsWithin};
ghost use Rattle.mt_interactions.specs.Plan.{IsDone, closed_by};
ghost use Rattle.mt_shared.specs.Acts.{HasVerdicts};
ghost use Rattle.mt_shared.specs.Replay.{activity_in, answer_of, answer_to, given_in};

use mt_interactions::{Deed, InteractionOutcome, Interactions, PlannedDeed};
use mt_model::{SessionIds, Verdicts};
use std::alloc::{AllocError, Global};

/// Plans a deed at this time, in ms. It changes nothing, and takes all the memory but that of the sessions that end.
pub(crate) fn plan<V: Verdicts>(
    node: &Interactions,
    deed: &Deed,
    ms: u64,
    verdicts: &V,
) -> Result<PlannedDeed, AllocError>
    requires within { IsWithin deed.now }
    requires verdicts { HasVerdicts node.now (V.roots verdicts.now) (V.csrs verdicts.now) (V.joins verdicts.now) }
    ensures answer { IfOk result (λ planned. answer_of planned ≡ answer_to node.now deed.now ms) }
    ensures outcome { IfOk result (λ planned. IsDone (given_in node.now) node.now.state node.now.ledger (activity_in node.now deed.now ms) ms planned.outcome) }
{
    node.plan_deed(deed, ms, verdicts)
}

/// The sessions that end with what was planned.
pub(crate) fn closed(alloc: Global, outcome: &InteractionOutcome) -> Result<SessionIds, AllocError>
    ensures { IfOk result (λ closed. closed ≡ closed_by outcome.now) }
{
    let closed = outcome.closed();
    if closed.is_empty() {
        return Ok(SessionIds::from_vec(Vec::new(alloc)));
    }
    copied(alloc, closed)
}

// A copy of these. It stands apart, since few deeds end sessions.
#[inline(never)]
fn copied(alloc: Global, closed: &[u16]) -> Result<SessionIds, AllocError>
    ensures { IfOk result (λ copied. copied ≡ closed.now) }
{
    let copied = Vec::from_slice(alloc, closed)?;
    Ok(SessionIds::from_vec(copied))
}
