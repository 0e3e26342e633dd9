//! A time step.

ghost use Rattle.std.specs.Prelude.{◌≡◌, IfOk};
ghost use Rattle.mt_interactions.specs.Configured.{given_to};
ghost use Rattle.mt_interactions.specs.Plan.{IsDone, IsTick};
ghost use Rattle.mt_runs.specs.mt_ledger.Behind.{acts};
ghost use Rattle.mt_model.specs.declared.node.action.Action.TheVariants.{Expire};

use crate::behind::SubsBehind;
use crate::deadlines::left_without;
use crate::interactions::Interactions;
use crate::outcome::InteractionOutcome;
use mt_model::{Action, Verdicts};
use mt_node::ticks_let_the_failsafe_expire;
use std::alloc::AllocError;

/// Plans a time step, which lets the fail-safe expire where it is time. It sends nothing; the deadlines of a fabric that
/// goes, go with it.
pub(crate) fn planned_tick<V: Verdicts>(
    interactions: &Interactions,
    ms: u64,
    verdicts: &V,
) -> Result<InteractionOutcome, AllocError>
    ensures tick { let given = given_to interactions.now (V.roots verdicts.now) (V.csrs verdicts.now) (V.joins verdicts.now) in
        IfOk result (IsTick given interactions.now.state interactions.now.ledger ms) }
    ensures done { let given = given_to interactions.now (V.roots verdicts.now) (V.csrs verdicts.now) (V.joins verdicts.now) in
        IfOk result (IsDone given interactions.now.state interactions.now.ledger (acts Expire) ms) }
{
    ticks_let_the_failsafe_expire();
    interactions.node.state_is_valid();
    let node = interactions.node.plan(&Action::Expire, ms, verdicts)?;
    let deadlines = left_without(
        interactions.alloc,
        interactions.deadlines.as_slice(),
        None,
        node.gone,
    )?;
    interactions.outcome(ms, node, deadlines, SubsBehind::Same)
}
