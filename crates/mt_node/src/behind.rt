//! The state behind steps that do more than set values. It is made whole, beside the one that stands, so that putting it
//! in place takes no memory.

ghost use Rattle.std.specs.Prelude.{◌≡◌, ℕ, true, IfOk, IsTrue};
ghost use Rattle.mt_model.specs.texts.Config.{ascend_from};
ghost use Rattle.mt_machine.specs.Step.{after_steps, at_time};
ghost use Rattle.mt_machine.specs.Taking.{may_take_all};
ghost use Rattle.mt_regained.specs.mt_lasting.Changes.{change_between};
ghost use Rattle.mt_node.specs.Plan.{IsMade};

use crate::between::{closed_between, differing_between, gone_between};
use crate::effects::{session_of, settle};
use crate::node::Node;
use crate::outcome::Outcome;
use crate::telling::{events_in, told_with};
use mt_durable::Change;
use mt_machine::{states_are_valid, steps_leave_states_valid};
use mt_model::{Actor, Effect, ExactCopy, NodeState, Places, Steps};
use mt_regained::{change_to, make_all, only_what_lasts_changes};
use std::alloc::{AllocError, Global};

/// The outcome of an answer whose steps the state takes: sessions may end, and a fabric may leave.
pub(crate) fn made_whole(
    node: &Node,
    asking: Option<Actor>,
    answered: Effect,
    now: u64,
) -> Result<Outcome, AllocError>
    requires { may_take_all asking answered.steps (at_time now node.now.state) ≡ true }
    ensures { IfOk result (IsMade node.now.state asking answered now) }
{
    let alloc = node.alloc;
    let Effect { reply, steps } = answered;
    let events = events_in(alloc, steps.as_slice())?;
    let (behind, change) = state_behind(node, asking, steps, now)?;
    let before = &node.state;
    let told = told_with(alloc, asking, events, before, &behind)?;
    let closed = closed_between(
        alloc,
        before.sessions.as_slice(),
        behind.sessions.as_slice(),
    )?;
    let gone = gone_between(before.fabrics.as_slice(), behind.fabrics.as_slice());
    Ok(Outcome {
        reply,
        session: session_of(asking),
        closed,
        gone,
        told,
        change,
        behind: Some(Box::new(alloc, behind)?),
        steps: Steps::new(alloc),
        places: Places::new(alloc),
        rows_rooms: Vec::new(alloc),
        entries_room: Vec::new(alloc),
        clock: now,
    })
}

// The state behind the steps, with the versions and change numbers that follow, and what lasts of the difference.
fn state_behind(
    node: &Node,
    asking: Option<Actor>,
    steps: Steps,
    now: u64,
) -> Result<(NodeState, Change), AllocError>
    requires { may_take_all asking steps (at_time now node.now.state) ≡ true }
    ensures made { IfOk result (λ both. both.0 ≡ after_steps asking steps (at_time now node.now.state)) }
    ensures entries { IfOk result (λ both. IsTrue (ascend_from 1 both.0.entries)) }
    ensures change { (ceiling : ℕ) → IfOk result (λ both. both.1 ≡ change_between node.now.state ceiling (after_steps asking steps (at_time now node.now.state)) ceiling) }
{
    states_are_valid();
    steps_leave_states_valid();
    only_what_lasts_changes();
    let mut behind = node.state.copy()?;
    behind.clock = now;
    make_all(node.alloc, asking, steps, &mut behind)?;
    let places = differing_between(node, &behind)?;
    let change = change_to(node.alloc, &node.state, &behind)?;
    settle(node.alloc, &mut behind, places.as_slice());
    Ok((behind, change))
}
