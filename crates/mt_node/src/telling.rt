//! Which events an action tells: those among its steps, the entries of a fabric that joins, and that a fabric leaves.

ghost use Rattle.std.specs.Prelude.{◌≡◌, ◌++◌, IfOk, IsTrue, List};
ghost use Rattle.std.specs.List.{list_any};
ghost use Rattle.mt_model.specs.texts.Config.{ascend_from};
ghost use Rattle.mt_model.specs.declared.node.action.NodeStep.{NodeStep};
ghost use Rattle.mt_machine.specs.Effects.{events_in};
ghost use Rattle.mt_machine.specs.Telling.{is_leave, joining_events, leaving_events, told_between};

use crate::between::gone_between;
use mt_apps::push_events_between;
use mt_meta::clusters::BASIC_INFORMATION;
use mt_meta::clusters::basic_information::LEAVE;
use mt_model::{AclEntry, Actor, NodeState, NodeStep, Place, Steps, entries_of};
use mt_opcreds::leave_event;
use std::alloc::{AllocError, Global};

/// What is told where steps with these events, of whoever is taken as asking, lead from one state to another, whose entries ascend.
pub(crate) fn told_with(
    alloc: Global,
    asking: Option<Actor>,
    events: Steps,
    state: &NodeState,
    behind: &NodeState,
) -> Result<Steps, AllocError>
    requires { IsTrue (ascend_from 1 behind.now.entries) }
    ensures { (steps : List NodeStep) → events ≡ events_in steps → IfOk result (λ told. told ≡ told_between asking steps state.now behind.now) }
{
    let fabrics = state.fabrics.as_slice();
    let fabrics_behind = behind.fabrics.as_slice();
    let joined = gone_between(fabrics_behind, fabrics);
    let gone = gone_between(fabrics, fabrics_behind);
    let joining = joining_events(alloc, asking, behind.entries.as_slice(), joined)?;
    let leaving = leaving_events(alloc, events.as_slice(), gone)?;
    followed_by(events, followed_by(joining, leaving)?)
}

/// The events among steps.
pub(crate) fn events_in(alloc: Global, steps: &[NodeStep]) -> Result<Steps, AllocError>
    ensures { IfOk result (λ told. told ≡ events_in steps.now) }
{
    let mut told = Steps::new(alloc);
    for step in steps {
        if let NodeStep::Emit {
            place,
            priority,
            fabric,
            value,
        } = step
        {
            told.push(NodeStep::Emit {
                place: *place,
                priority: *priority,
                fabric: *fabric,
                value: value.copy()?,
            })?;
        }
    }
    Ok(told)
}

/// These steps, and the others behind them.
pub(crate) fn followed_by(steps: Steps, others: Steps) -> Result<Steps, AllocError>
    ensures { IfOk result (λ all. all ≡ steps ++ others) }
{
    let mut all = steps.into_vec();
    let mut others = others.into_vec();
    all.append(&mut others)?;
    Ok(Steps::from_vec(all))
}

// A fabric that joins is told of its entries, which whoever asks has added.
fn joining_events(
    alloc: Global,
    asking: Option<Actor>,
    entries: &[AclEntry],
    joined: Option<u8>,
) -> Result<Steps, AllocError>
    requires { IsTrue (ascend_from 1 entries.now) }
    ensures { IfOk result (λ told. told ≡ joining_events asking entries.now joined) }
{
    let mut told = Steps::new(alloc);
    let Some(actor) = asking else {
        return Ok(told);
    };
    let Some(fabric) = joined else {
        return Ok(told);
    };
    let member = Actor { fabric, ..actor };
    push_events_between(alloc, &member, &[], entries_of(entries, fabric), &mut told)?;
    Ok(told)
}

// That a fabric leaves, where it is not told already.
fn leaving_events(alloc: Global, told: &[NodeStep], gone: Option<u8>) -> Result<Steps, AllocError>
    ensures { IfOk result (λ events. events ≡ leaving_events told.now gone) }
{
    let mut events = Steps::new(alloc);
    let Some(fabric) = gone else {
        return Ok(events);
    };
    if tells_of_leaving(told) {
        return Ok(events);
    }
    events.push(leave_event(alloc, fabric)?)?;
    Ok(events)
}

fn tells_of_leaving(told: &[NodeStep]) -> bool
    ensures { result ≡ list_any is_leave told.now }
{
    told.iter().any(|step| is_leave(step))
}

fn is_leave(step: &NodeStep) -> bool
    ensures { result ≡ is_leave step.now }
{
    let leave = Place {
        endpoint: 0,
        cluster: BASIC_INFORMATION,
        leaf: LEAVE,
    };
    match step {
        NodeStep::Emit { place, .. } => *place == leave,
        _ => false,
    }
}
