//! Writes.

ghost use Rattle.std.specs.Prelude.{◌≡◌, IfOk, OnOk};
ghost use Rattle.mt_apps.specs.EntryEvents.{entry_events};
ghost use Rattle.mt_model.specs.rows.Seen.{own_entries};
ghost use Rattle.mt_machine.specs.Observation.{observation};
ghost use Rattle.mt_machine.specs.Step.{with_events, write_reply, write_steps};
ghost use Rattle.mt_write.specs.Writing.{write_answer};

use crate::node::Node;
use crate::requests::{is_untimely, refused, unless_suppressed};
use crate::telling::followed_by;
use mt_apps::entry_events;
use mt_machine::rows_stand_in_order;
use mt_model::{Actor, Effect, Reply, Sight, Status, Steps, Writes};
use mt_write::{Written, write};
use std::alloc::AllocError;

/// What a write is answered, where a deadline stood for it or none did, and the steps that it makes.
pub(crate) fn answered(
    node: &Node,
    asking: &Actor,
    stood: bool,
    suppress: bool,
    timed: bool,
    items: &Writes,
) -> Result<Effect, AllocError>
    ensures { let seen_by = observation asking.now.fabric node.now.state in
        IfOk result (λ answered. answered ≡ record { reply = write_reply seen_by asking.now stood suppress timed items.now; steps = write_steps seen_by asking.now stood timed items.now }) }
{
    if is_untimely(stood, timed) {
        return Ok(refused(node.alloc, Status::TimedRequestMismatch));
    }
    let Written { rows, statuses } = written(node, asking, timed, items)?;
    Ok(Effect {
        reply: unless_suppressed(suppress, Reply::Written { items: statuses }),
        steps: with_events(node, asking, rows)?,
    })
}

// What whoever asks writes, of what its fabric observes.
fn written(node: &Node, asking: &Actor, timed: bool, items: &Writes) -> Result<Written, AllocError>
    ensures { IfOk result (λ written. written ≡ write_answer (observation asking.now.fabric node.now.state).seen asking.now items.now timed) }
{
    rows_stand_in_order();
    write(node.alloc, node, asking, items, timed)
}

// The steps, and the events of those that set entries.
fn with_events(node: &Node, asking: &Actor, steps: Steps) -> Result<Steps, AllocError>
    ensures { IfOk result (λ all. all ≡ with_events (observation asking.now.fabric node.now.state) asking.now steps) }
{
    let entries = node.entries(asking.fabric);
    let events = entry_events(node.alloc, asking, entries, steps.as_slice())?;
    followed_by(steps, events)
}
