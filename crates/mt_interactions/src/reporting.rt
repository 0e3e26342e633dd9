//! The events among what is replied.

ghost use Rattle.std.specs.Prelude.{◌≡◌, ◌≤◌, IfOk, length, unwrap_or};
ghost use Rattle.mt_events.specs.Reading.{asking};
ghost use Rattle.mt_events.specs.Telling.{answered};
ghost use Rattle.mt_runs.specs.mt_ledger.HistoryAsking.{events_asked, with_events};
ghost use Rattle.mt_im.specs.Limits.{IsWithinLimits};

use crate::interactions::Interactions;
use crate::telling::joined;
use mt_model::{Actor, ExactCopy, Paths, Reply, Request};
use std::alloc::AllocError;

/// The reply with the events that a request of an actor asks for behind its attributes. None where it stays as it is.
pub(crate) fn with_events(
    interactions: &Interactions,
    actor: &Actor,
    request: &Request,
    reply: &Reply,
) -> Result<Option<Reply>, AllocError>
    requires { IsWithinLimits request.now }
    ensures { IfOk result (λ full. unwrap_or full reply.now ≡ with_events (events_asked interactions.now.state.node.entries interactions.now.ledger.history.rings actor.now request.now) reply.now) }
{
    match request {
        Request::Read {
            events,
            minimum,
            ..
        } => with_told(interactions, actor, *minimum, events, reply),
        _ => Ok(None),
    }
}

fn with_told(
    interactions: &Interactions,
    actor: &Actor,
    minimum: u64,
    paths: &Paths,
    reply: &Reply,
) -> Result<Option<Reply>, AllocError>
    requires { length paths.now ≤ 16 }
    ensures { IfOk result (λ full. unwrap_or full reply.now ≡ with_events (answered (asking interactions.now.state.node.entries actor.now minimum paths.now) interactions.now.ledger.history.rings) reply.now) }
{
    // A read that names no events goes over none.
    if paths.as_slice().is_empty() {
        return Ok(None);
    }
    let Reply::Report {
        subscription,
        items,
        suppress,
    } = reply
    else {
        return Ok(None);
    };
    let told = interactions.history.after(
        interactions.alloc,
        &interactions.node,
        minimum,
        paths,
        actor,
    )?;
    Ok(Some(Reply::Report {
        subscription: *subscription,
        items: joined(items.copy()?, told)?,
        suppress: *suppress,
    }))
}
