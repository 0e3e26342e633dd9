//! What a subscription is answered.

ghost use Rattle.std.specs.Prelude.{◌≡◌, ◌≤◌, false, nat_lt, IfOk, length};
ghost use Rattle.mt_runs.specs.mt_ledger.Subscribing.{behind_wish, first_events, is_malformed, left_by, response_for, wish_reply};
ghost use Rattle.mt_node.specs.mt_machine.Step.{refusal};
ghost use Rattle.mt_model.specs.messages.Status.{code_of};
ghost use Rattle.mt_interactions.specs.Subscribing.{applied_subs, wish_by};
ghost use Rattle.mt_subs.specs.Subscriptions.{id_end, next_id};

use crate::behind::{SubsBehind, confirm_if};
use crate::interactions::Interactions;
use crate::telling::{attributes_for, joined, last_told};
use crate::wishes::{Wish, is_malformed};
use mt_model::{ExactCopy, Items, Reply, Status};
use mt_subs::{SubFault, Subs};
use std::alloc::AllocError;

/// What a wish is answered, and what is made of the subscriptions.
#[derive(Drop)]
pub(crate) struct Answered {
    pub(crate) reply: Reply,
    pub(crate) subs: SubsBehind,
}

/// What a wish is answered at this time, in ms. It changes nothing, and takes all the memory. Want of memory is told too where
/// the fabric has no further id, to which no node comes.
pub(crate) fn answer(
    interactions: &Interactions,
    wish: Wish,
    ms: u64,
) -> Result<Answered, AllocError>
    requires { length wish.sub.events ≤ 16 }
    ensures reply { IfOk result (λ answered. answered.reply ≡ wish_reply interactions.now.state.node interactions.now.ledger (wish_by wish)) }
    ensures subs { IfOk result (λ answered. applied_subs answered.subs ms interactions.now.ledger.subs ≡ behind_wish interactions.now.state.node interactions.now.ledger ms (wish_by wish)) }
{
    if is_malformed(&wish.sub) {
        return Ok(Answered {
            reply: refusal(Status::InvalidAction),
            subs: SubsBehind::Same,
        });
    }
    let subs = left_by(interactions, &wish)?;
    added(interactions, wish, subs, ms)
}

// The subscriptions that stay, of which there may be one more.
fn left_by(interactions: &Interactions, wish: &Wish) -> Result<Subs, AllocError>
    ensures { IfOk result (λ subs. subs ≡ left_by (wish_by wish.now) interactions.now.ledger.subs) }
{
    let mut subs = interactions.subs.copy()?;
    if !wish.keeps {
        subs.end_of_node(wish.sub.actor.fabric, wish.sub.actor.node);
    }
    Ok(subs)
}

// One more, where there is room, and its first report.
fn added(
    interactions: &Interactions,
    wish: Wish,
    subs: Subs,
    ms: u64,
) -> Result<Answered, AllocError>
    requires sound { is_malformed wish.sub ≡ false }
    requires few { length wish.sub.events ≤ 16 }
    requires left { subs ≡ left_by (wish_by wish) interactions.now.ledger.subs }
    ensures reply { IfOk result (λ answered. answered.reply ≡ wish_reply interactions.now.state.node interactions.now.ledger (wish_by wish)) }
    ensures subs { IfOk result (λ answered. applied_subs answered.subs ms interactions.now.ledger.subs ≡ behind_wish interactions.now.state.node interactions.now.ledger ms (wish_by wish)) }
{
    let actor = wish.sub.actor;
    let events = first_events(interactions, &wish)?;
    let event = last_told(wish.minimum.saturating_sub(1), events.as_slice());
    let attributes = attributes_for(
        interactions,
        &actor,
        &wish.sub.paths,
        wish.sub.filtered,
        &wish.versions,
    )?;
    let items = joined(attributes, events)?;
    let mut subs = subs;
    if !has_id(&subs, actor.fabric) {
        return Err(AllocError);
    }
    match subs.add(actor.fabric, wish.sub) {
        Ok(id) => {
            let change = interactions.node.state().changed;
            subs.reported(actor.fabric, id, ms, change, event);
            confirm_if(actor.session.is_none(), actor.fabric, id, &mut subs);
            Ok(Answered {
                reply: Reply::Report {
                    subscription: Some(id),
                    items,
                    suppress: false,
                },
                subs: SubsBehind::Other(Box::new(interactions.alloc, subs)?),
            })
        },
        Err(SubFault::Full) => Ok(Answered {
            reply: refusal(Status::ResourceExhausted),
            subs: SubsBehind::Other(Box::new(interactions.alloc, subs)?),
        }),
        Err(SubFault::Memory) => Err(AllocError),
    }
}

// The events of the first report.
fn first_events(interactions: &Interactions, wish: &Wish) -> Result<Items, AllocError>
    requires { length wish.now.sub.events ≤ 16 }
    ensures { IfOk result (λ items. items ≡ first_events interactions.now.state.node interactions.now.ledger.history (wish_by wish.now)) }
{
    interactions.history.after(
        interactions.alloc,
        &interactions.node,
        wish.minimum,
        &wish.sub.events,
        &wish.sub.actor,
    )
}

// Whether there is one more id for a fabric.
fn has_id(subs: &Subs, fabric: u8) -> bool
    ensures { result ≡ nat_lt (next_id fabric subs.now) (id_end fabric) }
{
    let end = if fabric == 0 {
        4_294_967_295
    } else {
        2_147_483_648
    };
    subs.next_id(fabric) < end
}

fn refusal(status: Status) -> Reply
    ensures { result ≡ refusal (code_of status) }
{
    Reply::Status {
        code: status.code(),
    }
}

/// What follows at once where a plain actor is told this: the subscription stands, with the ceiling that was asked for.
pub(crate) fn response_for(ceiling: u16, reply: &Reply) -> Reply
    ensures { result ≡ response_for ceiling reply.now }
{
    match reply {
        Reply::Report {
            subscription: Some(id),
            ..
        } => Reply::Subscribed { id: *id, ceiling },
        _ => Reply::Nothing,
    }
}
