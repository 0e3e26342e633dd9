//! A line of a plain actor, from what its payload was decoded to.

ghost use Rattle.std.specs.Prelude.{◌≡◌, Err, Ok, Some, IfOk, unwrap_or};
ghost use Rattle.mt_node.specs.mt_machine.Lines.{deadline_of, fault_reply, line_actor, sent_as, with_deadline};
ghost use Rattle.mt_node.specs.mt_machine.Step.{asker};
ghost use Rattle.mt_runs.specs.mt_ledger.Asking.{line_response, line_wish, with_wish};
ghost use Rattle.mt_runs.specs.mt_ledger.Subscribing.{behind_wish_if_any};
ghost use Rattle.mt_runs.specs.Lines.{sent_asked};
ghost use Rattle.mt_im.specs.Limits.{IsWithinLimits};
ghost use Rattle.mt_interactions.specs.Configured.{given_to};
ghost use Rattle.mt_interactions.specs.Plan.{IsLine};
ghost use Rattle.mt_interactions.specs.Replying.{replied_plainly, sent_both};
ghost use Rattle.mt_interactions.specs.Subscribing.{applied_subs};

use crate::behind::SubsBehind;
use crate::deadlines::{deadline_of, is_refused, left_without, next_deadlines};
use crate::interactions::Interactions;
use crate::outcome::InteractionOutcome;
use crate::reporting::with_events;
use crate::sending::{sent_as, sent_both};
use crate::subscribing;
use crate::subscribing::response_for;
use crate::wishes::wish_in_time;
use mt_im::ImFault;
use mt_model::{Action, Actor, Auth, PlainDeadlines, Reply, Request, SentList, Status, Verdicts};
use std::alloc::{AllocError, Global};

/// Whom a line names: the plain PASE session where its fabric is 0, otherwise a node of its fabric.
pub(crate) fn line_actor(fabric: u8, node: u64, cats: [u32; 3]) -> Actor
    ensures { result ≡ line_actor fabric node cats }
{
    if fabric == 0 {
        return Actor {
            fabric: 0,
            auth: Auth::Pase,
            node: 0,
            cats: [0; 3],
            session: None,
        };
    }
    Actor {
        fabric,
        auth: Auth::Case,
        node,
        cats,
        session: None,
    }
}

/// Plans a line: its messages, and what comes of it. What is no request goes the same way as what is one.
pub(crate) fn planned_line<V: Verdicts>(
    interactions: &Interactions,
    ms: u64,
    actor: &Actor,
    asked: &Result<Request, ImFault>,
    verdicts: &V,
) -> Result<(SentList, InteractionOutcome), AllocError>
    requires within { IfOk asked.now IsWithinLimits }
    ensures sent { let given = given_to interactions.now (V.roots verdicts.now) (V.csrs verdicts.now) (V.joins verdicts.now) in
        IfOk result (λ both. both.0 ≡ sent_asked given interactions.now.state interactions.now.ledger actor.now ms asked.now) }
    ensures outcome { let given = given_to interactions.now (V.roots verdicts.now) (V.csrs verdicts.now) (V.joins verdicts.now) in
        IfOk result (λ both. IsLine given interactions.now.state interactions.now.ledger ms actor.now asked.now both.1) }
{
    match interactions.node.asker(actor) {
        Some(asking) => planned_for(interactions, ms, actor, &asking, asked, verdicts),
        None => {
            let outcome = interactions.pass(ms, verdicts)?;
            Ok((SentList::new(interactions.alloc), outcome))
        },
    }
}

fn planned_for<V: Verdicts>(
    interactions: &Interactions,
    ms: u64,
    actor: &Actor,
    asking: &Actor,
    asked: &Result<Request, ImFault>,
    verdicts: &V,
) -> Result<(SentList, InteractionOutcome), AllocError>
    requires asks { asker interactions.now.state.node actor.now ≡ Some asking.now }
    requires within { IfOk asked.now IsWithinLimits }
    ensures sent { let given = given_to interactions.now (V.roots verdicts.now) (V.csrs verdicts.now) (V.joins verdicts.now) in
        IfOk result (λ both. both.0 ≡ sent_asked given interactions.now.state interactions.now.ledger actor.now ms asked.now) }
    ensures outcome { let given = given_to interactions.now (V.roots verdicts.now) (V.csrs verdicts.now) (V.joins verdicts.now) in
        IfOk result (λ both. IsLine given interactions.now.state interactions.now.ledger ms actor.now asked.now both.1) }
{
    let deadlines = next_deadlines(
        interactions.alloc,
        interactions.deadlines.as_slice(),
        asking,
        ms,
        asked,
    )?;
    match asked {
        Ok(request) => answered(
            interactions,
            ms,
            actor,
            asking,
            request,
            deadlines,
            verdicts,
        ),
        Err(fault) => refused(interactions, ms, actor, asking, *fault, deadlines, verdicts),
    }
}

// What a request is answered. What subscribes is answered with what it is told first, and that the subscription stands.
fn answered<V: Verdicts>(
    interactions: &Interactions,
    ms: u64,
    actor: &Actor,
    asking: &Actor,
    request: &Request,
    deadlines: Option<PlainDeadlines>,
    verdicts: &V,
) -> Result<(SentList, InteractionOutcome), AllocError>
    requires asks { asker interactions.now.state.node actor.now ≡ Some asking.now }
    requires within { IsWithinLimits request.now }
    requires next { unwrap_or deadlines interactions.now.state.deadlines ≡ with_deadline asking.now interactions.now.state.deadlines ms (Ok request.now) }
    ensures sent { let given = given_to interactions.now (V.roots verdicts.now) (V.csrs verdicts.now) (V.joins verdicts.now) in
        IfOk result (λ both. both.0 ≡ sent_asked given interactions.now.state interactions.now.ledger actor.now ms (Ok request.now)) }
    ensures outcome { let given = given_to interactions.now (V.roots verdicts.now) (V.csrs verdicts.now) (V.joins verdicts.now) in
        IfOk result (λ both. IsLine given interactions.now.state interactions.now.ledger ms actor.now (Ok request.now) both.1) }
{
    let timed = deadline_of(interactions.deadlines.as_slice(), asking);
    let node = interactions
        .node
        .plan_asked(actor, asking, request, timed, ms, verdicts)?;
    let deadlines = left_without(
        interactions.alloc,
        interactions.deadlines.as_slice(),
        deadlines,
        node.gone,
    )?;
    let (sent, subs) = replied(interactions, ms, asking, request, timed, &node.reply)?;
    let outcome = interactions.outcome(ms, node, deadlines, subs)?;
    Ok((sent, outcome))
}

// The messages of all that is replied, and what is made of the subscriptions.
fn replied(
    interactions: &Interactions,
    ms: u64,
    asking: &Actor,
    request: &Request,
    timed: Option<u64>,
    reply: &Reply,
) -> Result<(SentList, SubsBehind), AllocError>
    requires within { IsWithinLimits request.now }
    requires timed { timed ≡ deadline_of asking.now interactions.now.state.deadlines }
    ensures sent { IfOk result (λ both. both.0 ≡ sent_both ms asking.now.fabric (with_wish interactions.now.state.node interactions.now.ledger (line_wish interactions.now.state asking.now ms (Ok request.now)) (replied_plainly interactions.now.state interactions.now.ledger asking.now ms request.now reply.now)) (line_response interactions.now.state interactions.now.ledger asking.now ms (Ok request.now))) }
    ensures subs { IfOk result (λ both. applied_subs both.1 ms interactions.now.ledger.subs ≡ behind_wish_if_any interactions.now.state.node interactions.now.ledger ms (line_wish interactions.now.state asking.now ms (Ok request.now))) }
{
    let Some(wish) = wish_in_time(asking, timed, ms, request)? else {
        let sent = if_not_refused(interactions, ms, asking, request, reply)?;
        return Ok((sent, SubsBehind::Same));
    };
    let ceiling = wish.sub.ceiling;
    let answered = subscribing::answer(interactions, wish, ms)?;
    let response = response_for(ceiling, &answered.reply);
    let sent = sent_both(
        interactions.alloc,
        ms,
        asking.fabric,
        &answered.reply,
        &response,
    )?;
    Ok((sent, answered.subs))
}

// The messages of a reply and of the events that the request asks for, or those that refuse a time for which there is no room.
fn if_not_refused(
    interactions: &Interactions,
    ms: u64,
    asking: &Actor,
    request: &Request,
    reply: &Reply,
) -> Result<SentList, AllocError>
    requires { IsWithinLimits request.now }
    ensures { IfOk result (λ sent. sent ≡ sent_as ms asking.now.fabric (replied_plainly interactions.now.state interactions.now.ledger asking.now ms request.now reply.now)) }
{
    if is_refused(interactions.deadlines.as_slice(), asking, ms, request) {
        let busy = Reply::Status {
            code: Status::Busy.code(),
        };
        return sent_as(interactions.alloc, ms, asking.fabric, &busy);
    }
    match with_events(interactions, asking, request, reply)? {
        Some(full) => sent_as(interactions.alloc, ms, asking.fabric, &full),
        None => sent_as(interactions.alloc, ms, asking.fabric, reply),
    }
}

// What is no request is refused, and time passes.
fn refused<V: Verdicts>(
    interactions: &Interactions,
    ms: u64,
    actor: &Actor,
    asking: &Actor,
    fault: ImFault,
    deadlines: Option<PlainDeadlines>,
    verdicts: &V,
) -> Result<(SentList, InteractionOutcome), AllocError>
    requires asks { asker interactions.now.state.node actor.now ≡ Some asking.now }
    requires next { unwrap_or deadlines interactions.now.state.deadlines ≡ with_deadline asking.now interactions.now.state.deadlines ms (Err fault) }
    ensures sent { let given = given_to interactions.now (V.roots verdicts.now) (V.csrs verdicts.now) (V.joins verdicts.now) in
        IfOk result (λ both. both.0 ≡ sent_asked given interactions.now.state interactions.now.ledger actor.now ms (Err fault)) }
    ensures outcome { let given = given_to interactions.now (V.roots verdicts.now) (V.csrs verdicts.now) (V.joins verdicts.now) in
        IfOk result (λ both. IsLine given interactions.now.state interactions.now.ledger ms actor.now (Err fault) both.1) }
{
    let node = interactions.node.plan(&Action::Nothing, ms, verdicts)?;
    let sent = sent_as(interactions.alloc, ms, asking.fabric, &fault_reply(fault))?;
    let outcome = interactions.outcome(ms, node, deadlines, SubsBehind::Same)?;
    Ok((sent, outcome))
}

/// The reply to a payload that is no request.
pub fn fault_reply(fault: ImFault) -> Reply
    ensures { result ≡ fault_reply fault }
{
    let status = match fault {
        ImFault::TooManyPaths => Status::PathsExhausted,
        _ => Status::InvalidAction,
    };
    Reply::Status {
        code: status.code(),
    }
}
