//! What is asked over a session.

ghost use Rattle.std.specs.Prelude.{◌≡◌, Ok, IfOk, map, option_copied, unwrap_or};
ghost use Rattle.mt_node.specs.mt_machine.Lines.{action_of};
ghost use Rattle.mt_node.specs.mt_machine.Step.{session_actor};
ghost use Rattle.mt_model.specs.declared.messages.message.Payload.{Payload};
ghost use Rattle.mt_runs.specs.Datagrams.{actor_on, dated, deadline_set, payloads_confirmed, payloads_over, reply_over};
ghost use Rattle.mt_subs.specs.Subscriptions.{kept_at};
ghost use Rattle.mt_runs.specs.Whole.{fabric_over};
ghost use Rattle.mt_runs.specs.mt_ledger.HistoryAsking.{events_asked, with_events};
ghost use Rattle.mt_runs.specs.mt_ledger.Asking.{with_wish};
ghost use Rattle.mt_runs.specs.mt_ledger.Behind.{acts, confirms, ends};
ghost use Rattle.mt_runs.specs.mt_ledger.Subscribing.{behind_wish_if_any, confirm_reply, wish_in_time};
ghost use Rattle.mt_im.specs.Limits.{IsWithinLimits};
ghost use Rattle.mt_interactions.specs.Configured.{given_to};
ghost use Rattle.mt_interactions.specs.Plan.{IsDone, IsPassing};
ghost use Rattle.mt_interactions.specs.Subscribing.{applied_subs};

use crate::behind::SubsBehind;
use crate::deadlines::{is_late, left_without};
use crate::interactions::Interactions;
use crate::lines::fault_reply;
use crate::outcome::InteractionOutcome;
use crate::reporting::with_events;
use crate::subscribing;
use crate::wishes::wish_in_time;
use mt_im::ImFault;
use mt_im_out::chunks;
use mt_model::{Action, Actor, Auth, Payload, Payloads, Reply, Request, Verdicts};
use mt_subs::Kept;
use std::alloc::{AllocError, Global};

impl Interactions {
    /// Plans to answer what was asked over a session at this time, in ms, from what its payload was decoded to: the
    /// payloads of the answer, and what comes of it. The deadline is that of the exchange. Nothing is answered where the
    /// session is not live.
    pub fn plan_over<V: Verdicts>(
        &self,
        session: u16,
        asked: &Result<Request, ImFault>,
        timed: Option<u64>,
        ms: u64,
        verdicts: &V,
    ) -> Result<(Payloads, InteractionOutcome), AllocError>
        requires within { IfOk asked.now IsWithinLimits }
        ensures payloads { let given = given_to self.now (V.roots verdicts.now) (V.csrs verdicts.now) (V.joins verdicts.now) in
            IfOk result (λ both. both.0 ≡ payloads_over given self.now.state.node self.now.ledger session timed ms asked.now) }
        ensures outcome { let given = given_to self.now (V.roots verdicts.now) (V.csrs verdicts.now) (V.joins verdicts.now) in
            IfOk result (λ both. IsDone given self.now.state self.now.ledger (acts (action_of (actor_on session) timed asked.now)) ms both.1) }
    {
        match asked {
            Ok(request) => {
                let (full, outcome) = self.asked_over(session, request, timed, ms, verdicts)?;
                let payloads = chunks(self.alloc, told(&full, &outcome.node.reply))?;
                Ok((dated(payloads, deadline_set(timed, ms, request)), outcome))
            },
            Err(fault) => {
                let payloads = chunks(self.alloc, &fault_reply(*fault))?;
                let outcome = self.pass(ms, verdicts)?;
                Ok((payloads, outcome))
            },
        }
    }

    /// What a request over a session is replied, None where the reply of the node's outcome stands as it is, and what comes of it.
    pub(crate) fn asked_over<V: Verdicts>(
        &self,
        session: u16,
        request: &Request,
        timed: Option<u64>,
        ms: u64,
        verdicts: &V,
    ) -> Result<(Option<Reply>, InteractionOutcome), AllocError>
        requires within { IsWithinLimits request.now }
        ensures reply { let given = given_to self.now (V.roots verdicts.now) (V.csrs verdicts.now) (V.joins verdicts.now) in
            IfOk result (λ both. unwrap_or both.0 both.1.node.reply ≡ reply_over given self.now.state.node self.now.ledger session timed ms (Ok request.now)) }
        ensures outcome { let given = given_to self.now (V.roots verdicts.now) (V.csrs verdicts.now) (V.joins verdicts.now) in
            IfOk result (λ both. IsDone given self.now.state self.now.ledger (acts (Action.Ask (actor_on session) request.now timed)) ms both.1) }
    {
        let actor = actor_on(session);
        let Some(asking) = self.node.asker(&actor) else {
            let outcome = self.pass(ms, verdicts)?;
            return Ok((Some(Reply::Nothing), outcome));
        };
        let node = self
            .node
            .plan_asked(&actor, &asking, request, timed, ms, verdicts)?;
        let deadlines = left_without(self.alloc, self.deadlines.as_slice(), None, node.gone)?;
        let (full, subs) = self.replied_over(&asking, request, timed, ms, &node.reply)?;
        let outcome = self.outcome(ms, node, deadlines, subs)?;
        Ok((full, outcome))
    }

    // The reply over a session with the events that the request asks for, None where it stays as it is, and what is made of the
    // subscriptions.
    fn replied_over(
        &self,
        asking: &Actor,
        request: &Request,
        timed: Option<u64>,
        ms: u64,
        reply: &Reply,
    ) -> Result<(Option<Reply>, SubsBehind), AllocError>
        requires { IsWithinLimits request.now }
        ensures reply { IfOk result (λ both. unwrap_or both.0 reply.now ≡ with_wish self.now.state.node self.now.ledger (wish_in_time asking.now timed ms request.now) (with_events (events_asked self.now.state.node.entries self.now.ledger.history.rings asking.now request.now) reply.now)) }
        ensures subs { IfOk result (λ both. applied_subs both.1 ms self.now.ledger.subs ≡ behind_wish_if_any self.now.state.node self.now.ledger ms (wish_in_time asking.now timed ms request.now)) }
    {
        let Some(wish) = wish_in_time(asking, timed, ms, request)? else {
            let full = with_events(self, asking, request, reply)?;
            return Ok((full, SubsBehind::Same));
        };
        let answered = subscribing::answer(self, wish, ms)?;
        Ok((Some(answered.reply), answered.subs))
    }

    /// Plans what a confirmation over a session brings, at this time in ms: the subscription whose report it confirms is live,
    /// and stands where that was the first. It is of the fabric for which the session is live.
    pub fn plan_confirm<V: Verdicts>(
        &self,
        session: u16,
        subscription: u32,
        ms: u64,
        verdicts: &V,
    ) -> Result<(Payloads, InteractionOutcome), AllocError>
        ensures payloads { IfOk result (λ both. both.0 ≡ payloads_confirmed (fabric_over self.now.state.node session) subscription self.now.ledger.subs) }
        ensures outcome { let given = given_to self.now (V.roots verdicts.now) (V.csrs verdicts.now) (V.joins verdicts.now) in
            IfOk result (λ both. IsDone given self.now.state self.now.ledger (confirms (fabric_over self.now.state.node session) subscription) ms both.1) }
    {
        let fabric = self.fabric_over(session);
        let (reply, outcome) = self.confirmed(fabric, subscription, ms, verdicts)?;
        let payloads = chunks(self.alloc, &reply)?;
        Ok((payloads, outcome))
    }

    /// What the confirmation of a report to a subscription of a fabric is replied, and what comes of it.
    pub(crate) fn confirmed<V: Verdicts>(
        &self,
        fabric: u8,
        subscription: u32,
        ms: u64,
        verdicts: &V,
    ) -> Result<(Reply, InteractionOutcome), AllocError>
        ensures reply { IfOk result (λ both. both.0 ≡ confirm_reply subscription (kept_at fabric subscription self.now.ledger.subs)) }
        ensures outcome { let given = given_to self.now (V.roots verdicts.now) (V.csrs verdicts.now) (V.joins verdicts.now) in
            IfOk result (λ both. IsDone given self.now.state self.now.ledger (confirms fabric subscription) ms both.1) }
    {
        let reply = confirm_reply(subscription, self.subs.get(fabric, subscription));
        let subs = SubsBehind::Confirmed {
            fabric,
            id: subscription,
        };
        let outcome = self.passing(ms, subs, verdicts)?;
        Ok((reply, outcome))
    }

    /// Plans that subscriptions of the fabric for which a session is live end, at this time in ms.
    pub fn plan_ends<V: Verdicts>(
        &self,
        session: u16,
        ids: Vec<u32>,
        ms: u64,
        verdicts: &V,
    ) -> Result<InteractionOutcome, AllocError>
        ensures { let given = given_to self.now (V.roots verdicts.now) (V.csrs verdicts.now) (V.joins verdicts.now) in
            IfOk result (IsDone given self.now.state self.now.ledger (ends (fabric_over self.now.state.node session) ids.items) ms) }
    {
        let fabric = self.fabric_over(session);
        self.ended(fabric, ids, ms, verdicts)
    }

    /// What comes of it that subscriptions of a fabric end.
    pub(crate) fn ended<V: Verdicts>(
        &self,
        fabric: u8,
        ids: Vec<u32>,
        ms: u64,
        verdicts: &V,
    ) -> Result<InteractionOutcome, AllocError>
        ensures { let given = given_to self.now (V.roots verdicts.now) (V.csrs verdicts.now) (V.joins verdicts.now) in
            IfOk result (IsDone given self.now.state self.now.ledger (ends fabric ids.items) ms) }
    {
        self.passing(ms, SubsBehind::Ended { fabric, ids }, verdicts)
    }

    // Time passes, and this is made of the subscriptions.
    pub(crate) fn passing<V: Verdicts>(
        &self,
        ms: u64,
        subs: SubsBehind,
        verdicts: &V,
    ) -> Result<InteractionOutcome, AllocError>
        ensures { let given = given_to self.now (V.roots verdicts.now) (V.csrs verdicts.now) (V.joins verdicts.now) in
            IfOk result (IsPassing given self.now.state self.now.ledger ms subs) }
    {
        let node = self.node.plan(&Action::Nothing, ms, verdicts)?;
        self.outcome(ms, node, None, subs)
    }

    // The fabric for which a session is live, 0 where it is not.
    fn fabric_over(&self, session: u16) -> u8
        ensures { result ≡ fabric_over self.now.state.node session }
    {
        match self.node.actor(session) {
            Some(actor) => actor.fabric,
            None => 0,
        }
    }

    /// Plans that time passes, and nothing else.
    pub fn pass<V: Verdicts>(&self, ms: u64, verdicts: &V) -> Result<InteractionOutcome, AllocError>
        ensures { let given = given_to self.now (V.roots verdicts.now) (V.csrs verdicts.now) (V.joins verdicts.now) in
            IfOk result (IsDone given self.now.state self.now.ledger (acts Action.Nothing) ms) }
    {
        self.passing(ms, SubsBehind::Same, verdicts)
    }

    /// The actor of a session, None exactly where the session is not live.
    pub fn actor(&self, session: u16) -> Option<Actor>
        ensures { result ≡ session_actor self.now.state.node session }
    {
        self.node.actor(session)
    }
}

// What is replied: this where it is there, otherwise the reply as it is.
fn told<'a>(full: &'a Option<Reply>, reply: &'a Reply) -> &'a Reply
    ensures { result.now ≡ unwrap_or full.now reply.now }
{
    match full {
        Some(full) => full,
        None => reply,
    }
}

// What a confirmation is answered.
fn confirm_reply(id: u32, kept: Option<&Kept>) -> Reply
    ensures { result ≡ confirm_reply id (option_copied kept.entry) }
{
    match kept {
        Some(kept) => {
            if kept.primed {
                return Reply::Nothing;
            }
            Reply::Subscribed {
                id,
                ceiling: kept.sub.ceiling,
            }
        },
        None => Reply::Nothing,
    }
}

// Who asks over a session is taken as its peer.
fn actor_on(session: u16) -> Actor
    ensures { result ≡ actor_on session }
{
    Actor {
        fabric: 0,
        auth: Auth::Case,
        node: 0,
        cats: [0; 3],
        session: Some(session),
    }
}

/// Until when, in ms, the next request of an exchange must come, where a request at this time sets that in time. `timed` is until when
/// that request itself had to come.
pub fn deadline_set(timed: Option<u64>, ms: u64, request: &Request) -> Option<u64>
    ensures { result ≡ deadline_set timed ms (Ok request.now) }
{
    match request {
        Request::Timed { ms: wait } => {
            if is_late(timed, ms) {
                return None;
            }
            Some(ms.saturating_add(*wait as u64))
        },
        _ => None,
    }
}

/// The payloads, which carry until when the next request must come.
pub fn dated(payloads: Payloads, until: Option<u64>) -> Payloads
    ensures { result ≡ dated until payloads }
{
    if until.is_none() {
        return payloads;
    }
    Payloads::from_vec(all_dated(payloads.into_vec(), until))
}

fn all_dated(payloads: Vec<Payload>, until: Option<u64>) -> Vec<Payload>
    ensures { result.items ≡ map (λ (payload : Payload). record payload { deadline = until }) payloads.items }
{
    let mut payloads = payloads;
    for payload in payloads.iter_mut() {
        date(payload, until);
    }
    payloads
}

fn date(payload: &mut Payload, until: Option<u64>)
    ensures { payload.new ≡ record payload.old { deadline = until } }
{
    payload.deadline = until;
}
