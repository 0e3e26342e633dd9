//! Deeds: what is asked of the node by session, as data that a book can keep.

ghost use Rattle.std.specs.Prelude.{◌≡◌, IfOk, unwrap_or};
ghost use Rattle.mt_im.specs.Limits.{IsWithinLimits};
ghost use Rattle.mt_runs.specs.mt_ledger.Behind.{acts, reports};
ghost use Rattle.mt_model.specs.declared.messages.message.Reply.TheVariants as replies;
ghost use Rattle.mt_model.specs.declared.node.action.Action.TheVariants as actions;
ghost use Rattle.mt_runs.specs.Whole.{fabric_live};
ghost use Rattle.mt_interactions.specs.Configured.{given_to};
ghost use Rattle.mt_interactions.specs.Deeds.{IsWithin, activity_at, closed_with, ended_at, fabric_at, has_come, replied, session_at};
ghost use Rattle.mt_interactions.specs.Plan.{IsDone, closed_by};

use crate::interactions::Interactions;
use crate::outcome::InteractionOutcome;
use crate::ticks::planned_tick;
use mt_exchange::{EndTime, EndTimes};
use mt_model::{ExactCopy, Reply, Request, Verdicts};
use std::alloc::{AllocError, Global};

/// What is done to the node. It names a session and no state, so a book can keep it, and what it does is told by the state in
/// which it is done: over a session that is not live, nothing.
#[derive(Drop)]
pub enum Deed {
    /// A request is asked over a session. The deadline, in ms, is that of its exchange.
    Ask {
        session: u16,
        request: Request,
        timed: Option<u64>,
    },
    /// The last payload of a subscription's report is confirmed over a session.
    Confirm {
        session: u16,
        subscription: u32,
    },
    /// Subscriptions end that were told over a session: those whose time has come. With none of them time passes.
    Ends {
        session: u16,
        at: EndTimes,
    },
    /// A subscription is reported to, where that is due.
    Report {
        fabric: u8,
        subscription: u32,
    },
    /// The fail-safe expires, where it is time.
    Expire,
    /// Something comes over a session that asks nothing of the node. Time passes.
    Nothing {
        session: u16,
    },
}

/// A planned deed: what is replied, of whom it is, and what comes of it. It sends nothing.
pub struct PlannedDeed {
    /// What is replied, before it is cut into payloads and these are dated.
    pub reply: Reply,
    /// The fabric for which the deed's session was live as it began, None where it was not: then nothing is sent over it. A
    /// report has the fabric that it names; an expiry has none.
    pub fabric: Option<u8>,
    /// The session that the deed names, or over which the subscription stands that it reports to.
    pub session: Option<u16>,
    /// What comes of it.
    pub outcome: InteractionOutcome,
}

impl Drop for PlannedDeed {
    fn drop(self) {
        let PlannedDeed {
            reply: _,
            fabric: _,
            session: _,
            outcome: _,
        } = self;
    }
}

impl PlannedDeed {
    /// What is replied, of which fabric it is, the session, and what comes of it.
    pub fn into_parts(self) -> (Reply, Option<u8>, Option<u16>, InteractionOutcome)
        ensures { result ≡ (self.reply, self.fabric, self.session, self.outcome) }
    {
        let PlannedDeed {
            reply,
            fabric,
            session,
            outcome,
        } = self;
        (reply, fabric, session, outcome)
    }
}

impl Interactions {
    /// Plans a deed at this time, in ms, by the verdicts on certificates that are handed in: what is replied, and what comes of
    /// it. It changes nothing, and takes all the memory.
    pub fn plan_deed<V: Verdicts>(
        &self,
        deed: &Deed,
        ms: u64,
        verdicts: &V,
    ) -> Result<PlannedDeed, AllocError>
        requires within { IsWithin deed.now }
        ensures reply { let given = given_to self.now (V.roots verdicts.now) (V.csrs verdicts.now) (V.joins verdicts.now) in
            IfOk result (λ planned. planned.reply ≡ replied given self.now.state.node self.now.ledger deed.now ms) }
        ensures fabric { IfOk result (λ planned. planned.fabric ≡ fabric_at self.now.state.node deed.now) }
        ensures session { IfOk result (λ planned. planned.session ≡ session_at self.now.ledger deed.now) }
        ensures outcome { let given = given_to self.now (V.roots verdicts.now) (V.csrs verdicts.now) (V.joins verdicts.now) in
            IfOk result (λ planned. IsDone given self.now.state self.now.ledger (activity_at self.now.state.node deed.now ms) ms planned.outcome) }
        ensures closed { let given = given_to self.now (V.roots verdicts.now) (V.csrs verdicts.now) (V.joins verdicts.now) in
            IfOk result (λ planned. closed_by planned.outcome ≡ closed_with given self.now.state.node deed.now ms) }
    {
        let fabric = self.fabric_at(deed);
        let session = self.session_at(deed);
        let (reply, outcome) = self.done(deed, ms, verdicts)?;
        Ok(PlannedDeed {
            reply,
            fabric,
            session,
            outcome,
        })
    }

    // The fabric for which the session of a deed is live as it begins.
    fn fabric_at(&self, deed: &Deed) -> Option<u8>
        ensures { result ≡ fabric_at self.now.state.node deed.now }
    {
        match deed {
            Deed::Ask { session, .. } => self.fabric_live(*session),
            Deed::Confirm { session, .. } => self.fabric_live(*session),
            Deed::Ends { session, .. } => self.fabric_live(*session),
            Deed::Report { fabric, .. } => Some(*fabric),
            Deed::Expire => None,
            Deed::Nothing { session } => self.fabric_live(*session),
        }
    }

    // The session that a deed is of.
    fn session_at(&self, deed: &Deed) -> Option<u16>
        ensures { result ≡ session_at self.now.ledger deed.now }
    {
        match deed {
            Deed::Ask { session, .. } => Some(*session),
            Deed::Confirm { session, .. } => Some(*session),
            Deed::Ends { session, .. } => Some(*session),
            Deed::Report {
                fabric,
                subscription,
            } => {
                let kept = self.subs.get(*fabric, *subscription)?;
                kept.sub.actor.session
            },
            Deed::Expire => None,
            Deed::Nothing { session } => Some(*session),
        }
    }

    // The fabric for which a session is live, None exactly where it is not.
    fn fabric_live(&self, session: u16) -> Option<u8>
        ensures { result ≡ fabric_live self.now.state.node session }
    {
        let actor = self.node.actor(session)?;
        Some(actor.fabric)
    }

    // What is replied to a deed, and what comes of it.
    fn done<V: Verdicts>(
        &self,
        deed: &Deed,
        ms: u64,
        verdicts: &V,
    ) -> Result<(Reply, InteractionOutcome), AllocError>
        requires within { IsWithin deed.now }
        ensures reply { let given = given_to self.now (V.roots verdicts.now) (V.csrs verdicts.now) (V.joins verdicts.now) in
            IfOk result (λ both. both.0 ≡ replied given self.now.state.node self.now.ledger deed.now ms) }
        ensures outcome { let given = given_to self.now (V.roots verdicts.now) (V.csrs verdicts.now) (V.joins verdicts.now) in
            IfOk result (λ both. IsDone given self.now.state self.now.ledger (activity_at self.now.state.node deed.now ms) ms both.1) }
    {
        match deed {
            Deed::Ask {
                session,
                request,
                timed,
            } => self.asks(*session, request, *timed, ms, verdicts),
            Deed::Confirm {
                session,
                subscription,
            } => self.confirms(*session, *subscription, ms, verdicts),
            Deed::Ends { session, at } => self.ends(*session, at.as_slice(), ms, verdicts),
            Deed::Report {
                fabric,
                subscription,
            } => self.reports(*fabric, *subscription, ms, verdicts),
            Deed::Expire => {
                let outcome = planned_tick(self, ms, verdicts)?;
                Ok((Reply::Nothing, outcome))
            },
            Deed::Nothing { .. } => self.idles(ms, verdicts),
        }
    }

    // A request over a session.
    fn asks<V: Verdicts>(
        &self,
        session: u16,
        request: &Request,
        timed: Option<u64>,
        ms: u64,
        verdicts: &V,
    ) -> Result<(Reply, InteractionOutcome), AllocError>
        requires within { IsWithinLimits request.now }
        ensures reply { let given = given_to self.now (V.roots verdicts.now) (V.csrs verdicts.now) (V.joins verdicts.now) in
            IfOk result (λ both. both.0 ≡ replied given self.now.state.node self.now.ledger (Deed.Ask session request.now timed) ms) }
        ensures outcome { let given = given_to self.now (V.roots verdicts.now) (V.csrs verdicts.now) (V.joins verdicts.now) in
            IfOk result (λ both. IsDone given self.now.state self.now.ledger (activity_at self.now.state.node (Deed.Ask session request.now timed) ms) ms both.1) }
    {
        if self.fabric_live(session).is_none() {
            return self.idles(ms, verdicts);
        }
        let (full, outcome) = self.asked_over(session, request, timed, ms, verdicts)?;
        let reply = owned(full, &outcome.node.reply)?;
        Ok((reply, outcome))
    }

    // A confirmation over a session.
    fn confirms<V: Verdicts>(
        &self,
        session: u16,
        subscription: u32,
        ms: u64,
        verdicts: &V,
    ) -> Result<(Reply, InteractionOutcome), AllocError>
        ensures reply { let given = given_to self.now (V.roots verdicts.now) (V.csrs verdicts.now) (V.joins verdicts.now) in
            IfOk result (λ both. both.0 ≡ replied given self.now.state.node self.now.ledger (Deed.Confirm session subscription) ms) }
        ensures outcome { let given = given_to self.now (V.roots verdicts.now) (V.csrs verdicts.now) (V.joins verdicts.now) in
            IfOk result (λ both. IsDone given self.now.state self.now.ledger (activity_at self.now.state.node (Deed.Confirm session subscription) ms) ms both.1) }
    {
        let Some(fabric) = self.fabric_live(session) else {
            return self.idles(ms, verdicts);
        };
        self.confirmed(fabric, subscription, ms, verdicts)
    }

    // Subscriptions that were told over a session end.
    fn ends<V: Verdicts>(
        &self,
        session: u16,
        at: &[EndTime],
        ms: u64,
        verdicts: &V,
    ) -> Result<(Reply, InteractionOutcome), AllocError>
        ensures reply { IfOk result (λ both. both.0 ≡ replies.Nothing) }
        ensures outcome { let given = given_to self.now (V.roots verdicts.now) (V.csrs verdicts.now) (V.joins verdicts.now) in
            IfOk result (λ both. IsDone given self.now.state self.now.ledger (activity_at self.now.state.node (Deed.Ends session at.now) ms) ms both.1) }
    {
        let Some(fabric) = self.fabric_live(session) else {
            return self.idles(ms, verdicts);
        };
        let ids = ended_at(self.alloc, ms, at)?;
        let outcome = self.ended(fabric, ids, ms, verdicts)?;
        Ok((Reply::Nothing, outcome))
    }

    // A report step.
    fn reports<V: Verdicts>(
        &self,
        fabric: u8,
        subscription: u32,
        ms: u64,
        verdicts: &V,
    ) -> Result<(Reply, InteractionOutcome), AllocError>
        ensures reply { let given = given_to self.now (V.roots verdicts.now) (V.csrs verdicts.now) (V.joins verdicts.now) in
            IfOk result (λ both. both.0 ≡ replied given self.now.state.node self.now.ledger (Deed.Report fabric subscription) ms) }
        ensures outcome { let given = given_to self.now (V.roots verdicts.now) (V.csrs verdicts.now) (V.joins verdicts.now) in
            IfOk result (λ both. IsDone given self.now.state self.now.ledger (reports fabric subscription) ms both.1) }
    {
        let (reply, _, outcome) = self.reported_to(fabric, subscription, ms, verdicts)?;
        Ok((reply, outcome))
    }

    // Time passes, and nothing is replied.
    fn idles<V: Verdicts>(
        &self,
        ms: u64,
        verdicts: &V,
    ) -> Result<(Reply, InteractionOutcome), AllocError>
        ensures reply { IfOk result (λ both. both.0 ≡ replies.Nothing) }
        ensures outcome { let given = given_to self.now (V.roots verdicts.now) (V.csrs verdicts.now) (V.joins verdicts.now) in
            IfOk result (λ both. IsDone given self.now.state self.now.ledger (acts actions.Nothing) ms both.1) }
    {
        let outcome = self.pass(ms, verdicts)?;
        Ok((Reply::Nothing, outcome))
    }
}

// The subscriptions whose time has come.
fn ended_at(alloc: Global, ms: u64, at: &[EndTime]) -> Result<Vec<u32>, AllocError>
    ensures { IfOk result (λ ids. ids.items ≡ ended_at ms at.now) }
{
    let mut ids = Vec::new(alloc);
    for end in at {
        if has_come(ms, end) {
            ids.push(end.subscription)?;
        }
    }
    Ok(ids)
}

fn has_come(ms: u64, end: &EndTime) -> bool
    ensures { result ≡ has_come ms end.now }
{
    end.ms <= ms
}

// What is replied, in memory of its own.
fn owned(full: Option<Reply>, reply: &Reply) -> Result<Reply, AllocError>
    ensures { IfOk result (λ owned. owned ≡ unwrap_or full reply.now) }
{
    match full {
        Some(full) => Ok(full),
        None => copied(reply),
    }
}

fn copied(reply: &Reply) -> Result<Reply, AllocError>
    ensures { IfOk result (λ copied. copied ≡ reply.now) }
{
    match reply {
        Reply::Status { code } => Ok(Reply::Status { code: *code }),
        Reply::Report {
            subscription,
            items,
            suppress,
        } => Ok(Reply::Report {
            subscription: *subscription,
            items: items.copy()?,
            suppress: *suppress,
        }),
        Reply::Subscribed { id, ceiling } => Ok(Reply::Subscribed {
            id: *id,
            ceiling: *ceiling,
        }),
        Reply::Written { items } => Ok(Reply::Written {
            items: items.copy()?,
        }),
        Reply::Invoked { command, fields } => Ok(Reply::Invoked {
            command: *command,
            fields: fields.copy()?,
        }),
        Reply::InvokeStatus { command, code } => Ok(Reply::InvokeStatus {
            command: *command,
            code: *code,
        }),
        Reply::InvokeClusterStatus {
            command,
            code,
            cluster,
        } => Ok(Reply::InvokeClusterStatus {
            command: *command,
            code: *code,
            cluster: *cluster,
        }),
        Reply::Nothing => Ok(Reply::Nothing),
    }
}
