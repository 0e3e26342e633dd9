//! A report step: what a subscription is told, where that is due.

ghost use Rattle.std.specs.Prelude.{◌≡◌, ◌+◌, Some, IfOk, map};
ghost use Rattle.mt_runs.specs.mt_ledger.Behind.{reports};
ghost use Rattle.mt_runs.specs.mt_ledger.Reporting.{due_events, due_now, due_report, has_unreported, subscriber};
ghost use Rattle.mt_runs.specs.mt_ledger.Subscribing.{last_told};
ghost use Rattle.mt_model.specs.messages.Blocks.{path_of};
ghost use Rattle.mt_interactions.specs.Configured.{given_to};
ghost use Rattle.mt_interactions.specs.Plan.{IsDone};
ghost use Rattle.mt_interactions.specs.Deeds.{reply_due};
ghost use Rattle.mt_interactions.specs.Reporting.{due_as, due_by, reported_over, sent_plainly, session_due};

use crate::behind::SubsBehind;
use crate::interactions::Interactions;
use crate::outcome::InteractionOutcome;
use crate::sending::sent_as;
use crate::telling::{attributes_for, joined, last_told};
use mt_im_out::chunks;
use mt_model::{
    Actor, Items, Path, Paths, Payloads, Place, Places, Reply, SentList, Verdicts, Versions,
};
use mt_subs::Kept;
use std::alloc::{AllocError, Global};

// A subscription that is due, and the places that it is owed.
#[derive(Drop)]
pub(crate) struct DueReport<'a> {
    kept: &'a Kept,
    places: Places,
}

impl Interactions {
    /// Plans a report step to a subscription of a fabric at this time, in ms: over which session which payloads are to be
    /// reported, where the subscriber has one, what is sent to a plain actor, who is told at once and confirms it, and what comes
    /// of it. Where nothing is due time passes, and nothing else.
    pub fn plan_report<V: Verdicts>(
        &self,
        fabric: u8,
        id: u32,
        ms: u64,
        verdicts: &V,
    ) -> Result<(Option<(u16, Payloads)>, SentList, InteractionOutcome), AllocError>
        ensures over { IfOk result (λ all. all.0 ≡ reported_over self.now.state.node self.now.ledger.history fabric id (due_now self.now.state.node self.now.ledger ms fabric id)) }
        ensures sent { IfOk result (λ all. all.1 ≡ sent_plainly self.now.state.node self.now.ledger.history ms fabric id (due_now self.now.state.node self.now.ledger ms fabric id)) }
        ensures outcome { let given = given_to self.now (V.roots verdicts.now) (V.csrs verdicts.now) (V.joins verdicts.now) in
            IfOk result (λ all. IsDone given self.now.state self.now.ledger (reports fabric id) ms all.2) }
    {
        let (report, session, outcome) = self.reported_to(fabric, id, ms, verdicts)?;
        match session {
            Some(session) => {
                let payloads = chunks(self.alloc, &report)?;
                let none = SentList::new(self.alloc);
                Ok((Some((session, payloads)), none, outcome))
            },
            None => {
                let sent = sent_as(self.alloc, ms, fabric, &report)?;
                Ok((None, sent, outcome))
            },
        }
    }

    /// What a report step tells, over which session, and what comes of it. Where nothing is due it tells nothing, over none, and
    /// time passes.
    pub(crate) fn reported_to<V: Verdicts>(
        &self,
        fabric: u8,
        id: u32,
        ms: u64,
        verdicts: &V,
    ) -> Result<(Reply, Option<u16>, InteractionOutcome), AllocError>
        ensures reply { IfOk result (λ all. all.0 ≡ reply_due self.now.state.node self.now.ledger.history fabric id (due_now self.now.state.node self.now.ledger ms fabric id)) }
        ensures session { IfOk result (λ all. all.1 ≡ session_due (due_now self.now.state.node self.now.ledger ms fabric id)) }
        ensures outcome { let given = given_to self.now (V.roots verdicts.now) (V.csrs verdicts.now) (V.joins verdicts.now) in
            IfOk result (λ all. IsDone given self.now.state self.now.ledger (reports fabric id) ms all.2) }
    {
        match due_now(self, fabric, id, ms)? {
            Some(due) => reported(self, fabric, id, &due, ms, verdicts),
            None => {
                let outcome = self.pass(ms, verdicts)?;
                Ok((Reply::Nothing, None, outcome))
            },
        }
    }
}

// What is due to a subscription now, None where nothing is.
fn due_now(
    interactions: &Interactions,
    fabric: u8,
    id: u32,
    ms: u64,
) -> Result<Option<DueReport<'_>>, AllocError>
    ensures { IfOk result (λ due. due_as due ≡ due_now interactions.now.state.node interactions.now.ledger ms fabric id) }
{
    let Some(kept) = interactions.subs.get(fabric, id) else {
        return Ok(None);
    };
    interactions.node.state_is_valid();
    let unreported = has_unreported(interactions, fabric, kept)?;
    let changes = interactions.node.state().changes.as_slice();
    let places = interactions.subs.due(
        interactions.alloc,
        &interactions.node,
        fabric,
        id,
        ms,
        changes,
        unreported,
    )?;
    match places {
        Some(places) => Ok(Some(DueReport { kept, places })),
        None => Ok(None),
    }
}

// Whoever has subscribed, as an actor of the subscription's fabric.
fn subscriber(fabric: u8, kept: &Kept) -> Actor
    ensures { result ≡ subscriber fabric kept.now }
{
    Actor {
        fabric,
        auth: kept.sub.actor.auth,
        node: kept.sub.actor.node,
        cats: kept.sub.actor.cats,
        session: kept.sub.actor.session,
    }
}

// The first number of an event that was not told. Want of memory is told where there is none, to which no node comes.
fn first_untold(kept: &Kept) -> Result<u64, AllocError>
    ensures { IfOk result (λ number. number ≡ kept.now.event + 1) }
{
    kept.event.checked_add(1).ok_or(AllocError)
}

// Whether there is an event that was not told.
fn has_unreported(interactions: &Interactions, fabric: u8, kept: &Kept) -> Result<bool, AllocError>
    ensures { IfOk result (λ some. some ≡ has_unreported interactions.now.state.node interactions.now.ledger.history fabric kept.now) }
{
    let minimum = first_untold(kept)?;
    let reader = subscriber(fabric, kept);
    Ok(
        interactions
            .history
            .tells(&interactions.node, minimum, &kept.sub.events, &reader),
    )
}

// The events that were not told and fit.
fn due_events(interactions: &Interactions, fabric: u8, kept: &Kept) -> Result<Items, AllocError>
    ensures { IfOk result (λ items. items ≡ due_events interactions.now.state.node interactions.now.ledger.history fabric kept.now) }
{
    let minimum = first_untold(kept)?;
    let reader = subscriber(fabric, kept);
    interactions.history.told(
        interactions.alloc,
        &interactions.node,
        minimum,
        &kept.sub.events,
        &reader,
    )
}

// The report of what is due, and the number of the last event that it tells.
fn due_report(
    interactions: &Interactions,
    fabric: u8,
    id: u32,
    due: &DueReport,
) -> Result<(Reply, u64), AllocError>
    ensures report { IfOk result (λ both. both.0 ≡ due_report interactions.now.state.node interactions.now.ledger.history fabric id (due_by due.now)) }
    ensures last { IfOk result (λ both. both.1 ≡ last_told due.now.kept.now.event (due_events interactions.now.state.node interactions.now.ledger.history fabric due.now.kept.now)) }
{
    let kept = due.kept;
    let events = due_events(interactions, fabric, kept)?;
    let last = last_told(kept.event, events.as_slice());
    let reader = subscriber(fabric, kept);
    let paths = paths_of(interactions.alloc, due.places.as_slice())?;
    let none = Versions::new(interactions.alloc);
    let attributes = attributes_for(interactions, &reader, &paths, kept.sub.filtered, &none)?;
    let report = Reply::Report {
        subscription: Some(id),
        items: joined(attributes, events)?,
        suppress: false,
    };
    Ok((report, last))
}

fn paths_of(alloc: Global, places: &[Place]) -> Result<Paths, AllocError>
    ensures { IfOk result (λ paths. paths ≡ map path_of places.now) }
{
    let mut paths = Vec::with_capacity(alloc, places.len())?;
    for place in places {
        paths.push(Path::from(*place))?;
    }
    Ok(Paths::from_vec(paths))
}

// What is due is told.
fn reported<V: Verdicts>(
    interactions: &Interactions,
    fabric: u8,
    id: u32,
    due: &DueReport,
    ms: u64,
    verdicts: &V,
) -> Result<(Reply, Option<u16>, InteractionOutcome), AllocError>
    requires { due_now interactions.now.state.node interactions.now.ledger ms fabric id ≡ Some (due_by due.now) }
    ensures reply { IfOk result (λ all. all.0 ≡ due_report interactions.now.state.node interactions.now.ledger.history fabric id (due_by due.now)) }
    ensures session { IfOk result (λ all. all.1 ≡ due.now.kept.now.sub.actor.session) }
    ensures outcome { let given = given_to interactions.now (V.roots verdicts.now) (V.csrs verdicts.now) (V.joins verdicts.now) in
        IfOk result (λ all. IsDone given interactions.now.state interactions.now.ledger (reports fabric id) ms all.2) }
{
    let (report, event) = due_report(interactions, fabric, id, due)?;
    let session = due.kept.sub.actor.session;
    let subs = SubsBehind::Told {
        fabric,
        id,
        change: interactions.node.state().changed,
        event,
        at_once: session.is_none(),
    };
    let outcome = interactions.passing(ms, subs, verdicts)?;
    Ok((report, session, outcome))
}
