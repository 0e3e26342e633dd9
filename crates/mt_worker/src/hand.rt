//! What a worker does over its sessions: a datagram, a resend step and report steps over one of them, and a wake over all.

ghost use Rattle.std.specs.Prelude.{◌≡◌, ◌≤◌, ◌-◌, ◌*◌, ◌∷◌, [], ℕ, Contains, List, Some, drop, length, IfOk};
ghost use Rattle.mt_files.specs.Form.{HasForm};
ghost use Rattle.mt_layer.specs.mt_interactions.Deeds.{IsWithin};
ghost use Rattle.mt_model.specs.declared.limits.TheConstants.{LAST_TIME, RECEIVED_BYTES};
ghost use Rattle.mt_queue.specs.Jobs.{IsWithinLimits, is_end};
ghost use Rattle.mt_layer.specs.mt_runs.Datagrams.{session_named};
ghost use Rattle.mt_layer.specs.mt_shared.Shared.{IsPassOf};
ghost use Rattle.mt_turn.specs.History.{IsOutsideAgain};
ghost use Rattle.mt_worker.specs.Accounts.{Account, Accounts, IsReportable};
ghost use Rattle.mt_worker.specs.Due.{AreRising, Does, Hears, Reports, Resends, Sweeps, Takes, Wakes};
ghost use Rattle.mt_worker.specs.Few.{heard_for, steps_for};
ghost use Rattle.mt_worker.specs.Seats.{AreSeats, IsSeatOf};
ghost use Rattle.mt_worker.specs.Works.{Acts, WentOn, WentOver};

use crate::acting::Desk;
use crate::fault::WorkFault;
use crate::seat::{Seat, Subscription};
use crate::sending::send_all;
use mt_durable::Keeper;
use mt_layer::{Call, Deed, NodePass, Stamped};
use mt_model::{Event, Verdicts};
use mt_outside::{Gate, Outlet, Peer};
use mt_queue::Job;
use mt_talk::session_named;
use mt_tlv::Bytes;
use std::sync::Wait;

/// How many subscriptions of a session are reported to in a wake.
const REPORTED: usize = 3;

/// What a worker has beside its sessions: its pass to the node, and its outlet.
pub(crate) struct Hand<O> {
    pub(crate) pass: NodePass,
    pub(crate) outlet: O,
}

impl<O: Drop> Drop for Hand<O> {
    fn drop(self) {
        let Hand { pass: _, outlet: _ } = self;
    }
}

impl<O> Hand<O> {
    /// The pass and the outlet.
    pub(crate) fn into_parts(self) -> (NodePass, O)
        ensures { result ≡ (self.pass, self.outlet) }
    {
        let Hand { pass, outlet } = self;
        (pass, outlet)
    }
}

impl<O: Outlet> Hand<O> {
    // A datagram over the session that it names.
    fn hear<R: Wait, K: Keeper + Drop + Send, V: Verdicts + Drop, G: Gate>(
        &mut self,
        desk: &Desk<'_, R, K, V, G>,
        seat: &mut Seat,
        now: u64,
        from: Peer,
        bytes: Bytes,
    ) -> Result<(), WorkFault>
        requires own { IsPassOf desk.now.node.now self.old.pass }
        requires time { now ≤ LAST_TIME }
        requires short { length bytes ≤ RECEIVED_BYTES }
        ensures own { IsPassOf desk.now.node.now self.new.pass }
        ensures outside { IsOutsideAgain self.old.pass self.new.pass }
        ensures went { (a : Account) → IsSeatOf seat.old a → session_named bytes ≡ Some a.row.session
            → WentOver O.given O.faults (λ a gots. Hears a now from bytes gots) 1 0 self.old self.new seat.new result a }
    {
        let (call, pending) = seat.listen(now, from, bytes)?;
        let stamped = self.act(desk, call)?;
        let sent = seat.answer(pending, &stamped.answer, stamped.ms)?;
        send_all(&mut self.outlet, sent.as_slice())
    }

    // A resend step over a session.
    fn resend<R: Wait, K: Keeper + Drop + Send, V: Verdicts + Drop, G: Gate>(
        &mut self,
        desk: &Desk<'_, R, K, V, G>,
        seat: &mut Seat,
        now: u64,
    ) -> Result<(), WorkFault>
        requires own { IsPassOf desk.now.node.now self.old.pass }
        requires time { now ≤ LAST_TIME }
        ensures own { IsPassOf desk.now.node.now self.new.pass }
        ensures outside { IsOutsideAgain self.old.pass self.new.pass }
        ensures went { (a : Account) → IsSeatOf seat.old a
            → WentOver O.given O.faults (λ a gots. Resends a now gots) 0 1 self.old self.new seat.new result a }
    {
        let (call, at) = seat.again(now)?;
        let stamped = self.act(desk, call)?;
        let sent = seat.resend(&at, &stamped.answer, stamped.ms)?;
        send_all(&mut self.outlet, sent.as_slice())
    }

    // A report step to one of the subscriptions of a session.
    fn report<R: Wait, K: Keeper + Drop + Send, V: Verdicts + Drop, G: Gate>(
        &mut self,
        desk: &Desk<'_, R, K, V, G>,
        seat: &mut Seat,
        subscription: Subscription,
        now: u64,
    ) -> Result<(), WorkFault>
        requires own { IsPassOf desk.now.node.now self.old.pass }
        requires time { now ≤ LAST_TIME }
        requires reportable { IsReportable subscription }
        ensures own { IsPassOf desk.now.node.now self.new.pass }
        ensures outside { IsOutsideAgain self.old.pass self.new.pass }
        ensures went { (a : Account) → IsSeatOf seat.old a → Contains a.subscriptions subscription
            → WentOver O.given O.faults (λ a gots. Reports a.row.session now (subscription ∷ []) gots) 0 1 self.old self.new seat.new result a }
        ensures same { seat.new.subscriptions ≡ seat.old.subscriptions }
    {
        let Subscription { fabric, id } = subscription;
        let event = Event::Report {
            ms: now,
            fabric,
            subscription: id,
        };
        let deed = Deed::Report {
            fabric,
            subscription: id,
        };
        let stamped = self.act(desk, Call { event, deed })?;
        let sent = seat.report(id, &stamped.answer, stamped.ms)?;
        send_all(&mut self.outlet, sent.as_slice())
    }

    // Report steps to the subscriptions of a session from this place on.
    fn report_from<R: Wait, K: Keeper + Drop + Send, V: Verdicts + Drop, G: Gate>(
        &mut self,
        desk: &Desk<'_, R, K, V, G>,
        seat: &mut Seat,
        at: usize,
        now: u64,
    ) -> Result<(), WorkFault>
        requires own { IsPassOf desk.now.node.now self.old.pass }
        requires time { now ≤ LAST_TIME }
        ensures own { IsPassOf desk.now.node.now self.new.pass }
        ensures outside { IsOutsideAgain self.old.pass self.new.pass }
        ensures went { (a : Account) → IsSeatOf seat.old a
            → WentOver O.given O.faults (λ a gots. Reports a.row.session now (drop at a.subscriptions) gots) 0 (length a.subscriptions - at) self.old self.new seat.new result a }
    {
        let Some(subscription) = seat.subscription(at) else {
            return Ok(());
        };
        self.report(desk, seat, subscription, now)?;
        self.report_from(desk, seat, at + 1, now)
    }

    // A wake over a session: a resend step, and then report steps to the last three of its subscriptions.
    fn wake_over<R: Wait, K: Keeper + Drop + Send, V: Verdicts + Drop, G: Gate>(
        &mut self,
        desk: &Desk<'_, R, K, V, G>,
        seat: &mut Seat,
        now: u64,
    ) -> Result<(), WorkFault>
        requires own { IsPassOf desk.now.node.now self.old.pass }
        requires time { now ≤ LAST_TIME }
        ensures own { IsPassOf desk.now.node.now self.new.pass }
        ensures outside { IsOutsideAgain self.old.pass self.new.pass }
        ensures went { (a : Account) → IsSeatOf seat.old a
            → WentOver O.given O.faults (λ a gots. Wakes a now gots) 0 4 self.old self.new seat.new result a }
    {
        self.resend(desk, seat, now)?;
        let first = seat.standing().saturating_sub(REPORTED);
        self.report_from(desk, seat, first, now)
    }

    /// A wake over all sessions, in their order.
    fn wake<R: Wait, K: Keeper + Drop + Send, V: Verdicts + Drop, G: Gate>(
        &mut self,
        desk: &Desk<'_, R, K, V, G>,
        seats: &mut [Seat],
        now: u64,
    ) -> Result<(), WorkFault>
        requires own { IsPassOf desk.now.node.now self.old.pass }
        requires time { now ≤ LAST_TIME }
        ensures own { IsPassOf desk.now.node.now self.new.pass }
        ensures outside { IsOutsideAgain self.old.pass self.new.pass }
        ensures went { (ids : List ℕ) (accounts : Accounts) → AreSeats seats.old ids accounts → AreRising ids
            → WentOn O.given O.faults (λ accounts gots. Sweeps now ids accounts gots) 0 (4 * length ids) ids self.old self.new seats.new result accounts }
    {
        let Some((seat, others)) = seats.split_first_mut() else {
            return Ok(());
        };
        self.wake_over(desk, seat, now)?;
        self.wake(desk, others, now)
    }

    /// A datagram, to the session that it names, where that is among these.
    fn take<R: Wait, K: Keeper + Drop + Send, V: Verdicts + Drop, G: Gate>(
        &mut self,
        desk: &Desk<'_, R, K, V, G>,
        seats: &mut [Seat],
        now: u64,
        from: Peer,
        bytes: Bytes,
    ) -> Result<(), WorkFault>
        requires own { IsPassOf desk.now.node.now self.old.pass }
        requires time { now ≤ LAST_TIME }
        requires short { length bytes ≤ RECEIVED_BYTES }
        ensures own { IsPassOf desk.now.node.now self.new.pass }
        ensures outside { IsOutsideAgain self.old.pass self.new.pass }
        ensures went { (ids : List ℕ) (accounts : Accounts) → AreSeats seats.old ids accounts → AreRising ids
            → WentOn O.given O.faults (λ accounts gots. Takes ids accounts now from bytes (session_named bytes) gots) 1 0 ids self.old self.new seats.new result accounts }
    {
        match session_named(bytes.as_slice()) {
            Some(session) => self.take_of(desk, seats, session, now, from, bytes),
            None => Ok(()),
        }
    }

    // The same to the session of this id.
    fn take_of<R: Wait, K: Keeper + Drop + Send, V: Verdicts + Drop, G: Gate>(
        &mut self,
        desk: &Desk<'_, R, K, V, G>,
        seats: &mut [Seat],
        session: u16,
        now: u64,
        from: Peer,
        bytes: Bytes,
    ) -> Result<(), WorkFault>
        requires own { IsPassOf desk.now.node.now self.old.pass }
        requires time { now ≤ LAST_TIME }
        requires short { length bytes ≤ RECEIVED_BYTES }
        requires named { session_named bytes ≡ Some session }
        ensures own { IsPassOf desk.now.node.now self.new.pass }
        ensures outside { IsOutsideAgain self.old.pass self.new.pass }
        ensures went { (ids : List ℕ) (accounts : Accounts) → AreSeats seats.old ids accounts → AreRising ids
            → WentOn O.given O.faults (λ accounts gots. Takes ids accounts now from bytes (Some session) gots) 1 0 ids self.old self.new seats.new result accounts }
    {
        let Some((seat, others)) = seats.split_first_mut() else {
            return Ok(());
        };
        if seat.session() == session {
            return self.hear(desk, seat, now, from, bytes);
        }
        self.take_of(desk, others, session, now, from, bytes)
    }

    /// A job. True at the end message.
    pub(crate) fn is_end_after<R: Wait, K: Keeper + Drop + Send, V: Verdicts + Drop, G: Gate>(
        &mut self,
        desk: &Desk<'_, R, K, V, G>,
        seats: &mut [Seat],
        job: Job,
    ) -> Result<bool, WorkFault>
        requires own { IsPassOf desk.now.node.now self.old.pass }
        requires limits { IsWithinLimits job }
        ensures own { IsPassOf desk.now.node.now self.new.pass }
        ensures outside { IsOutsideAgain self.old.pass self.new.pass }
        ensures went { (ids : List ℕ) (accounts : Accounts) → AreSeats seats.old ids accounts → AreRising ids
            → WentOn O.given O.faults (λ accounts gots. Does ids accounts job gots) (heard_for job) (steps_for (length ids) job) ids self.old self.new seats.new result accounts }
        ensures end { IfOk result (λ is. is ≡ is_end job) }
    {
        match job {
            Job::Take { now, from, bytes } => self.take(desk, seats, now, from, bytes)?,
            Job::Wake { now } => self.wake(desk, seats, now)?,
            Job::End => return Ok(true),
        }
        Ok(false)
    }

    // A call of the node.
    fn act<R: Wait, K: Keeper + Drop + Send, V: Verdicts + Drop, G: Gate>(
        &mut self,
        desk: &Desk<'_, R, K, V, G>,
        call: Call,
    ) -> Result<Stamped, WorkFault>
        requires own { IsPassOf desk.now.node.now self.old.pass }
        requires within { IsWithin call.deed }
        requires form { HasForm call.event }
        ensures own { IsPassOf desk.now.node.now self.new.pass }
        ensures outside { IsOutsideAgain self.old.pass self.new.pass }
        ensures acted { (session : ℕ) → Acts desk.now.node.now.origin session call self.old self.new result }
        ensures outlet { self.new.outlet ≡ self.old.outlet }
    {
        desk.act(&mut self.pass, call)
    }
}
