//! What a worker hears and says over one of its sessions, and which subscriptions stand then.

ghost use Rattle.std.specs.Prelude.{◌≡◌, ◌≢◌, ◌<◌, ◌≤◌, ◌+◌, ◌++◌, ◌∷◌, [], ℕ, All, drop, length, IfOk, IfSome, MatchOption, OnOk};
ghost use Rattle.mt_files.specs.Form.{HasForm};
ghost use Rattle.mt_layer.specs.mt_interactions.Deeds.{IsWithin};
ghost use Rattle.mt_layer.specs.Answering.{answer_by, answered_with};
ghost use Rattle.mt_layer.specs.Deeds.{said_as_live};
ghost use Rattle.mt_layer.specs.Saying.{heard_as_live, sent_again, sent_answering, sent_report, talk_again, talk_answering, talk_report};
ghost use Rattle.mt_model.specs.declared.limits.TheConstants.{LAST_TIME, RECEIVED_BYTES};
ghost use Rattle.mt_model.specs.declared.messages.message.Reply.{Reply as Replied};
ghost use Rattle.mt_worker.specs.Accounts.{Account, IsReportable, begun_account, ends_of, gained, is_named, stands_unless, still_standing, subscription_in};
ghost use Rattle.mt_worker.specs.Due.{IsServed, call_again, call_heard};
ghost use Rattle.mt_worker.specs.Seats.{IsSeatOf};

use crate::seat::{Seat, Subscription};
use mt_exchange::EndTime;
use mt_layer::{Answer, Answering, Call, Deed, SessionTalk};
use mt_model::limits::LAST_FABRIC;
use mt_model::{Event, ExactCopy, Reply, SentList, SessionRow};
use mt_outside::Peer;
use mt_tlv::Bytes;
use std::alloc::{AllocError, Global};

/// What is kept of a datagram while the node is asked.
pub(crate) struct Pending {
    // what is to be answered
    answering: Option<Answering>,
    // the subscriptions that its deed ends, and when
    at: Vec<EndTime>,
}

impl Drop for Pending {
    fn drop(self) {
        let Pending {
            answering: _,
            at: _,
        } = self;
    }
}

impl Pending {
    fn into_parts(self) -> (Option<Answering>, Vec<EndTime>)
        ensures { result ≡ (self.answering, self.at) }
    {
        let Pending { answering, at } = self;
        (answering, at)
    }
}

impl Seat {
    /// Of a session over which nothing has been said.
    pub(crate) fn new(alloc: Global, row: &SessionRow) -> Result<Seat, AllocError>
        requires { IsServed row.now }
        ensures { IfOk result (λ seat. IsSeatOf seat (begun_account row.now)) }
    {
        Ok(Seat {
            alloc,
            session: row.session,
            talk: SessionTalk::new(alloc, row.copy()?),
            subscriptions: Vec::new(alloc),
        })
    }

    /// The id of its session.
    pub(crate) fn session(&self) -> u16
        ensures { (a : Account) → IsSeatOf self.now a → result ≡ a.row.session }
    {
        self.session
    }

    /// How many subscriptions stand.
    pub(crate) fn standing(&self) -> usize
        ensures { (a : Account) → IsSeatOf self.now a → result ≡ length a.subscriptions }
    {
        self.subscriptions.len()
    }

    /// The subscription at a place, None behind the last.
    pub(crate) fn subscription(&self, at: usize) -> Option<Subscription>
        ensures found { (a : Account) → IsSeatOf self.now a → MatchOption result (drop at a.subscriptions ≡ []) (λ found. drop at a.subscriptions ≡ found ∷ drop (at + 1) a.subscriptions) }
        ensures reportable { IfSome result IsReportable }
        ensures inside { IfSome result (λ _. at < length self.now.subscriptions.items) }
    {
        self.subscriptions.get(at).copied()
    }

    /// Hears a datagram that came at this time, in ms: the call of the node, and what is kept meanwhile.
    pub(crate) fn listen(
        &mut self,
        now: u64,
        from: Peer,
        bytes: Bytes,
    ) -> Result<(Call, Pending), AllocError>
        requires time { now ≤ LAST_TIME }
        requires short { length bytes ≤ RECEIVED_BYTES }
        ensures within { IfOk result (λ both. IsWithin both.0.deed) }
        ensures form { IfOk result (λ both. HasForm both.0.event) }
        ensures call { (a : Account) → IsSeatOf self.old a → IfOk result (λ both. both.0 ≡ call_heard a now from bytes) }
        ensures at { IfOk result (λ both. both.1.at.items ≡ ends_of both.0.deed) }
        ensures answer { (a : Account) → IsSeatOf self.old a
            → IfOk result (λ both. (ms : ℕ) (reply : Replied) → answer_by ms reply both.1.answering ≡ answered_with ms reply (said_as_live a.row bytes a.talk)) }
        ensures stands { (a : Account) → IsSeatOf self.old a
            → OnOk result (IsSeatOf self.new (record a { talk = heard_as_live a.row from bytes a.talk })) }
    {
        let mut opened = bytes.copy()?.into_vec();
        let (deed, answering) = self.talk.listen(from, &mut opened)?;
        let at = ends_of(self.alloc, &deed)?;
        let event = Event::Datagram {
            ms: now,
            peer: from,
            bytes,
        };
        Ok((Call { event, deed }, Pending { answering, at }))
    }

    /// Says what is to be answered to what was heard, by what the node answered at this time, in ms.
    pub(crate) fn answer(
        &mut self,
        pending: Pending,
        answer: &Answer,
        ms: u64,
    ) -> Result<SentList, AllocError>
        ensures sent { (a : Account) → IsSeatOf self.old a
            → IfOk result (λ sent. sent ≡ sent_answering a.row ms answer.now (answer_by ms answer.now.reply pending.answering) a.talk) }
        ensures stands { (a : Account) → IsSeatOf self.old a
            → OnOk result (IsSeatOf self.new (record a {
              talk = talk_answering a.row ms answer.now (answer_by ms answer.now.reply pending.answering) a.talk;
              subscriptions = still_standing answer.now.fabric pending.at.items ms a.subscriptions ++ gained answer.now.fabric answer.now.reply;
            })) }
    {
        let (answering, at) = pending.into_parts();
        self.end(answer.fabric, &at, ms);
        self.gain(answer)?;
        self.talk.answer(answering, answer, ms)
    }

    /// The call of the node in a resend step at this time, in ms, and the subscriptions that its deed ends, and when.
    pub(crate) fn again(&self, now: u64) -> Result<(Call, Vec<EndTime>), AllocError>
        requires time { now ≤ LAST_TIME }
        ensures within { IfOk result (λ both. IsWithin both.0.deed) }
        ensures form { IfOk result (λ both. HasForm both.0.event) }
        ensures call { (a : Account) → IsSeatOf self.now a → IfOk result (λ both. both.0 ≡ call_again a now) }
        ensures at { IfOk result (λ both. both.1.items ≡ ends_of both.0.deed) }
    {
        let deed = self.talk.ends()?;
        let at = ends_of(self.alloc, &deed)?;
        let event = Event::Resend {
            ms: now,
            session: self.session,
        };
        Ok((Call { event, deed }, at))
    }

    /// Sends again what is due, by what the node answered at this time, in ms.
    pub(crate) fn resend(
        &mut self,
        at: &[EndTime],
        answer: &Answer,
        ms: u64,
    ) -> Result<SentList, AllocError>
        ensures sent { (a : Account) → IsSeatOf self.old a
            → IfOk result (λ sent. sent ≡ sent_again a.row ms answer.now a.talk) }
        ensures stands { (a : Account) → IsSeatOf self.old a
            → OnOk result (IsSeatOf self.new (record a {
              talk = talk_again a.row ms answer.now a.talk;
              subscriptions = still_standing answer.now.fabric at.now ms a.subscriptions;
            })) }
    {
        self.end(answer.fabric, at, ms);
        self.talk.resend(answer, ms)
    }

    /// Reports to a subscription, by what the node answered at this time, in ms.
    pub(crate) fn report(
        &mut self,
        subscription: u32,
        answer: &Answer,
        ms: u64,
    ) -> Result<SentList, AllocError>
        ensures sent { (a : Account) → IsSeatOf self.old a
            → IfOk result (λ sent. sent ≡ sent_report a.row ms answer.now a.talk) }
        ensures stands { (a : Account) → IsSeatOf self.old a
            → OnOk result (IsSeatOf self.new (record a { talk = talk_report a.row ms subscription answer.now a.talk })) }
        ensures same { self.new.subscriptions ≡ self.old.subscriptions }
    {
        self.talk.report(subscription, answer, ms)
    }

    // Subscriptions end whose time has come, where the session was live.
    fn end(&mut self, fabric: Option<u8>, at: &[EndTime], ms: u64)
        ensures standing { self.new.subscriptions.items ≡ still_standing fabric at.now ms self.old.subscriptions.items }
        ensures same { (self.new.talk ≡ self.old.talk) × (self.new.session ≡ self.old.session) }
    {
        if fabric.is_some() {
            self.subscriptions
                .retain(|subscription| stands_unless(at, ms, subscription));
        }
    }

    // The session gets a subscription, where that is what the node answered.
    fn gain(&mut self, answer: &Answer) -> Result<(), AllocError>
        ensures gained { OnOk result (self.new.subscriptions.items ≡ self.old.subscriptions.items ++ gained answer.now.fabric answer.now.reply) }
        ensures same { (self.new.talk ≡ self.old.talk) × (self.new.session ≡ self.old.session) }
    {
        if let Some(subscription) = gained(answer) {
            self.subscriptions.push(subscription)?;
        }
        Ok(())
    }
}

// The subscription that an answer gives, where it gives one whose numbers a recording can have.
fn gained(answer: &Answer) -> Option<Subscription>
    ensures gained { MatchOption result (gained answer.now.fabric answer.now.reply ≡ []) (λ it. gained answer.now.fabric answer.now.reply ≡ it ∷ []) }
    ensures reportable { IfSome result IsReportable }
{
    let fabric = answer.fabric?;
    let id = subscription_in(&answer.reply)?;
    if u64::from(fabric) <= LAST_FABRIC && id >= 1 {
        return Some(Subscription { fabric, id });
    }
    None
}

fn subscription_in(reply: &Reply) -> Option<u32>
    ensures { result ≡ subscription_in reply.now }
{
    match reply {
        Reply::Report { subscription, .. } => *subscription,
        _ => None,
    }
}

// The subscriptions that a deed ends, and when.
fn ends_of(alloc: Global, deed: &Deed) -> Result<Vec<EndTime>, AllocError>
    ensures { IfOk result (λ at. at.items ≡ ends_of deed.now) }
{
    match deed {
        Deed::Ends { at, .. } => Vec::from_slice(alloc, at.as_slice()),
        _ => Ok(Vec::new(alloc)),
    }
}

fn stands_unless(at: &[EndTime], ms: u64, subscription: &Subscription) -> bool
    ensures { result ≡ stands_unless at.now ms subscription.now }
{
    !is_named(at, ms, subscription.id)
}

fn is_named(at: &[EndTime], ms: u64, id: u32) -> bool
    ensures { result ≡ is_named at.now ms id }
{
    at.iter().any(|end| end.ms <= ms && end.subscription == id)
}
