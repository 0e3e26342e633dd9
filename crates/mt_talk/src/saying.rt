//! What the node says, and says again.

ghost use Rattle.std.specs.Prelude.{◌≡◌, ℕ, IfOk, OnErr, OnOk};
ghost use Rattle.mt_model.specs.declared.texts.config.SessionRow.{SessionRow};
ghost use Rattle.mt_exchange.specs.Resending.{end_times};
ghost use Rattle.mt_talk.specs.Talks.{IsTalkOf, Talk as Told, after_answer, after_drop, after_report, after_resend, answer_in, ended_in, open_in, report_in, resent_in, sent_by};

use crate::talk::Talk;
use mt_exchange::{Datagrams, EndTimes, Ends, Key, shown_runs};
use mt_model::Payloads;
use mt_session::SealFault;
use mt_tlv::Bytes;
use std::alloc::AllocError;

impl Talk {
    /// Answers on an exchange at this time, in ms, and acknowledges this counter: the first of these payloads is sent and
    /// the others are kept; without payloads the next kept one is sent where that was asked for, else the acknowledgement
    /// alone. None where nothing is to be sent or the session refuses it. Where there is no memory nothing has changed.
    pub fn answer(
        &mut self,
        key: Key,
        acknowledge: Option<u32>,
        payloads: Payloads,
        now: u64,
    ) -> Result<Option<Bytes>, AllocError>
        ensures sent { (row : SessionRow) (t : Told) → IsTalkOf self.old row t
            → IfOk result (λ sent. sent ≡ sent_by (answer_in row t key acknowledge payloads)) }
        ensures stands { (row : SessionRow) (t : Told) → IsTalkOf self.old row t
            → OnOk result (IsTalkOf self.new row (after_answer row key acknowledge payloads now t)) }
        ensures kept { OnErr result (self.new ≡ self.old) }
    {
        shown_runs();
        match self
            .exchanges
            .answer(&mut self.session, key, acknowledge, payloads, now)
        {
            Ok(sent) => Ok(sent),
            Err(SealFault::Exhausted) => Ok(None),
            Err(SealFault::TooLong) => Ok(None),
            Err(SealFault::Memory) => Err(AllocError),
        }
    }

    /// Reports for a subscription at this time, in ms, on an exchange of the node: the first payload is sent and the others
    /// are kept. None where nothing is to be sent, no exchange is free or the session refuses it. Where there is no memory
    /// nothing has changed.
    pub fn report(
        &mut self,
        subscription: u32,
        payloads: Payloads,
        now: u64,
    ) -> Result<Option<Bytes>, AllocError>
        ensures sent { (row : SessionRow) (t : Told) → IsTalkOf self.old row t
            → IfOk result (λ sent. sent ≡ sent_by (report_in row t payloads)) }
        ensures stands { (row : SessionRow) (t : Told) → IsTalkOf self.old row t
            → OnOk result (IsTalkOf self.new row (after_report row subscription payloads now t)) }
        ensures kept { OnErr result (self.new ≡ self.old) }
    {
        shown_runs();
        match self
            .exchanges
            .report(&mut self.session, subscription, payloads, now)
        {
            Ok(sent) => Ok(sent),
            Err(SealFault::Exhausted) => Ok(None),
            Err(SealFault::TooLong) => Ok(None),
            Err(SealFault::Memory) => Err(AllocError),
        }
    }

    /// Sends again at this time, in ms, what is due, the same bytes, and closes the exchanges on which that was in vain: the
    /// datagrams, and the subscriptions that end so. Where there is no memory nothing has changed.
    pub fn resend(&mut self, now: u64) -> Result<(Datagrams, Ends), AllocError>
        ensures datagrams { (row : SessionRow) (t : Told) → IsTalkOf self.old row t
            → IfOk result (λ both. both.0 ≡ resent_in row now t) }
        ensures ends { (row : SessionRow) (t : Told) → IsTalkOf self.old row t
            → IfOk result (λ both. both.1 ≡ ended_in row now t) }
        ensures stands { (row : SessionRow) (t : Told) → IsTalkOf self.old row t
            → OnOk result (IsTalkOf self.new row (after_resend now t)) }
        ensures kept { OnErr result (self.new ≡ self.old) }
    {
        shown_runs();
        self.exchanges.resend(now)
    }

    /// From when on the exchanges of subscriptions close.
    pub fn ends(&self) -> Result<EndTimes, AllocError>
        ensures { (row : SessionRow) (t : Told) → IsTalkOf self.now row t
            → IfOk result (λ times. times ≡ end_times (open_in row t)) }
    {
        self.exchanges.ends()
    }

    /// Nothing is to be sent, owed or awaited any more. It takes no memory.
    pub fn drop_all(&mut self)
        ensures { (row : SessionRow) (t : Told) → IsTalkOf self.old row t → IsTalkOf self.new row (after_drop t) }
    {
        shown_runs();
        self.exchanges.drop_all();
    }
}
