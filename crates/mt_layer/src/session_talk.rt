//! What a worker keeps of a session that is its own, and what it does over it.

ghost use Rattle.std.specs.Prelude.{◌≡◌, ◌≢◌, ◌<◌, ◌^◌, ℕ, length, IfOk, OnErr, OnOk};
ghost use Rattle.mt_shared.specs.mt_interactions.Deeds.{IsWithin};
ghost use Rattle.mt_model.specs.declared.messages.message.Reply.{Reply as Replied};
ghost use Rattle.mt_model.specs.declared.tables.access.Auth.TheVariants.{Group};
ghost use Rattle.mt_model.specs.declared.texts.config.SessionRow.{SessionRow as Row};
ghost use Rattle.mt_shared.specs.mt_runs.Datagrams.{behind_answer, datagram_of};
ghost use Rattle.mt_talk.specs.Talks.{IsTalkOf, Talk as Told, begun_talk};
ghost use Rattle.mt_layer.specs.Answering.{answer_by, answered_with};
ghost use Rattle.mt_layer.specs.Deeds.{deed_again, deed_heard, said_as_live};
ghost use Rattle.mt_layer.specs.Keeping.{IsKeptOf, IsListenedInPart, IsResentInPart};
ghost use Rattle.mt_layer.specs.Saying.{heard_as_live, sent_again, sent_answering, sent_report, talk_again, talk_answering, talk_report, unless_closed};

use crate::answering::Answering;
use crate::hearing::planned;
use crate::sending::{all_sent, one_sent};
use mt_im_out::chunks;
use mt_model::{Reply, SentList, SessionRow};
use mt_outside::Peer;
use mt_shared::{Answer, Deed};
use mt_talk::Talk;
use mt_tlv::Bytes;
use std::alloc::{AllocError, Global};

/// What is said over a session, as its worker keeps it.
///
/// Where a call finds no memory, the talk is as it was; but what was heard counts, and what is sent again may be lost.
pub struct SessionTalk {
    alloc: Global,
    session: u16,
    talk: Talk,
}

impl Drop for SessionTalk {
    fn drop(self) {
        let SessionTalk {
            alloc: _,
            session: _,
            talk: _,
        } = self;
    }
}

impl SessionTalk {
    /// A talk over the session of this row, in which nothing has been said. The row is of a unicast session, PASE or CASE, whose
    /// two ids are not 0. It takes no memory.
    pub fn new(alloc: Global, row: SessionRow) -> SessionTalk
        requires auth { row.auth ≢ Group }
        requires session { row.session ≢ 0 }
        requires peer_session { row.peer_session ≢ 0 }
        ensures { IsKeptOf result row begun_talk }
    {
        SessionTalk {
            alloc,
            session: row.session,
            talk: Talk::new(alloc, row),
        }
    }

    /// The id of the session.
    pub fn session(&self) -> u16
        ensures { (row : Row) (t : Told) → IsKeptOf self.now row t → result ≡ row.session }
    {
        self.session
    }

    /// Hears a datagram of at most 65,535 bytes, which is opened in place, from this address, as if the session were live: the deed that
    /// the node is to do, and what is to be answered then. Where there is no memory the message counts all the same, and its exchange
    /// has taken it or is as it was.
    pub fn listen(
        &mut self,
        from: Peer,
        datagram: &mut [u8],
    ) -> Result<(Deed, Option<Answering>), AllocError>
        requires { length datagram.old < 2 ^ 16 }
        ensures deed { (row : Row) (t : Told) → IsKeptOf self.old row t
            → IfOk result (λ both. both.0 ≡ deed_heard row datagram.old t) }
        ensures within { IfOk result (λ both. IsWithin both.0) }
        ensures answer { (row : Row) (t : Told) → IsKeptOf self.old row t
            → IfOk result (λ both. (ms : ℕ) (reply : Replied) → answer_by ms reply both.1 ≡ answered_with ms reply (said_as_live row datagram.old t)) }
        ensures stands { (row : Row) (t : Told) → IsKeptOf self.old row t
            → OnOk result (IsKeptOf self.new row (heard_as_live row from datagram.old t)) }
        ensures counts { (row : Row) (t : Told) → IsKeptOf self.old row t
            → OnErr result (IsListenedInPart self.new row from datagram.old t) }
    {
        let hearing = self.talk.hear(true, from, datagram)?;
        planned(self.alloc, self.session, hearing.heard)
    }

    /// Says what is to be answered, by what the node answers to the deed, which was done at this time, in ms. Where the session was not
    /// live nothing is said. Where it was not, or has ended with the deed, nothing stays open.
    pub fn answer(
        &mut self,
        answering: Option<Answering>,
        answer: &Answer,
        ms: u64,
    ) -> Result<SentList, AllocError>
        ensures sent { (row : Row) (t : Told) → IsKeptOf self.old row t
            → IfOk result (λ sent. sent ≡ sent_answering row ms answer.now (answer_by ms answer.now.reply answering) t) }
        ensures stands { (row : Row) (t : Told) → IsKeptOf self.old row t
            → OnOk result (IsKeptOf self.new row (talk_answering row ms answer.now (answer_by ms answer.now.reply answering) t)) }
        ensures kept { OnErr result (self.new ≡ self.old) }
    {
        if answer.fabric.is_none() {
            self.talk.drop_all();
            return Ok(SentList::new(self.alloc));
        }
        let peer = self.talk.latest();
        let room = Vec::with_capacity(self.alloc, 1)?;
        let datagram = said(self.alloc, &mut self.talk, answering, &answer.reply, ms)?;
        self.drop_if_closed(answer.closed.as_slice());
        Ok(one_sent(ms, self.session, peer, datagram, room))
    }

    /// The deed of a resend step: the subscriptions end whose reports were sent in vain by the time at which it is done.
    pub fn ends(&self) -> Result<Deed, AllocError>
        ensures within { IfOk result IsWithin }
        ensures deed { (row : Row) (t : Told) → IsKeptOf self.now row t → IfOk result (λ deed. deed ≡ deed_again row t) }
    {
        Ok(Deed::Ends {
            session: self.session,
            at: self.talk.ends()?,
        })
    }

    /// Sends again what is due, by what the node answers to the deed of a resend step, which was done at this time, in ms. Where the
    /// session was not live nothing is sent. Where it was not, or has ended with the deed, nothing stays open. Where there is no memory
    /// the talk is as it was, or what is due counts as sent again.
    pub fn resend(&mut self, answer: &Answer, ms: u64) -> Result<SentList, AllocError>
        ensures sent { (row : Row) (t : Told) → IsKeptOf self.old row t
            → IfOk result (λ sent. sent ≡ sent_again row ms answer.now t) }
        ensures stands { (row : Row) (t : Told) → IsKeptOf self.old row t
            → OnOk result (IsKeptOf self.new row (talk_again row ms answer.now t)) }
        ensures part { (row : Row) (t : Told) → IsKeptOf self.old row t
            → OnErr result (IsResentInPart self.new row ms t) }
    {
        if answer.fabric.is_none() {
            self.talk.drop_all();
            return Ok(SentList::new(self.alloc));
        }
        let peer = self.talk.latest();
        let (datagrams, _) = self.talk.resend(ms)?;
        let sent = all_sent(self.alloc, ms, self.session, peer, datagrams.into_vec())?;
        self.drop_if_closed(answer.closed.as_slice());
        Ok(sent)
    }

    /// Reports to a subscription that is told over the session, by what the node answers to the deed of a report step, which was
    /// done at this time, in ms. Where nothing was due, nothing is sent.
    pub fn report(
        &mut self,
        subscription: u32,
        answer: &Answer,
        ms: u64,
    ) -> Result<SentList, AllocError>
        ensures sent { (row : Row) (t : Told) → IsKeptOf self.old row t
            → IfOk result (λ sent. sent ≡ sent_report row ms answer.now t) }
        ensures stands { (row : Row) (t : Told) → IsKeptOf self.old row t
            → OnOk result (IsKeptOf self.new row (talk_report row ms subscription answer.now t)) }
        ensures kept { OnErr result (self.new ≡ self.old) }
    {
        let peer = self.talk.latest();
        let payloads = chunks(self.alloc, &answer.reply)?;
        let room = Vec::with_capacity(self.alloc, 1)?;
        let datagram = self.talk.report(subscription, payloads, ms)?;
        self.drop_if_closed(answer.closed.as_slice());
        Ok(one_sent(ms, self.session, peer, datagram, room))
    }

    // Where the session is among those that have ended, nothing stays open.
    fn drop_if_closed(&mut self, closed: &[u16])
        ensures { (row : Row) (t : Told) → IsKeptOf self.old row t → IsKeptOf self.new row (unless_closed closed.now row.session t) }
    {
        if closed.contains(&self.session) {
            self.talk.drop_all();
        }
    }
}

// The datagram that an answer sends, where it sends one.
fn said(
    alloc: Global,
    talk: &mut Talk,
    answering: Option<Answering>,
    reply: &Reply,
    ms: u64,
) -> Result<Option<Bytes>, AllocError>
    ensures sent { (row : Row) (t : Told) → IsTalkOf talk.old row t → IfOk result (λ sent. sent ≡ datagram_of row t (answer_by ms reply.now answering)) }
    ensures stands { (row : Row) (t : Told) → IsTalkOf talk.old row t → OnOk result (IsTalkOf talk.new row (behind_answer row ms t (answer_by ms reply.now answering))) }
    ensures kept { OnErr result (talk.new ≡ talk.old) }
{
    match answering {
        Some(answering) => {
            let payloads = answering.content.into_payloads(alloc, reply, ms)?;
            talk.answer(answering.key, answering.acknowledge, payloads, ms)
        },
        None => Ok(None),
    }
}
