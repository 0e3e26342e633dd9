//! A datagram, from its bytes to what is sent.

ghost use Rattle.std.specs.Prelude.{◌≡◌, ◌≢◌, ◌<◌, ◌^◌, None, length, IfOk, OnOk};
ghost use Rattle.mt_model.specs.declared.texts.recording.Event.TheVariants.{Datagram};
ghost use Rattle.mt_model.specs.declared.texts.config.SessionRow.{SessionRow};
ghost use Rattle.mt_interactions.specs.mt_runs.Datagrams.{behind_answer, datagram_of, ending, session_named};
ghost use Rattle.mt_interactions.specs.mt_runs.Whole.{SessionTalk as ToldTalk, Whole as Told, fabric_over};
ghost use Rattle.mt_interactions.specs.Plan.{IsDone};
ghost use Rattle.mt_talk.specs.Hearing.{fresh_as, said_by};
ghost use Rattle.mt_talk.specs.Talks.{IsTalkOf, Talk as Written};
ghost use Rattle.mt_whole.specs.Plan.{IsAnswered, IsHeard, IsPlan, IsPlanned, answer_as, given_to, told_fresh};
ghost use Rattle.mt_whole.specs.Talks.{IsTalkAt, IsWholeOf};

use crate::outcome::WholeOutcome;
use crate::resends::quiet;
use crate::sending::one_sent;
use crate::talks::{SessionTalk, talk_of};
use crate::whole::Whole;
use mt_frame::ProtocolHeader;
use mt_interactions::{InteractionOutcome, asked};
use mt_model::{ExactCopy, Payloads, SentList, Verdicts};
use mt_outside::Peer;
use mt_session::Opened;
use mt_talk::{Heard, Key, Talk, session_named};
use mt_tlv::Bytes;
use std::alloc::{AllocError, Global};

/// What is answered on an exchange, and the counter that is acknowledged.
#[derive(Drop)]
pub(crate) struct Answering {
    pub(crate) key: Key,
    pub(crate) acknowledge: Option<u32>,
    pub(crate) payloads: Payloads,
}

/// Plans a datagram from this address. Who names no session of this boot is not heard.
pub(crate) fn planned_datagram<V: Verdicts>(
    whole: &Whole,
    ms: u64,
    from: Peer,
    bytes: &Bytes,
    verdicts: &V,
) -> Result<WholeOutcome, AllocError>
    ensures planned { IfOk result (IsPlanned whole.now.interactions.state whole.now.interactions.ledger) }
    ensures plan { let given = given_to whole.now (V.roots verdicts.now) (V.csrs verdicts.now) (V.joins verdicts.now) in
        (w : Told) → IsWholeOf whole.now w → IfOk result (IsPlan given w (Datagram ms from bytes.now)) }
{
    let Some(id) = session_named(bytes.as_slice()) else {
        return quiet(whole, ms, verdicts);
    };
    match talk_of(&whole.talks, id) {
        Some(talk) => planned_heard(whole, ms, from, bytes, talk, verdicts),
        None => quiet(whole, ms, verdicts),
    }
}

// Plans what a session hears, on a copy of its talk.
fn planned_heard<V: Verdicts>(
    whole: &Whole,
    ms: u64,
    from: Peer,
    bytes: &Bytes,
    talk: &SessionTalk,
    verdicts: &V,
) -> Result<WholeOutcome, AllocError>
    requires { length bytes.now < 2 ^ 16 }
    ensures planned { IfOk result (IsPlanned whole.now.interactions.state whole.now.interactions.ledger) }
    ensures heard { let given = given_to whole.now (V.roots verdicts.now) (V.csrs verdicts.now) (V.joins verdicts.now) in
        (t : ToldTalk) → IsTalkAt talk.now t → IfOk result (IsHeard given whole.now.interactions.state whole.now.interactions.ledger ms from bytes.now t) }
{
    let id = talk.id;
    let live = whole.interactions.actor(id).is_some();
    let mut talk = talk.talk.copy()?;
    let mut datagram = bytes.copy()?.into_vec();
    let hearing = talk.hear(live, from, &mut datagram)?;
    let fresh = fresh_of(whole.alloc, &hearing.fresh)?;
    let (answer, interactions) = answered(whole, id, hearing.heard, ms, verdicts)?;
    let peer = talk.latest();
    let datagram = datagram_of(&mut talk, answer, ms)?;
    let sent = one_sent(whole.alloc, ms, id, peer, datagram)?;
    Ok(WholeOutcome {
        sent,
        fresh,
        interactions,
        talk: Some(SessionTalk { id, talk }),
    })
}

// The datagram that an answer sends, where it sends one.
fn datagram_of(
    talk: &mut Talk,
    answer: Option<Answering>,
    ms: u64,
) -> Result<Option<Bytes>, AllocError>
    ensures sent { (row : SessionRow) (t : Written) → IsTalkOf talk.old row t → IfOk result (λ sent. sent ≡ datagram_of row t (answer_as answer)) }
    ensures stands { (row : SessionRow) (t : Written) → IsTalkOf talk.old row t → OnOk result (IsTalkOf talk.new row (behind_answer row ms t (answer_as answer))) }
{
    match answer {
        Some(answer) => talk.answer(answer.key, answer.acknowledge, answer.payloads, ms),
        None => Ok(None),
    }
}

/// What is answered to what is said, and what comes of it.
pub(crate) fn answered<V: Verdicts>(
    whole: &Whole,
    id: u16,
    heard: Heard,
    ms: u64,
    verdicts: &V,
) -> Result<(Option<Answering>, InteractionOutcome), AllocError>
    ensures { let given = given_to whole.now (V.roots verdicts.now) (V.csrs verdicts.now) (V.joins verdicts.now) in
        IfOk result (IsAnswered given whole.now.interactions.state whole.now.interactions.ledger id ms (said_by heard.entry)) }
{
    match heard {
        Heard::Nothing => Ok((None, whole.interactions.pass(ms, verdicts)?)),
        Heard::Asks {
            key,
            acknowledge,
            opcode,
            payload,
            timed,
        } => {
            let asked = asked(whole.alloc, opcode, payload)?;
            let (payloads, outcome) = whole
                .interactions
                .plan_over(id, &asked, timed, ms, verdicts)?;
            Ok((Some(answering_with(key, acknowledge, payloads)), outcome))
        },
        Heard::Confirms {
            key,
            acknowledge,
            subscription,
        } => {
            let (payloads, outcome) = whole
                .interactions
                .plan_confirm(id, subscription, ms, verdicts)?;
            Ok((Some(answering_with(key, acknowledge, payloads)), outcome))
        },
        Heard::Ends {
            key,
            acknowledge,
            subscription,
        } => {
            let outcome = ended(whole, id, subscription, ms, verdicts)?;
            let none = Payloads::new(whole.alloc);
            Ok((Some(answering_with(key, acknowledge, none)), outcome))
        },
        Heard::Answers {
            key,
            acknowledge,
            payloads,
        } => {
            let outcome = whole.interactions.pass(ms, verdicts)?;
            Ok((Some(answering_with(key, acknowledge, payloads)), outcome))
        },
    }
}

fn answering_with(key: Key, acknowledge: Option<u32>, payloads: Payloads) -> Answering
    ensures { result ≡ record { key = key; acknowledge = acknowledge; payloads = payloads } }
{
    Answering {
        key,
        acknowledge,
        payloads,
    }
}

// What comes of a message in the place of a confirmation: the subscription ends whose report it was, where it was one.
fn ended<V: Verdicts>(
    whole: &Whole,
    id: u16,
    subscription: Option<u32>,
    ms: u64,
    verdicts: &V,
) -> Result<InteractionOutcome, AllocError>
    ensures { let given = given_to whole.now (V.roots verdicts.now) (V.csrs verdicts.now) (V.joins verdicts.now) in
        IfOk result (IsDone given whole.now.interactions.state whole.now.interactions.ledger (ending (fabric_over whole.now.interactions.state.node id) subscription) ms) }
{
    match subscription {
        Some(subscription) => {
            let ids = vec![in whole.alloc; subscription]?;
            whole.interactions.plan_ends(id, ids, ms, verdicts)
        },
        None => whole.interactions.pass(ms, verdicts),
    }
}

// The message that is let in, in memory of its own.
fn fresh_of(
    alloc: Global,
    opened: &Option<Opened>,
) -> Result<Option<(u32, ProtocolHeader, Bytes)>, AllocError>
    ensures { IfOk result (λ fresh. told_fresh fresh ≡ fresh_as opened.now) }
{
    let Some(opened) = opened else {
        return Ok(None);
    };
    let payload = Bytes::from_slice(alloc, opened.payload)?;
    Ok(Some((opened.counter, opened.header, payload)))
}
