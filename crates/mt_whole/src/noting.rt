//! What a line adds to what is shown of a session, for whoever keeps that beside a run.

ghost use Rattle.std.specs.Prelude.{◌≡◌, ◌<◌, ◌++◌, ◌∷◌, ◌^◌, [], IfOk, OnOk, Some, length, map};
ghost use Rattle.std.specs.Option.{option_map};
ghost use Rattle.mt_model.specs.declared.texts.recording.Event.TheVariants.{Datagram, Report, Resend};
ghost use Rattle.mt_model.specs.declared.texts.config.SessionRow.{SessionRow};
ghost use Rattle.mt_interactions.specs.mt_runs.Datagrams.{behind_answer, resent_talk, talked};
ghost use Rattle.mt_interactions.specs.mt_runs.Lines.{talks_behind};
ghost use Rattle.mt_interactions.specs.mt_runs.Whole.{SessionTalk as ToldTalk, Whole as Told};
ghost use Rattle.mt_exchange.specs.Shown.{heard as heard_as};
ghost use Rattle.mt_talk.specs.Hearing.{fresh_as};
ghost use Rattle.mt_talk.specs.Talks.{IsTalkOf, Talk as Written, after_report};
ghost use Rattle.mt_interactions.specs.mt_machine.Environment.{Environment};
ghost use Rattle.mt_marks.specs.Noted.{noted_if, shown_in};
ghost use Rattle.mt_marks.specs.Remembered.{remembered};
ghost use Rattle.mt_whole.specs.Noting.{IsNoteOf, IsShownBehind, listed, sent_if, told_if};
ghost use Rattle.mt_whole.specs.Plan.{answer_as, given_to};
ghost use Rattle.mt_whole.specs.Talks.{IsTalkAt, IsWholeOf};

use crate::datagrams::{Answering, answered};
use crate::talks::{SessionTalk, talk_of};
use crate::whole::Whole;
use mt_marks::{Arrived, Note, Shown, ShownList};
use mt_model::{Event, ExactCopy, Payloads, Verdicts};
use mt_outside::Peer;
use mt_session::Opened;
use mt_talk::{Outgoing, Talk, session_named};
use mt_tlv::Bytes;
use std::alloc::{AllocError, Global};

impl Whole {
    /// What an event adds to what is shown of a session, None where it adds nothing. It changes nothing, and finds anew what
    /// `plan` finds, which keeps none of it. The exchanges of sessions that end with the event are dropped besides.
    pub fn note<V: Verdicts>(&self, event: &Event, verdicts: &V) -> Result<Option<Note>, AllocError>
        ensures { let given = given_to self.now (V.roots verdicts.now) (V.csrs verdicts.now) (V.joins verdicts.now) in
            (w : Told) → IsWholeOf self.now w → IfOk result (λ note. noted_if note (map remembered w.talks) ≡ map remembered (talks_behind given w event.now)) }
    {
        match event {
            Event::Datagram { ms, peer, bytes } => noted_datagram(
                self, *ms, *peer, bytes, verdicts,
            ),
            Event::Report {
                ms,
                fabric,
                subscription,
            } => noted_report(self, *ms, *fabric, *subscription, verdicts),
            Event::Resend { ms, session } => noted_resend(self, *ms, *session),
            _ => Ok(None),
        }
    }
}

// What a datagram adds.
fn noted_datagram<V: Verdicts>(
    whole: &Whole,
    ms: u64,
    from: Peer,
    bytes: &Bytes,
    verdicts: &V,
) -> Result<Option<Note>, AllocError>
    ensures { let given = given_to whole.now (V.roots verdicts.now) (V.csrs verdicts.now) (V.joins verdicts.now) in
        (w : Told) → IsWholeOf whole.now w → IfOk result (λ note. noted_if note (map remembered w.talks) ≡ map remembered (talks_behind given w (Datagram ms from bytes.now))) }
{
    let Some(id) = session_named(bytes.as_slice()) else {
        return Ok(None);
    };
    match talk_of(&whole.talks, id) {
        Some(talk) => Ok(Some(noted_heard(whole, ms, from, bytes, talk, verdicts)?)),
        None => Ok(None),
    }
}

// What it adds to this talk: the message, where it is let in, and what is sent as an answer.
fn noted_heard<V: Verdicts>(
    whole: &Whole,
    ms: u64,
    from: Peer,
    bytes: &Bytes,
    talk: &SessionTalk,
    verdicts: &V,
) -> Result<Note, AllocError>
    requires { length bytes.now < 2 ^ 16 }
    ensures { let given = given_to whole.now (V.roots verdicts.now) (V.csrs verdicts.now) (V.joins verdicts.now) in
        (t : ToldTalk) → IsTalkAt talk.now t → IfOk result (λ note. IsNoteOf (Some note) t (talked given whole.now.interactions.state.node whole.now.interactions.ledger ms from bytes.now t)) }
{
    let live = whole.interactions.actor(talk.id).is_some();
    let mut heard = talk.talk.copy()?;
    let mut datagram = bytes.copy()?.into_vec();
    let hearing = heard.hear(live, from, &mut datagram)?;
    let came = heard_if_any(whole.alloc, live, &hearing.fresh)?;
    let (answer, _) = answered(whole, talk.id, hearing.heard, ms, verdicts)?;
    let went = sent_with(&heard, answer, ms)?;
    Ok(Note {
        session: talk.id,
        shown: all_listed(whole.alloc, came, went)?,
    })
}

// What is sent as an answer, where something is.
fn sent_with(talk: &Talk, answer: Option<Answering>, ms: u64) -> Result<Option<Shown>, AllocError>
    ensures { (row : SessionRow) (t : Written) → IsTalkOf talk.now row t → IfOk result (λ went. IsShownBehind went t (behind_answer row ms t (answer_as answer))) }
{
    match answer {
        Some(answer) => answer_sent(talk, answer, ms),
        None => Ok(None),
    }
}

// An answer that the session refuses sends nothing.
fn answer_sent(talk: &Talk, answer: Answering, ms: u64) -> Result<Option<Shown>, AllocError>
    ensures { (row : SessionRow) (t : Written) → IsTalkOf talk.now row t → IfOk result (λ went. IsShownBehind went t (behind_answer row ms t (answer_as (Some answer)))) }
{
    let Answering {
        key,
        acknowledge,
        payloads,
    } = answer;
    let refusal = talk.answer_refusal(key, acknowledge, payloads.copy()?)?;
    if refusal.is_some() {
        return Ok(None);
    }
    let outgoing = talk.answer_outgoing(key, acknowledge, payloads)?;
    Ok(sent_if_any(outgoing, ms))
}

fn sent_if_any(outgoing: Option<Outgoing>, now: u64) -> Option<Shown>
    ensures { result ≡ sent_if outgoing now }
{
    match outgoing {
        Some(outgoing) => Some(Shown::Sent { outgoing, now }),
        None => None,
    }
}

// What a report step adds.
fn noted_report<V: Verdicts>(
    whole: &Whole,
    ms: u64,
    fabric: u8,
    subscription: u32,
    verdicts: &V,
) -> Result<Option<Note>, AllocError>
    ensures { let given = given_to whole.now (V.roots verdicts.now) (V.csrs verdicts.now) (V.joins verdicts.now) in
        (w : Told) → IsWholeOf whole.now w → IfOk result (λ note. noted_if note (map remembered w.talks) ≡ map remembered (talks_behind given w (Report ms fabric subscription))) }
{
    let (over, _, _) = whole
        .interactions
        .plan_report(fabric, subscription, ms, verdicts)?;
    let Some((session, payloads)) = over else {
        return Ok(None);
    };
    match talk_of(&whole.talks, session) {
        Some(talk) => noted_over(whole.alloc, ms, subscription, talk, payloads),
        None => Ok(None),
    }
}

// What a report adds to this talk.
fn noted_over(
    alloc: Global,
    ms: u64,
    subscription: u32,
    talk: &SessionTalk,
    payloads: Payloads,
) -> Result<Option<Note>, AllocError>
    ensures { (t : ToldTalk) → IsTalkAt talk.now t → IfOk result (λ note. IsNoteOf note t (after_report t.row subscription payloads ms t.talk)) }
{
    let went = report_sent(&talk.talk, subscription, payloads, ms)?;
    match went {
        Some(one) => Ok(Some(note_of(alloc, talk.id, one)?)),
        None => Ok(None),
    }
}

// A report that the session refuses sends nothing.
fn report_sent(
    talk: &Talk,
    subscription: u32,
    payloads: Payloads,
    ms: u64,
) -> Result<Option<Shown>, AllocError>
    ensures { (row : SessionRow) (t : Written) → IsTalkOf talk.now row t → IfOk result (λ went. IsShownBehind went t (after_report row subscription payloads ms t)) }
{
    let refusal = talk.report_refusal(subscription, payloads.copy()?)?;
    if refusal.is_some() {
        return Ok(None);
    }
    let outgoing = talk.report_outgoing(payloads)?;
    Ok(told_if_any(subscription, outgoing, ms))
}

fn told_if_any(subscription: u32, outgoing: Option<Outgoing>, now: u64) -> Option<Shown>
    ensures { result ≡ told_if subscription outgoing now }
{
    match outgoing {
        Some(outgoing) => Some(Shown::Told {
            subscription,
            outgoing,
            now,
        }),
        None => None,
    }
}

// What a resend step adds, where the session is live.
fn noted_resend(whole: &Whole, ms: u64, session: u16) -> Result<Option<Note>, AllocError>
    ensures { (given : Environment) (w : Told) → IsWholeOf whole.now w → IfOk result (λ note. noted_if note (map remembered w.talks) ≡ map remembered (talks_behind given w (Resend ms session))) }
{
    match talk_of(&whole.talks, session) {
        Some(talk) => noted_again(whole, ms, talk),
        None => Ok(None),
    }
}

fn noted_again(whole: &Whole, ms: u64, talk: &SessionTalk) -> Result<Option<Note>, AllocError>
    ensures { (t : ToldTalk) → IsTalkAt talk.now t → IfOk result (λ note. IsNoteOf note t (resent_talk whole.now.interactions.state.node ms t)) }
{
    if whole.interactions.actor(talk.id).is_none() {
        return Ok(None);
    }
    Ok(Some(note_of(whole.alloc, talk.id, Shown::Again { now: ms })?))
}

// One thing more is shown of a session.
fn note_of(alloc: Global, session: u16, one: Shown) -> Result<Note, AllocError>
    ensures session { IfOk result (λ note. note.session ≡ session) }
    ensures shown { IfOk result (λ note. note.shown ≡ one ∷ []) }
{
    Ok(Note {
        session,
        shown: ShownList::from_vec(vec![in alloc; one]?),
    })
}

// The message that is let in, where one is.
fn heard_if_any(
    alloc: Global,
    live: bool,
    fresh: &Option<Opened>,
) -> Result<Option<Shown>, AllocError>
    ensures { IfOk result (λ came. option_map shown_in came ≡ option_map (heard_as live) (fresh_as fresh.now)) }
{
    let Some(opened) = fresh else {
        return Ok(None);
    };
    let payload = Bytes::from_slice(alloc, opened.payload)?;
    let arrival = Arrived {
        counter: opened.counter,
        header: opened.header,
        payload,
    };
    Ok(Some(Shown::Heard { live, arrival }))
}

// What is shown first, and what is shown then.
fn all_listed(
    alloc: Global,
    first: Option<Shown>,
    then: Option<Shown>,
) -> Result<ShownList, AllocError>
    ensures { IfOk result (λ all. all ≡ listed first ++ listed then) }
{
    let mut all = Vec::new(alloc);
    push_if_any(&mut all, first)?;
    push_if_any(&mut all, then)?;
    Ok(ShownList::from_vec(all))
}

fn push_if_any(all: &mut Vec<Shown>, more: Option<Shown>) -> Result<(), AllocError>
    ensures { OnOk result (all.new.items ≡ all.old.items ++ listed more) }
{
    if let Some(one) = more {
        all.push(one)?;
    }
    Ok(())
}
