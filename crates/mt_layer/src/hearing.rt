//! What is to be done and answered for what was heard.

ghost use Rattle.std.specs.Prelude.{◌≡◌, ℕ, Some, IfOk};
ghost use Rattle.mt_im.specs.Limits.{IsWithinLimits};
ghost use Rattle.mt_shared.specs.mt_interactions.Deeds.{IsWithin};
ghost use Rattle.mt_model.specs.declared.messages.message.Reply.{Reply as Replied};
ghost use Rattle.mt_talk.specs.Hearing.{asks, said_by};
ghost use Rattle.mt_layer.specs.Answering.{answer_by, answered_with, wait_of};
ghost use Rattle.mt_layer.specs.Deeds.{deed_ended, deed_said};

use crate::answering::{Answering, Content};
use mt_exchange::{EndTime, EndTimes};
use mt_im_out::chunks;
use mt_model::{Payloads, Request};
use mt_shared::{Deed, asked, fault_reply};
use mt_talk::{Heard, Key};
use std::alloc::{AllocError, Global};

/// The deed for what was heard over the session of this id, and what is to be answered once it is done.
pub(crate) fn planned(
    alloc: Global,
    session: u16,
    heard: Heard,
) -> Result<(Deed, Option<Answering>), AllocError>
    ensures deed { IfOk result (λ both. both.0 ≡ deed_said session (said_by heard.entry)) }
    ensures within { IfOk result (λ both. IsWithin both.0) }
    ensures answer { IfOk result (λ both. (ms : ℕ) (reply : Replied) → answer_by ms reply both.1 ≡ answered_with ms reply (said_by heard.entry)) }
{
    match heard {
        Heard::Nothing => Ok((Deed::Nothing { session }, None)),
        Heard::Asks {
            key,
            acknowledge,
            opcode,
            payload,
            timed,
        } => planned_request(alloc, session, key, acknowledge, opcode, payload, timed),
        Heard::Confirms {
            key,
            acknowledge,
            subscription,
        } => {
            let deed = Deed::Confirm {
                session,
                subscription,
            };
            let content = Content::Reply {
                timed: None,
                wait: None,
            };
            Ok((deed, answering(key, acknowledge, content)))
        },
        Heard::Ends {
            key,
            acknowledge,
            subscription,
        } => {
            let deed = ended(alloc, session, subscription)?;
            let content = Content::Payloads(Payloads::new(alloc));
            Ok((deed, answering(key, acknowledge, content)))
        },
        Heard::Answers {
            key,
            acknowledge,
            payloads,
        } => {
            let content = Content::Payloads(payloads);
            Ok((
                Deed::Nothing { session },
                answering(key, acknowledge, content),
            ))
        },
    }
}

// The same for what asks: what is no request is answered by its fault.
fn planned_request(
    alloc: Global,
    session: u16,
    key: Key,
    acknowledge: Option<u32>,
    opcode: u8,
    payload: &[u8],
    timed: Option<u64>,
) -> Result<(Deed, Option<Answering>), AllocError>
    ensures deed { IfOk result (λ both. both.0 ≡ deed_said session (asks key acknowledge opcode payload.now timed)) }
    ensures within { IfOk result (λ both. IsWithin both.0) }
    ensures answer { IfOk result (λ both. (ms : ℕ) (reply : Replied) → answer_by ms reply both.1 ≡ answered_with ms reply (asks key acknowledge opcode payload.now timed)) }
{
    match asked(alloc, opcode, payload)? {
        Ok(request) => {
            let wait = wait_of(&request);
            let deed = Deed::Ask {
                session,
                request,
                timed,
            };
            let content = Content::Reply { timed, wait };
            Ok((deed, answering(key, acknowledge, content)))
        },
        Err(fault) => {
            let payloads = chunks(alloc, &fault_reply(fault))?;
            let content = Content::Payloads(payloads);
            Ok((
                Deed::Nothing { session },
                answering(key, acknowledge, content),
            ))
        },
    }
}

fn answering(key: Key, acknowledge: Option<u32>, content: Content) -> Option<Answering>
    ensures { result ≡ Some (record { key = key; acknowledge = acknowledge; content = content }) }
{
    Some(Answering {
        key,
        acknowledge,
        content,
    })
}

// How long a request lets the next one take, in ms, where it sets that.
fn wait_of(request: &Request) -> Option<u16>
    ensures { result ≡ wait_of request.now }
{
    match request {
        Request::Timed { ms } => Some(*ms),
        _ => None,
    }
}

// The subscription ends whose report was not confirmed, where it was one.
fn ended(alloc: Global, session: u16, subscription: Option<u32>) -> Result<Deed, AllocError>
    ensures { IfOk result (λ deed. deed ≡ deed_ended session subscription) }
{
    let Some(subscription) = subscription else {
        return Ok(Deed::Nothing { session });
    };
    let at = vec![in alloc;
        EndTime {
            subscription,
            ms: 0
        },
    ]?;
    Ok(Deed::Ends {
        session,
        at: EndTimes::from_vec(at),
    })
}
