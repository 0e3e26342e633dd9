//! What a datagram says.

ghost use Rattle.std.specs.Prelude.{◌≡◌, ◌<◌, ◌^◌, [], length, true, IfOk, OnErr, OnOk, if◌then◌else◌};
ghost use Rattle.mt_model.specs.declared.texts.config.SessionRow.{SessionRow};
ghost use Rattle.mt_session.specs.Opening.{arrival};
ghost use Rattle.mt_exchange.specs.Receiving.{key_of as key_of_header, taken_by};
ghost use Rattle.mt_talk.specs.Hearing.{IsHeardInPart, acknowledging, after_datagram, answers, busy_payloads, nothing, fresh_as, fresh_by, received_in, said, said_again as said_again_by, said_as, said_by};
ghost use Rattle.mt_talk.specs.Talks.{IsTalkOf, Talk as Told};

use crate::talk::Talk;
use mt_exchange::{Key, Turn, key_of, shown_runs};
use mt_frame::ProtocolHeader;
use mt_im_out::chunks;
use mt_model::{Payloads, Reply, Status};
use mt_outside::Peer;
use mt_session::{Dropped, Opened};
use std::alloc::{AllocError, Global};

/// What a datagram says to the node. What is asked, confirmed or ended is to be answered on its exchange, and this counter
/// acknowledged.
#[derive(Drop)]
pub enum Heard<'a> {
    /// Nothing that is answered.
    Nothing,
    /// A request.
    Asks {
        key: Key,
        acknowledge: Option<u32>,
        opcode: u8,
        payload: &'a [u8],
        /// Until when it had to come, in ms, where it follows a TimedRequest.
        timed: Option<u64>,
    },
    /// The confirmation of the last payload of a report of this subscription.
    Confirms {
        key: Key,
        acknowledge: Option<u32>,
        subscription: u32,
    },
    /// Another message in the place of a confirmation: the rest of the reply goes, and the subscription that it is of.
    Ends {
        key: Key,
        acknowledge: Option<u32>,
        subscription: Option<u32>,
    },
    /// What is answered at once with these payloads; with none, the next one that is kept, or the acknowledgement alone.
    Answers {
        key: Key,
        acknowledge: Option<u32>,
        payloads: Payloads,
    },
}

/// What a datagram brings.
#[derive(Drop)]
pub struct Hearing<'a> {
    /// The fresh message, where it brings one, whether or not the session is live.
    pub fresh: Option<Opened<'a>>,
    pub heard: Heard<'a>,
}

impl Talk {
    /// Hears a datagram of at most 65,535 bytes, which is opened in place, from this address. While the session is not
    /// live a fresh message counts in the window alone. Where there is no memory a fresh message has come on a live
    /// session: it counts in the window, and its exchange has taken it or is as it was. Said again it is a copy, so whoever
    /// is to hear it then keeps a copy of the talk.
    pub fn hear<'a>(
        &mut self,
        live: bool,
        from: Peer,
        datagram: &'a mut [u8],
    ) -> Result<Hearing<'a>, AllocError>
        requires { length datagram.old < 2 ^ 16 }
        ensures heard { (row : SessionRow) (t : Told) → IsTalkOf self.old row t
            → IfOk result (λ hearing. said_by hearing.heard ≡ said row t live datagram.old) }
        ensures fresh { (row : SessionRow) (t : Told) → IsTalkOf self.old row t
            → IfOk result (λ hearing. fresh_as hearing.fresh ≡ fresh_by (received_in row t datagram.old)) }
        ensures stands { (row : SessionRow) (t : Told) → IsTalkOf self.old row t
            → OnOk result (IsTalkOf self.new row (after_datagram row live from datagram.old t)) }
        ensures counts { (row : SessionRow) (t : Told) → IsTalkOf self.old row t
            → OnErr result (IsHeardInPart self.new row from datagram.old t) }
        ensures while_live { OnErr result (live ≡ true) }
    {
        shown_runs();
        match self.session.unseal(datagram) {
            Ok(opened) => {
                self.latest = Some(from);
                if !live {
                    return Ok(Hearing {
                        fresh: Some(opened),
                        heard: Heard::Nothing,
                    });
                }
                let turn = self.exchanges.receive(&opened)?;
                let heard = heard_as(self.alloc, turn, opened.counter, &opened.header)?;
                Ok(Hearing {
                    fresh: Some(opened),
                    heard,
                })
            },
            Err(dropped) => Ok(Hearing {
                fresh: None,
                heard: heard_again(self.alloc, live, dropped),
            }),
        }
    }
}

// What a fresh message says, by its turn.
fn heard_as<'a>(
    alloc: Global,
    turn: Turn<'a>,
    counter: u32,
    header: &ProtocolHeader,
) -> Result<Heard<'a>, AllocError>
    ensures { IfOk result (λ heard. said_by heard ≡ said_as (key_of_header header.now) (acknowledging header.now counter) (taken_by turn.entry)) }
{
    let acknowledge = acknowledging(header, counter);
    match turn {
        Turn::Ask {
            key,
            opcode,
            payload,
            timed,
        } => Ok(Heard::Asks {
            key,
            acknowledge,
            opcode,
            payload,
            timed,
        }),
        Turn::Confirmed { key, subscription } => Ok(Heard::Confirms {
            key,
            acknowledge,
            subscription,
        }),
        Turn::Ended { key, subscription } => Ok(Heard::Ends {
            key,
            acknowledge,
            subscription,
        }),
        Turn::Busy { key } => {
            let payloads = busy_payloads(alloc)?;
            Ok(Heard::Answers {
                key,
                acknowledge,
                payloads,
            })
        },
        Turn::Next { key } => Ok(answering(alloc, key, acknowledge)),
        Turn::Acknowledged => Ok(answering(alloc, key_of(header), acknowledge)),
        Turn::Closed => Ok(answering(alloc, key_of(header), acknowledge)),
    }
}

// A copy of a message is acknowledged again.
fn heard_again<'a>(alloc: Global, live: bool, dropped: Dropped) -> Heard<'a>
    ensures { said_by result ≡ (if live then said_again_by dropped else nothing) }
{
    match dropped {
        Dropped::Duplicate { counter, header } => {
            if live {
                return answering(alloc, key_of(&header), acknowledging(&header, counter));
            }
            Heard::Nothing
        },
        _ => Heard::Nothing,
    }
}

// What is answered without payloads.
fn answering<'a>(alloc: Global, key: Key, acknowledge: Option<u32>) -> Heard<'a>
    ensures { said_by result ≡ answers key acknowledge [] }
{
    Heard::Answers {
        key,
        acknowledge,
        payloads: Payloads::new(alloc),
    }
}

// The counter that is to be acknowledged, where the message is reliable.
fn acknowledging(header: &ProtocolHeader, counter: u32) -> Option<u32>
    ensures { result ≡ acknowledging header.now counter }
{
    if header.reliable {
        return Some(counter);
    }
    None
}

// What a fifth exchange is told.
fn busy_payloads(alloc: Global) -> Result<Payloads, AllocError>
    ensures { IfOk result (λ payloads. payloads ≡ busy_payloads) }
{
    chunks(
        alloc,
        &Reply::Status {
            code: Status::Busy.code(),
        },
    )
}
