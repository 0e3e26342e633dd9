//! What is to be answered to what was heard, once the shared node has done the deed.

ghost use Rattle.std.specs.Prelude.{◌≡◌, IfOk};
ghost use Rattle.mt_layer.specs.Answering.{payloads_by, until_set};

use mt_im_out::chunks;
use mt_model::{Payloads, Reply, Request};
use mt_shared::{dated, deadline_set};
use mt_talk::Key;
use std::alloc::{AllocError, Global};

/// What is to be answered on an exchange, and the counter that is to be acknowledged.
#[derive(Drop)]
pub struct Answering {
    pub key: Key,
    pub acknowledge: Option<u32>,
    pub content: Content,
}

/// With which payloads.
#[derive(Drop)]
pub enum Content {
    /// Those of what the node replies.
    Reply {
        /// Until when, in ms, what was asked had to come.
        timed: Option<u64>,
        /// How long, in ms, it lets the next request of the exchange take, where it sets that.
        wait: Option<u16>,
    },
    /// These, whatever the node replies.
    Payloads(Payloads),
}

impl Content {
    /// The payloads of the answer, of what the node replies to the deed at this time, in ms.
    pub(crate) fn into_payloads(
        self,
        alloc: Global,
        reply: &Reply,
        ms: u64,
    ) -> Result<Payloads, AllocError>
        ensures { IfOk result (λ payloads. payloads ≡ payloads_by ms reply.now self) }
    {
        match self {
            Content::Reply { timed, wait } => {
                Ok(dated(chunks(alloc, reply)?, until_set(timed, ms, wait)))
            },
            Content::Payloads(payloads) => Ok(payloads),
        }
    }
}

// Until when the next request must come, where so many ms were set.
fn until_set(timed: Option<u64>, ms: u64, wait: Option<u16>) -> Option<u64>
    ensures { result ≡ until_set timed ms wait }
{
    match wait {
        Some(wait) => deadline_set(timed, ms, &Request::Timed { ms: wait }),
        None => None,
    }
}
