//! The messages of a reply to a plain actor.

ghost use Rattle.std.specs.Prelude.{◌≡◌, IfOk};
ghost use Rattle.mt_node.specs.mt_machine.Lines.{sent_as, sent_plain};
ghost use Rattle.mt_interactions.specs.Replying.{sent_both};

use mt_im_out::chunks;
use mt_model::{Payload, Reply, Sent, SentList, To};
use std::alloc::{AllocError, Global};

/// The messages of a reply to a plain actor of a fabric, who confirms each at once. The bytes of the
/// payloads are moved.
pub(crate) fn sent_as(
    alloc: Global,
    ms: u64,
    fabric: u8,
    reply: &Reply,
) -> Result<SentList, AllocError>
    ensures { IfOk result (λ sent. sent ≡ sent_as ms fabric reply.now) }
{
    let payloads = chunks(alloc, reply)?.into_vec();
    let mut sent = Vec::with_capacity(alloc, payloads.len())?;
    for payload in payloads {
        sent.push(sent_plain(ms, fabric, payload))?;
    }
    Ok(SentList::from_vec(sent))
}

/// The messages of two replies, one after the other.
pub(crate) fn sent_both(
    alloc: Global,
    ms: u64,
    fabric: u8,
    reply: &Reply,
    response: &Reply,
) -> Result<SentList, AllocError>
    ensures { IfOk result (λ sent. sent ≡ sent_both ms fabric reply.now response.now) }
{
    let mut sent = sent_as(alloc, ms, fabric, reply)?.into_vec();
    let mut more = sent_as(alloc, ms, fabric, response)?.into_vec();
    sent.append(&mut more)?;
    Ok(SentList::from_vec(sent))
}

fn sent_plain(ms: u64, fabric: u8, payload: Payload) -> Sent
    ensures { result ≡ sent_plain ms fabric payload }
{
    Sent {
        ms,
        to: To::Plain {
            fabric,
            opcode: payload.opcode,
        },
        bytes: payload.bytes,
    }
}
