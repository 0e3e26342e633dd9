//! What is sent to the peer of a session.

ghost use Rattle.std.specs.Prelude.{◌≡◌, IfOk};
ghost use Rattle.mt_interactions.specs.mt_runs.Datagrams.{all_sent, if_any, sent_at};

use mt_model::{Sent, SentList, To};
use mt_outside::Peer;
use mt_tlv::Bytes;
use std::alloc::{AllocError, Global};

/// A datagram, where there is one, to where the peer was last heard from.
pub(crate) fn one_sent(
    alloc: Global,
    ms: u64,
    session: u16,
    peer: Option<Peer>,
    datagram: Option<Bytes>,
) -> Result<SentList, AllocError>
    ensures { IfOk result (λ sent. sent ≡ all_sent ms session peer (if_any datagram)) }
{
    let mut sent = SentList::new(alloc);
    if let Some(peer) = peer {
        if let Some(bytes) = datagram {
            sent.push(sent_at(ms, session, peer, bytes))?;
        }
    }
    Ok(sent)
}

/// Datagrams in their order, to where the peer was last heard from.
pub(crate) fn all_sent(
    alloc: Global,
    ms: u64,
    session: u16,
    peer: Option<Peer>,
    datagrams: Vec<Bytes>,
) -> Result<SentList, AllocError>
    ensures { IfOk result (λ sent. sent ≡ all_sent ms session peer datagrams.items) }
{
    let Some(peer) = peer else {
        return Ok(SentList::new(alloc));
    };
    let mut sent = Vec::with_capacity(alloc, datagrams.len())?;
    for bytes in datagrams {
        sent.push(sent_at(ms, session, peer, bytes))?;
    }
    Ok(SentList::from_vec(sent))
}

fn sent_at(ms: u64, session: u16, peer: Peer, bytes: Bytes) -> Sent
    ensures { result ≡ sent_at ms session peer bytes }
{
    Sent {
        ms,
        to: To::Session { session, peer },
        bytes,
    }
}
