//! What is sent to the peer of a session.

ghost use Rattle.std.specs.Prelude.{◌≡◌, ◌<◌, [], IfOk, vec_capacity, vec_len};
ghost use Rattle.mt_shared.specs.mt_runs.Datagrams.{all_sent, if_any, sent_at};

use mt_model::{Sent, SentList, To};
use mt_outside::Peer;
use mt_tlv::Bytes;
use std::alloc::{AllocError, Global};

/// A datagram, where there is one, to where the peer was last heard from, in this room. It takes no memory.
pub(crate) fn one_sent(
    ms: u64,
    session: u16,
    peer: Option<Peer>,
    datagram: Option<Bytes>,
    room: Vec<Sent>,
) -> SentList
    requires empty { room.items ≡ [] }
    requires room { vec_len room < vec_capacity room }
    ensures { result ≡ all_sent ms session peer (if_any datagram) }
{
    let mut sent = room;
    if let Some(peer) = peer {
        if let Some(bytes) = datagram {
            sent.push_reserved(sent_at(ms, session, peer, bytes));
        }
    }
    SentList::from_vec(sent)
}

/// Datagrams in their order, to where the peer was last heard from.
pub(crate) fn all_sent(
    alloc: Global,
    ms: u64,
    session: u16,
    peer: Option<Peer>,
    datagrams: Vec<Bytes>,
) -> Result<SentList, AllocError>
    ensures { IfOk result (λ sent. sent ≡ all_sent ms session peer datagrams.items) }
{
    let Some(peer) = peer else {
        return Ok(SentList::new(alloc));
    };
    let mut sent = Vec::with_capacity(alloc, datagrams.len())?;
    for bytes in datagrams {
        sent.push(sent_at(ms, session, peer, bytes))?;
    }
    Ok(SentList::from_vec(sent))
}

fn sent_at(ms: u64, session: u16, peer: Peer, bytes: Bytes) -> Sent
    ensures { result ≡ sent_at ms session peer bytes }
{
    Sent {
        ms,
        to: To::Session { session, peer },
        bytes,
    }
}
