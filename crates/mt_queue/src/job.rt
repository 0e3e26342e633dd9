//! What one thread gives another to do.

use mt_outside::Peer;
use mt_tlv::Bytes;

/// A job. Times are in ms.
#[derive(Drop)]
pub enum Job {
    /// A datagram came from a peer at `now`.
    Take { now: u64, from: Peer, bytes: Bytes },
    /// Time has come to a new whole second, at `now`.
    Wake { now: u64 },
    /// Nothing follows.
    End,
}
