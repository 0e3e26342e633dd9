//! What a datagram brings to a session, or why it is dropped.

use mt_frame::{FrameFault, ProtocolHeader};

/// A message that was let in. Its payload is a part of the datagram.
#[derive(Drop)]
pub struct Opened<'a> {
    /// The peer's counter of the message.
    pub counter: u32,
    pub header: ProtocolHeader,
    pub payload: &'a [u8],
}

/// Why a datagram is dropped: the first test that it fails. Nothing of the session has changed then.
#[derive(Clone, Copy, Debug, PartialEq, Eq)]
pub enum Dropped {
    /// It has no message header that is read here, or what was sealed has no protocol header.
    Frame(FrameFault),
    /// It is of another session.
    OtherSession,
    /// It names another sender than the peer, or another receiver than the node.
    Source,
    /// No message is sealed in it under the session's key.
    NotSealed,
    /// It is a copy of a message that was let in. The counter and the header serve to acknowledge it
    /// again.
    Duplicate {
        counter: u32,
        header: ProtocolHeader,
    },
    /// Its counter is too far below the greatest to tell.
    Old,
}
