//! What is shown of a session, and what a line adds to what is shown of one.

use mt_exchange::Outgoing;
use mt_frame::ProtocolHeader;
use mt_model::Listed;
use mt_tlv::Bytes;

/// A message that was let in.
#[derive(Drop)]
pub struct Arrived {
    /// The message counter.
    pub counter: u32,
    pub header: ProtocolHeader,
    pub payload: Bytes,
}

/// What came and what went on a session. Times are in ms.
#[derive(Drop)]
pub enum Shown {
    /// A message was let in, while the session was live or not.
    Heard {
        live: bool,
        arrival: Arrived,
    },
    /// A message was sent on an exchange.
    Sent {
        outgoing: Outgoing,
        now: u64,
    },
    /// The first message of a report was sent, which began an exchange of this subscription.
    Told {
        subscription: u32,
        outgoing: Outgoing,
        now: u64,
    },
    /// What was owed and due was sent again.
    Again {
        now: u64,
    },
    /// All exchanges were dropped.
    Closed,
}

/// What is shown, in the order of time.
pub type ShownList = Listed<Shown>;

/// What a line adds to what is shown of a session.
#[derive(Drop)]
pub struct Note {
    /// The node's id of the session.
    pub session: u16,
    pub shown: ShownList,
}
