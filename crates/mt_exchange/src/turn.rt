//! What a message that was let in is to the exchanges of its session.

use crate::exchange::Key;

/// What a message is. An `Ask`, a `Next` and a `Confirmed` are to be answered.
#[derive(Clone, Copy, Debug, PartialEq, Eq)]
pub enum Turn<'a> {
    /// A request to be acted on.
    Ask {
        key: Key,
        opcode: u8,
        payload: &'a [u8],
        /// Until when it had to come, in ms, where it follows a TimedRequest.
        timed: Option<u64>,
    },
    /// The confirmation of a payload behind which others are kept: the next one is to be sent.
    Next {
        key: Key,
    },
    /// The confirmation of the last payload of a report of this subscription.
    Confirmed {
        key: Key,
        subscription: u32,
    },
    /// Another message in the place of a confirmation. What was kept is gone, and so is the subscription.
    Ended {
        key: Key,
        subscription: Option<u32>,
    },
    /// A message that says nothing but what it acknowledges, or one of another protocol.
    Acknowledged,
    /// A fifth exchange of the peer, which is not opened.
    Busy {
        key: Key,
    },
    /// A message of no open exchange, which begins none.
    Closed,
}
