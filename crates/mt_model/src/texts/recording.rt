//! What a recording tells the node, and what the node sends.

ghost use Rattle.std.specs.Prelude.{◌≡◌};

use crate::listed::{ExactCopy, Listed};
use mt_outside::{Fate, Peer};
use mt_tlv::Bytes;
use std::alloc::AllocError;

/// One line of a recording behind its head.
#[derive(Drop)]
pub enum Event {
    /// A request of a plain actor, with no session layer below it.
    Ask {
        /// When, in ms.
        ms: u64,
        /// The actor's fabric; 0 is the plain PASE session.
        fabric: u8,
        node: u64,
        /// The actor's CATs; 0 stands for none.
        cats: [u32; 3],
        /// The opcode of the interaction model.
        opcode: u8,
        payload: Bytes,
    },
    /// A datagram that arrives.
    Datagram {
        /// When, in ms.
        ms: u64,
        peer: Peer,
        bytes: Bytes,
    },
    /// A step of time.
    Tick {
        /// When, in ms.
        ms: u64,
    },
    /// A step in which a subscription may report.
    Report {
        /// When, in ms.
        ms: u64,
        fabric: u8,
        subscription: u32,
    },
    /// A step in which a session may send again what was not acknowledged.
    Resend {
        /// When, in ms.
        ms: u64,
        session: u16,
    },
    /// The disk will stop.
    Stop {
        /// At which of the later calls that write or sync, from 1; 0 is at once.
        calls: u64,
        fate: Fate,
    },
}

impl ExactCopy for Event {
    fn copy(&self) -> Result<Event, AllocError> {
        match self {
            Event::Ask {
                ms,
                fabric,
                node,
                cats,
                opcode,
                payload,
            } => Ok(Event::Ask {
                ms: *ms,
                fabric: *fabric,
                node: *node,
                cats: *cats,
                opcode: *opcode,
                payload: payload.copy()?,
            }),
            Event::Datagram { ms, peer, bytes } => Ok(Event::Datagram {
                ms: *ms,
                peer: *peer,
                bytes: bytes.copy()?,
            }),
            Event::Tick { ms } => Ok(Event::Tick { ms: *ms }),
            Event::Report {
                ms,
                fabric,
                subscription,
            } => Ok(Event::Report {
                ms: *ms,
                fabric: *fabric,
                subscription: *subscription,
            }),
            Event::Resend { ms, session } => Ok(Event::Resend {
                ms: *ms,
                session: *session,
            }),
            Event::Stop { calls, fate } => Ok(Event::Stop {
                calls: *calls,
                fate: *fate,
            }),
        }
    }
}

/// The events of a recording, in the order of its lines.
pub type Events = Listed<Event>;

/// To whom a message is sent.
#[derive(Clone, Copy, Debug, PartialEq, Eq)]
pub enum To {
    /// To the peer of a session, as a sealed datagram.
    Session {
        /// The node's id of the session.
        session: u16,
        peer: Peer,
    },
    /// To a plain actor, with the opcode of the message.
    Plain {
        /// The actor's fabric as the line began.
        fabric: u8,
        opcode: u8,
    },
}

/// A message that is sent.
#[derive(Drop)]
pub struct Sent {
    /// When, in ms.
    pub ms: u64,
    pub to: To,
    pub bytes: Bytes,
}

impl ExactCopy for Sent {
    fn copy(&self) -> Result<Sent, AllocError> {
        Ok(Sent {
            ms: self.ms,
            to: self.to,
            bytes: self.bytes.copy()?,
        })
    }
}

/// Messages in the order of sending.
pub type SentList = Listed<Sent>;
