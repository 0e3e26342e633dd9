//! What is told: a line of a recording and what came of it.

use mt_frame::ProtocolHeader;
use mt_im::ImFault;
use mt_model::{Auth, Event, Request, Sent, Standing};
use mt_outside::Fate;

/// A line of the recording and what came of it.
#[derive(Drop)]
pub struct Told<'a> {
    /// Its number, from 1.
    pub line: u64,
    pub event: &'a Event,
    /// Whether it is told only since the disk stops in it, to a fabric that knows nothing else of the line.
    pub is_of_others: bool,
    /// What was asked, where it is a line of a plain actor.
    pub asked: Option<Result<Request, ImFault>>,
    /// What stands in the datagram, where it is one.
    pub letter: Option<Letter>,
    /// What an expiry of the fail-safe takes back, where it expires in this time step.
    pub expiry: Option<Expiry>,
    pub outcome: Outcome<'a>,
}

/// What came of a line.
#[derive(Drop)]
pub enum Outcome<'a> {
    /// It was carried out, and these messages were sent.
    Sent(Vec<Message<'a>>),
    /// The disk stopped in it: nothing was sent, and the node has started again.
    Restarted(Restart),
}

// How many bytes most lines take at most, but for what was sent, and how many times as long that is in words.
const ROOM: usize = 1_000;

const TIMES: usize = 5;

impl Told<'_> {
    /// How much room most lines like this one take.
    pub(crate) fn room(&self) -> usize {
        let Outcome::Sent(messages) = &self.outcome else {
            return ROOM;
        };
        let mut room = ROOM;
        for message in messages {
            room = room.saturating_add(message.sent.bytes.as_slice().len().saturating_mul(TIMES));
        }
        room
    }
}

/// A stop of the disk, and the start behind it.
#[derive(Drop)]
pub struct Restart {
    /// What the `X` line asked for by which the disk stopped: in which of the calls to come, 0 for at once, and what becomes
    /// of what was not synced then.
    pub calls: u64,
    pub fate: Fate,
    /// Whether what the line changed is there behind the stop. None where it changed nothing, and of a line of others.
    pub survives: Option<bool>,
    /// The number of the boot that has begun.
    pub boot: u32,
    /// What is taken back as it begins, where the fail-safe was armed in what the disk had.
    pub expiry: Option<Expiry>,
    /// The ids of the sessions that the configuration has for that boot.
    pub sessions: Vec<u16>,
}

/// What an expiry of the fail-safe takes back, beside the networks.
#[derive(Clone, Copy)]
pub struct Expiry {
    /// The fabric that was added since it was armed, which leaves.
    pub added: Option<u8>,
    /// The fabric that got new credentials since, which has its earlier ones again.
    pub updated: Option<u8>,
}

/// A message that was sent.
#[derive(Drop)]
pub struct Message<'a> {
    pub sent: &'a Sent,
    /// What stands in the datagram, where it is one.
    pub letter: Option<Letter>,
}

/// Whose session it is.
#[derive(Clone, Copy)]
pub struct Owner {
    /// The node's id of the session.
    pub session: u16,
    pub auth: Auth,
    /// For which fabric it is live, if it is.
    pub standing: Standing,
    /// The peer's node id; 0 over PASE.
    pub node: u64,
}

impl Owner {
    /// The fabric for which the session is live, 0 over PASE that has joined none; None where it is not live.
    pub(crate) fn fabric(&self) -> Option<u8> {
        match self.standing {
            Standing::Live(fabric) => Some(fabric),
            Standing::Waits | Standing::Ended => None,
        }
    }
}

/// What the header of a datagram names.
#[derive(Clone, Copy)]
pub struct Heading {
    /// The id of the session, as the receiver has it.
    pub session: u16,
    pub counter: u32,
}

/// What stands in a datagram.
#[derive(Drop)]
pub struct Letter {
    /// What its header names, where that can be read.
    pub heading: Option<Heading>,
    /// Whose session that is, None where the node has none of this id.
    pub owner: Option<Owner>,
    /// How many bytes the datagram has.
    pub length: usize,
    pub content: Content,
}

/// A message, or why it can't be shown.
#[derive(Drop)]
pub enum Content {
    Open {
        header: ProtocolHeader,
        payload: Vec<u8>,
    },
    /// The message was let in before.
    Again(ProtocolHeader),
    Closed(&'static str),
}
