//! What is asked of the node, the entries of a book, what a call answers, and why one is refused.

use mt_interactions::Deed;
use mt_model::{Event, Reply, SessionIds};

/// What is asked of the node: a line of a recording, and what it does.
#[derive(Drop)]
pub struct Call {
    /// The line. Its time, in ms, is the one that the caller tells; a stop of the disk is no call.
    pub event: Event,
    /// What it does.
    pub deed: Deed,
}

/// One call of the node, as the book has it.
#[derive(Drop)]
pub struct Entry {
    /// What was asked.
    pub call: Call,
    /// The time, in ms, at which it was done: the later of the one that the caller told and that of the entry before.
    pub ms: u64,
    /// Where the commit failed, that. Then nothing was done, and this is the last entry, and no line.
    pub stop: Option<Stop>,
}

/// The end of a book: a commit that failed, after which the node does nothing.
#[derive(Clone, Copy, Drop)]
pub struct Stop {
    /// The place of its entry in the book.
    pub place: u64,
    /// How many faults the keeper counted before the commit.
    pub before: u64,
    /// And how many behind it.
    pub after: u64,
}

/// What a deed is answered.
#[derive(Drop)]
pub struct Answer {
    /// What is replied, before it is cut into payloads and these are dated.
    pub reply: Reply,
    /// The fabric for which the deed's session was live as it began, None where it was not: then nothing is sent over it. A report
    /// has the fabric that it names; an expiry has none.
    pub fabric: Option<u8>,
    /// The sessions that end with it.
    pub closed: SessionIds,
}

/// What a call answers: the place of its entry, the time, in ms, at which the deed was done, and what the deed is answered.
#[derive(Drop)]
pub struct Stamped {
    pub place: u64,
    pub ms: u64,
    pub answer: Answer,
}

/// Why a deed was not done.
#[derive(Drop)]
pub enum ActFault {
    /// A commit has failed, of this call or of one before it. No later call does anything.
    Stopped(Stop),
    /// The record has as many lines as a recording may have, or would have too many bytes with this one: what it has.
    RecordFull { entries: u64, bytes: u64 },
    /// Memory is wanting.
    Memory,
}
