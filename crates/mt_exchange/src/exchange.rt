//! An open exchange, and its key.

ghost use Rattle.std.specs.Prelude.{◌≡◌, ◌+◌, ◌*◌, ◌<◌, ◌^◌, ◌==◌, filter, not, if◌then◌else◌};
ghost use Rattle.mt_exchange.specs.Opened.{is_open as is_open_one, nothing, rank as rank_of};
ghost use Rattle.mt_exchange.specs.Receiving.{owed_without as owed_without_it, relieved as relieved_of};

use mt_model::{ExactCopy, Listed, Payloads};
use mt_tlv::Bytes;
use std::alloc::{AllocError, Global};

/// Which exchange of a session.
#[derive(Clone, Copy, Debug, PartialEq, Eq)]
pub struct Key {
    /// The id that its first sender gave it.
    pub exchange: u16,
    /// Whether the node began it, and not the peer.
    pub ours: bool,
}

/// A message that was sent and is not acknowledged.
#[derive(Drop)]
pub struct Owed {
    pub counter: u32,
    /// Its bytes, which are the same each time.
    pub datagram: Bytes,
    /// How often it was sent, 1 to 5, and when last, in ms.
    pub sendings: u8,
    pub last: u64,
}

/// What there is of an exchange.
#[derive(Drop)]
pub struct Exchange {
    pub key: Key,
    /// Whether the answer to a message is still to be given.
    pub unanswered: bool,
    /// The payloads that are still to be sent, in their order.
    pub kept: Payloads,
    /// What was sent and is not acknowledged, in the order of sending.
    pub owed: Listed<Owed>,
    /// Whether the confirmation of a payload is awaited.
    pub confirmation: bool,
    /// Until when the request after a TimedRequest is awaited, in ms.
    pub deadline: Option<u64>,
    /// The subscription that is reported on it.
    pub subscription: Option<u32>,
}

impl ExactCopy for Owed {
    fn copy(&self) -> Result<Owed, AllocError> {
        Ok(Owed {
            counter: self.counter,
            datagram: self.datagram.copy()?,
            sendings: self.sendings,
            last: self.last,
        })
    }
}

impl ExactCopy for Exchange {
    fn copy(&self) -> Result<Exchange, AllocError> {
        Ok(Exchange {
            key: self.key,
            unanswered: self.unanswered,
            kept: self.kept.copy()?,
            owed: self.owed.copy()?,
            confirmation: self.confirmation,
            deadline: self.deadline,
            subscription: self.subscription,
        })
    }
}

impl Key {
    /// Its place among the keys: by the id, and of two with one id the peer's first.
    pub(crate) fn rank(self) -> u32
        ensures { result ≡ rank_of self }
    {
        2 * self.exchange as u32 + self.ours as u32
    }
}

impl Exchange {
    /// An exchange of which there is nothing. It takes no memory.
    pub(crate) fn nothing(alloc: Global, key: Key) -> Exchange
        ensures { result ≡ nothing key }
    {
        Exchange {
            key,
            unanswered: false,
            kept: Payloads::new(alloc),
            owed: Listed::new(alloc),
            confirmation: false,
            deadline: None,
            subscription: None,
        }
    }

    /// Whether anything of it is to be sent, owed or awaited.
    pub(crate) fn is_open(&self) -> bool
        ensures { result ≡ is_open_one self.now }
    {
        self.unanswered
            || !self.kept.is_empty()
            || !self.owed.is_empty()
            || self.confirmation
            || self.deadline.is_some()
    }

    /// Takes an acknowledgement: what has this counter is owed no more. It takes no memory.
    pub(crate) fn relieve(self, counter: Option<u32>) -> Exchange
        ensures { result ≡ relieved_of counter self }
    {
        let mut x = self;
        x.owed = owed_without(counter, x.owed);
        x
    }

    /// It, where it is open, and else one of which there is nothing. It takes no memory.
    pub(crate) fn or_nothing(self, alloc: Global) -> Exchange
        ensures { result ≡ (if is_open_one self then self else nothing self.key) }
    {
        if self.is_open() {
            return self;
        }
        Exchange::nothing(alloc, self.key)
    }
}

// What is owed once a counter is acknowledged.
fn owed_without(counter: Option<u32>, owed: Listed<Owed>) -> Listed<Owed>
    ensures { result ≡ owed_without_it counter owed }
{
    match counter {
        Some(counter) => owed_but(counter, owed),
        None => owed,
    }
}

// What is owed without what has this counter.
fn owed_but(counter: u32, owed: Listed<Owed>) -> Listed<Owed>
    ensures { result ≡ filter (λ o. not (o.counter == counter)) owed }
{
    let mut rest = owed.into_vec();
    rest.retain(|o| o.counter != counter);
    Listed::from_vec(rest)
}
