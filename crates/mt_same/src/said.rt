//! What is said: subscriptions, exchanges of sessions, and what is sent over one.

use crate::same::Same;
use mt_exchange::{Exchange, Key, Outgoing, Owed};
use mt_frame::ProtocolHeader;
use mt_subs::{Kept, Sub, Subscription};

impl Same for Sub {
    fn is_same(&self, other: &Sub) -> bool {
        self.actor == other.actor
            && self.paths.is_same(&other.paths)
            && self.events.is_same(&other.events)
            && self.filtered == other.filtered
            && self.floor == other.floor
            && self.ceiling == other.ceiling
    }
}

impl Same for Kept {
    fn is_same(&self, other: &Kept) -> bool {
        self.sub.is_same(&other.sub)
            && self.primed == other.primed
            && self.live == other.live
            && self.time == other.time
            && self.change == other.change
            && self.event == other.event
    }
}

impl Same for Subscription {
    fn is_same(&self, other: &Subscription) -> bool {
        self.fabric == other.fabric && self.id == other.id && self.kept.is_same(&other.kept)
    }
}

impl Same for Key {
    fn is_same(&self, other: &Key) -> bool {
        *self == *other
    }
}

impl Same for Owed {
    fn is_same(&self, other: &Owed) -> bool {
        self.counter == other.counter
            && self.datagram.equals(&other.datagram)
            && self.sendings == other.sendings
            && self.last == other.last
    }
}

impl Same for Exchange {
    fn is_same(&self, other: &Exchange) -> bool {
        self.key == other.key
            && self.unanswered == other.unanswered
            && self.kept.is_same(&other.kept)
            && self.owed.is_same(&other.owed)
            && self.confirmation == other.confirmation
            && self.deadline == other.deadline
            && self.subscription == other.subscription
    }
}

impl Same for ProtocolHeader {
    fn is_same(&self, other: &ProtocolHeader) -> bool {
        *self == *other
    }
}

impl Same for Outgoing {
    fn is_same(&self, other: &Outgoing) -> bool {
        self.header.is_same(&other.header)
            && self.deadline == other.deadline
            && self.payload.equals(&other.payload)
    }
}
