//! A subscription, as plain data.

use mt_model::{Actor, ExactCopy, Listed, Paths};
use std::alloc::AllocError;

/// What is subscribed to, and by whom.
#[derive(Drop)]
pub struct Sub {
    pub actor: Actor,
    /// The attributes that are named.
    pub paths: Paths,
    /// The events that are named.
    pub events: Paths,
    /// Whether of fabric-scoped lists the subscriber's own items alone are asked for.
    pub filtered: bool,
    /// The least time between two reports, in seconds.
    pub floor: u16,
    /// The longest time between two reports, in seconds.
    pub ceiling: u16,
}

impl ExactCopy for Sub {
    fn copy(&self) -> Result<Sub, AllocError> {
        Ok(Sub {
            actor: self.actor,
            paths: self.paths.copy()?,
            events: self.events.copy()?,
            filtered: self.filtered,
            floor: self.floor,
            ceiling: self.ceiling,
        })
    }
}

/// A subscription, and what was reported to it last.
#[derive(Drop)]
pub struct Kept {
    pub sub: Sub,
    /// Whether its priming report was ever confirmed.
    pub primed: bool,
    /// Whether its last report was confirmed; false while it is pending.
    pub live: bool,
    /// When the last report was, in ms.
    pub time: u64,
    /// The count of the node's changes at the last report.
    pub change: u64,
    /// The number of the last event that was reported.
    pub event: u64,
}

impl ExactCopy for Kept {
    fn copy(&self) -> Result<Kept, AllocError> {
        Ok(Kept {
            sub: self.sub.copy()?,
            primed: self.primed,
            live: self.live,
            time: self.time,
            change: self.change,
            event: self.event,
        })
    }
}

/// A subscription under its fabric and its id.
#[derive(Drop)]
pub struct Subscription {
    /// Whose it is; 0 for whoever commissions the node and has no fabric.
    pub fabric: u8,
    pub id: u32,
    pub kept: Kept,
}

impl ExactCopy for Subscription {
    fn copy(&self) -> Result<Subscription, AllocError> {
        Ok(Subscription {
            fabric: self.fabric,
            id: self.id,
            kept: self.kept.copy()?,
        })
    }
}

/// Subscriptions, in the order in which they were added.
pub type Subscriptions = Listed<Subscription>;

/// All that a node keeps of subscriptions.
#[derive(Drop)]
pub struct SubState {
    pub subscriptions: Subscriptions,
    /// The next id of each fabric index, whether or not a fabric has it.
    pub next_ids: [u32; 256],
}
