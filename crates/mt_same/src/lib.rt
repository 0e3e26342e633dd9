//! Whether two values are the same: one trait, for the types of which the node's state and what is said over its sessions are
//! made. Values are compared where they lie: nothing here takes memory.
//!
//! - `same`: the trait; lists, options and plain types;
//! - `model`: the types of mt_model;
//! - `event`: the events of a recording;
//! - `said`: subscriptions, exchanges of sessions, and what is sent over one.
#![tactic(auto)]

mod event;
mod model;
mod said;
mod same;

pub use same::{Same, are_items_same};
