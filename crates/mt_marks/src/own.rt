//! Whether a fabric's own part is the same in two states, in two of all that the node remembers, and in two talks. They are
//! compared where they lie: nothing here takes memory.
//!
//! - `owned`: what is a fabric's own, and whether two lists have the same of it;
//! - `rows`: whether the stored rows of a fabric are the same;
//! - `node`: whether the own part of two states is the same;
//! - `rest`: deadlines, events, subscriptions and exchanges.

mod node;
mod owned;
mod rest;
mod rows;

pub use node::is_own_same;
pub use rest::{are_deadlines_same, are_events_same, are_exchanges_same, are_subscriptions_same};
