//! The events of the node (Matter Core Specification, section 7.14, Event): rings that keep the latest ones, their
//! numbers, and what a reader is told of them.
//!
//! - `rings`: the rings, one for events that all may see and one for each fabric;
//! - `numbers`: which number the next event has;
//! - `reading`: what a reader asks of events, and what it may see;
//! - `telling`: the events that a reader is told, by rising number;
//! - `laws`: what holds of the rings and of the order of events.
#![tactic(auto)]

mod laws;
mod numbers;
mod reading;
mod rings;
mod telling;

pub use laws::{event_denials_are_exact, events_are_told_in_order, rings_stay_rings};
pub use numbers::Numbers;
pub use rings::Rings;
