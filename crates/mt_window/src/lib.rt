//! Which message counters of a peer are new (Matter Core Specification, section 4.5, Message
//! Counters): duplicates are found over all counters that were ever accepted, in one number and one
//! word of bits. Counters of a session do not roll over.
//!
//! - `window`: the window, and what it answers of a counter;
//! - `laws`: what holds of those answers whatever the counters.
#![tactic(auto)]

mod laws;
mod window;

pub use laws::{accepted_is_not_fresh, fresh_is_new_within_reach, none_is_accepted_twice};
pub use window::{Seen, WINDOW_SIZE, Window};

#[cfg(test)]
mod tests;
