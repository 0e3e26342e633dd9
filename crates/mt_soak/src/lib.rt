//! A large valid input for test labs, made from a number, and the summary of a run over it.
//!
//! - `codes`: the status codes of a message, from its bytes;
//! - `turn`: whose turn it is, and what is done on it;
//! - `requests`: what is asked;
//! - `generator`: the events, one after the other;
//! - `tally`: what was sent for them;
//! - `laws`: what holds of all events.
#![tactic(auto)]

mod codes;
mod generator;
mod laws;
mod requests;
mod tally;
mod turn;

pub use codes::{count_codes, items_have_their_codes};
pub use generator::{EVENTS, Generator};
pub use laws::{events_are_played, events_come_one_by_one, times_rise};
pub use tally::Tally;
