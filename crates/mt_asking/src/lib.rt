//! A session from a controller's side, from file to file: the recording that a script sends on it, and what a node's output
//! shows of it.
//!
//! - `asking`: the recording of a script;
//! - `showing`: the lines of what an output shows;
//! - `finding`: the session that an id names;
//! - `telling`: what both have in common: a session is found, a text is read, and what it comes to is written;
//! - `laws`: what holds of what is asked and shown, whatever the files hold.
#![tactic(auto)]

mod asking;
mod finding;
mod laws;
mod showing;
mod telling;

pub use laws::{asked_is_opened, shown_is_exact};
pub use telling::{ask_with, show_with};
