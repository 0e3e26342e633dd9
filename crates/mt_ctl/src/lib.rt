//! The other end of a session: what a controller sends on it, sealed, and what the node answers, opened.
//!
//! - `steps`: the messages of a script;
//! - `reading`: a script read whole;
//! - `field`: what a single field of it tells;
//! - `mirroring`: the row of the other side of a session;
//! - `asking`: the messages of a script as datagrams;
//! - `showing`: the datagrams of a node, opened;
//! - `text`: what is shown, as lines;
//! - `laws`: what holds of both ends, whatever is said.
#![tactic(auto)]

mod asking;
mod field;
mod laws;
mod mirroring;
mod reading;
mod showing;
mod steps;
mod text;

pub use asking::{AskFault, ask};
pub use laws::{
    asked_events_are_of_a_recording, datagrams_are_sealed_in_turn, first_failing_test_closes,
    items_tell_of_their_datagrams, node_opens_what_is_asked, opened_messages_are_sealed,
    sealed_messages_are_shown, shown_is_what_is_answered,
};
pub use mirroring::mirror;
pub use reading::script;
pub use showing::{Shown, ShownList, show};
pub use steps::{Kind, Step, Steps, are_short};
pub use text::write_shown;
