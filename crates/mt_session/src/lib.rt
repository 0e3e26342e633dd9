//! A secured session (Matter Core Specification, section 4.7, Message Security): it opens the sealed
//! datagrams of its peer, each once, and seals the messages to it.
//!
//! - `kept`: what a session keeps;
//! - `session`: how it begins, and its messages in and out;
//! - `opening`: what a datagram brings, or why it is dropped;
//! - `fault`: why a message is not sealed;
//! - `datagram`: the parts of a datagram;
//! - `laws`: what holds of a session and its mirror.
#![tactic(auto)]

mod datagram;
mod fault;
mod kept;
mod laws;
mod opening;
mod session;

pub use fault::SealFault;
pub use kept::Session;
pub use laws::{datagram_has_its_length, mirror_opens_what_is_sealed, opened_is_what_is_sealed};
pub use opening::{Dropped, Opened};
