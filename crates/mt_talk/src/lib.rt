//! What is said between the node and one peer over a session: the session's datagrams, its exchanges, and from where
//! the peer was last heard.
//!
//! - `talk`: a talk, how it begins and how it is copied;
//! - `hearing`: what a datagram says;
//! - `saying`: what the node says, and says again;
//! - `naming`: which session a datagram names;
//! - `refusing`: what the session would refuse;
//! - `telling`: what the node would say;
//! - `laws`: what is shown of a talk tells the rest.
#![tactic(auto)]

mod hearing;
mod laws;
mod naming;
mod refusing;
mod saying;
mod talk;
mod telling;

pub use hearing::{Heard, Hearing};
pub use laws::{replies_await_their_confirmations, talks_are_retold};
pub use mt_exchange::{
    Datagrams, EndTime, EndTimes, Ends, Exchange, Exchanges, Key, Outgoing, Owed,
};
pub use mt_session::SealFault;
pub use naming::session_named;
pub use talk::Talk;
