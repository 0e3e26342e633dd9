//! The session layer by itself: what a worker makes of a datagram, of a resend step and of a report step over a session that is its own, where
//! the node is shared. It hears as if the session were live, has the node do a deed, and says what follows of the answer. Joined with
//! what the node answers, that is exactly a line of the written machine.
//!
//! - `session_talk`: what a worker keeps of a session, and what it does over it;
//! - `hearing`: what is to be done and answered for what was heard;
//! - `answering`: what is to be answered, once the node has done the deed;
//! - `sending`: the datagrams to the peer of a session;
//! - `laws`: what a talk depends on, that deeds and answers are those of the machine, and that so are its lines.
#![tactic(auto)]

mod answering;
mod hearing;
mod laws;
mod sending;
mod session_talk;

pub use answering::{Answering, Content};
pub use laws::{
    begun_talks_serve, datagrams_are_lines, deeds_are_what_is_said, replies_are_answers,
    reports_are_lines, resends_are_lines, sessions_end_for_good, talks_are_told_by_their_run,
    ticks_are_lines,
};
pub use mt_shared::{
    ActFault, Answer, Call, Deed, Held, NodePass, SharedNode, Stamped, Usage, Watcher,
    shared_nodes_are_lent, wholes_are_valid,
};
pub use session_talk::SessionTalk;
