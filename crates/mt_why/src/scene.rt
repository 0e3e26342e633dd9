//! A line of a recording, the node as it begins, and what it was answered.

use mt_model::{Event, NodeState, Request};
use mt_subs::Subs;

/// A line, the node as it begins, and what it was answered.
#[derive(Clone, Copy)]
pub struct Scene<'a> {
    pub event: &'a Event,
    /// When it is, in ms.
    pub ms: u64,
    /// The node, and the subscriptions, as the line begins.
    pub state: &'a NodeState,
    pub subs: &'a Subs,
    /// What is asked in the line, plainly or over a session; None where nothing is, or what is asked is malformed.
    pub request: Option<&'a Request>,
    /// Whether the session of a datagram let it in as a new message.
    pub is_let_in: bool,
    /// Whether anything was sent for the line.
    pub is_answered: bool,
    /// How often each status code is in what was sent.
    pub codes: &'a [u64; 256],
}
