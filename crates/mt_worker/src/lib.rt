//! The threads of a node that is served: a worker, who owns sessions and answers what comes over them, and the reporter, who makes
//! time steps. Both take jobs from a queue and act on the shared node.
//!
//! - `fault`: why one of them stopped working, and the status that says so;
//! - `acting`: one call of the shared node, between the two points of a gate;
//! - `seat`: what a worker keeps of a session;
//! - `sitting`: what is heard and said over it;
//! - `sending`: messages to an outlet;
//! - `hand`: a datagram, a resend step and a report step over one session, and a wake over all;
//! - `working`: a worker, from its first job to the end message;
//! - `reporting`: the same of the reporter.
#![tactic(auto)]

mod acting;
mod fault;
mod hand;
mod reporting;
mod seat;
mod sending;
mod sitting;
mod working;

pub use fault::WorkFault;
pub use mt_layer::{
    Held, NodePass, SharedNode, Usage, Watcher, begun_talks_serve, datagrams_are_lines,
    reports_are_lines, resends_are_lines, shared_nodes_are_lent, ticks_are_lines, wholes_are_valid,
};
pub use reporting::reporter;
pub use seat::Subscription;
pub use working::{Done, worker};
