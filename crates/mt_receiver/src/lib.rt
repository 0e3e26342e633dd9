//! The receiver of a served node. It takes what comes to an intake, and gives each thread its jobs: a datagram goes to the worker of
//! the session that its header names, and as soon as a new second has begun all are waked.
//!
//! - `routing`: what one answer of the intake gives to the queues;
//! - `receiving`: all answers, up to the last one, and then the end.
#![tactic(auto)]

mod receiving;
mod routing;

pub use receiving::{ReceiveFault, Received, receive, receive_nothing};
