//! Queues by which one thread gives jobs to another. What was taken from a queue is a prefix of what was
//! put into it, in order, and all of it once the end was taken. What an end knows of its queue lies in its
//! pass, which takes no bytes.
//!
//! - `job`: what is given;
//! - `sending`: a new queue, and the end that puts;
//! - `taking`: the end that takes, and the pass that it leaves;
//! - `rule`: what holds of a queue between any two of its steps.
#![tactic(auto)]

mod job;
mod rule;
mod sending;
mod taking;

pub use job::Job;
pub use sending::{JobSender, PLACES, queue};
pub use taking::{Jobs, QueuePass};

#[cfg(test)]
mod tests;
