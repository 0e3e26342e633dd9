//! The threads of a served node, all together: a receiver, a reporter and one to eight workers, each with a queue and a pass of its own,
//! over one node.
//!
//! - `member`: a worker, before its thread begins and behind it;
//! - `seating`: queues, and a worker for each outlet;
//! - `muster`: whether all threads have begun;
//! - `threads`: all beside each other;
//! - `gathering`: what each has left, taken in again;
//! - `running`: from a node to its book.
#![tactic(auto)]

mod gathering;
mod member;
mod muster;
mod running;
mod seating;
mod threads;

pub use mt_owners::{Usage, Watcher};
pub use mt_served::{crews_make_few_lines, crews_serve};
pub use running::{Ended, run};
pub use seating::{Places, WORKERS, reserve};
