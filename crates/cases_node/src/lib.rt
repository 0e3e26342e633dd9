//! A node for programs that play calls of it: in its first boot, beside a keeper in memory; alone with its book; and calls that
//! are told as lines of a recording.
//!
//! - `start`: a node in its first boot, beside a keeper that has its map;
//! - `bench`: the same with its book;
//! - `lines`: a call as a line;
//! - `crossing`: that a keeper in memory may go to another thread.
#![tactic(auto)]

mod bench;
mod crossing;
mod lines;
mod start;

pub use bench::Bench;
pub use crossing::keepers_cross;
pub use lines::call_of;
pub use start::{Begun, begin};
