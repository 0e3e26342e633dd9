//! The group key sets of a fabric through whole runs, as they are written: they are made of those that it had at first and of its own
//! commands, whatever others do, and whichever line the disk stops in. The definitions stand in `specs/`, a chapter a file; the function
//! here does nothing, and its contract is the law.
//!
//! - `Sets`: the group key sets of a fabric, as a state has them;
//! - `Changes`: what a command, an action and a line make of them;
//! - `Runs`: what a run makes of them, made of its lines;
//! - `Laws`: the law.
#![tactic(auto)]

mod laws;

pub use laws::key_sets_are_their_fabrics_own;
