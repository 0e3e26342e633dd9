//! What the commands of Group Key Management come to (Matter Core Specification, chapter 11, Group Key Management
//! Cluster): the group key sets of each fabric. It changes nothing; it answers a reply, and the steps that it
//! makes of the node.
//!
//! - `commands`: what a command comes to;
//! - `sets`: the key sets of a fabric, as they are kept and as they are told;
//! - `laws`: what holds of the steps, and of the ids that are told.
#![tactic(auto)]

mod commands;
mod laws;
mod sets;

pub use commands::invoke;
pub use laws::{sorted_ids_are_those, steps_are_sound};
