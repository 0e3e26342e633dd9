//! Which sessions are whose, where a node is served by several workers.
//!
//! - `rows`: the ids of the sessions of a boot, and the rows of each worker;
//! - `laws`: functions that do nothing, and carry the laws.
#![tactic(auto)]

mod laws;
mod rows;

pub use laws::{owners_are_exact, rows_have_begun};
pub use mt_receiver::{ReceiveFault, Received, receive, receive_nothing};
pub use mt_worker::{
    Done, Held, NodePass, SharedNode, Usage, Watcher, reporter, shared_nodes_are_lent, worker,
};
pub use rows::{ids_of, rows_of};
