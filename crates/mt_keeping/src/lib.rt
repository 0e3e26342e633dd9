//! A node's durable state on a disk that may stop at any moment: recovered with its rollback, and committed change by change.
//!
//! - `store`: recovering a state, and committing a change of it;
//! - `rolled`: the map with which a node goes on, before its first commit;
//! - `laws`: what holds of commits, stops, recoveries and states together.
#![tactic(auto)]

mod laws;
mod rolled;
mod store;

pub use laws::{
    journals_are_recovered, kept_maps_take_four_calls, states_are_reopened, states_may_be_committed,
};
pub use store::Store;
