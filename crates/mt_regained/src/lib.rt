//! The state that a node regains from its durable map after a loss of power, and the rollback of that map.
//!
//! - `regained`: the state of a map, `kept_rows`: its rows, `bytes`: of what its keys are;
//! - `opening`: the state in which a boot begins, `starting`: that behind the map with which a node goes on;
//! - `rolled`: the map without what was done under a fail-safe that was armed, `reopened`: that with which a node goes on;
//! - `laws`: what holds of them.
#![tactic(auto)]

mod bytes;
mod kept_rows;
mod laws;
mod opening;
mod regained;
mod reopened;
mod rolled;
mod starting;

pub use laws::{
    boots_begin_valid, durable_maps_are_kept, maps_go_on_again, reopened_nodes_may_start,
    reopenings_roll_back, reopenings_see_the_own, rollbacks_are_the_last_word, states_are_regained,
};
pub use mt_lasting::{
    bytes_to_commit, change_by_steps, change_to, changes_lead_on, committed_bytes_say_the_change,
    maps_are_maps, only_what_lasts_changes, raised_ceilings_come_first,
};
pub use mt_steps::make_all;
pub use opening::next_boot;
pub use regained::state_from;
pub use reopened::{new_map, reopened_map};
pub use rolled::rolled_map;
pub use starting::begun;
