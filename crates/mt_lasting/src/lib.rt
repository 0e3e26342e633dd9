//! What lasts of a node's state over a loss of power: its durable map, and what changes of that from one state to the next.
//!
//! - `keys`: the keys that a state may have, and their bytes;
//! - `values`: what is under each, `arrays`, `structures`: of what it is made;
//! - `contents`: the map;
//! - `changes`: what changes of it, `steps`: by steps that set values, `bytes`: as the bytes that are committed;
//! - `equal`: which parts of states are told to be equal;
//! - `laws`: what holds of maps and changes.
#![tactic(auto)]

mod arrays;
mod bytes;
mod changes;
mod contents;
mod equal;
mod keys;
mod laws;
mod steps;
mod structures;
mod values;

pub use bytes::bytes_to_commit;
pub use changes::change_to;
pub use contents::durable_of;
pub use laws::{
    changes_lead_on, committed_bytes_say_the_change, keys_are_read, maps_and_changes_are_elements,
    maps_and_changes_are_short, maps_are_maps, maps_are_read_back, only_what_lasts_changes,
    places_are_those_kept, raised_ceilings_come_first, same_values_are_equal,
};
pub use steps::change_by_steps;
