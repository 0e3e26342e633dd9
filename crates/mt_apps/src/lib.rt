//! The rows of attributes that are not stored but follow from the other parts of the node's state, and
//! from what never changes (Matter Core Specification, chapters 7, 9 and 11); what the commands of On/Off and
//! Bench come to. What is computed of a cluster, and its commands, stand in the file of its name.
//!
//! - `rows`: the rows of a place;
//! - `shown`: what of them is shown to a fabric;
//! - `globals`: the attributes that every cluster has;
//! - `descriptor`, `access_control`, `basic_information`, `general_commissioning`,
//!   `group_key_management`, `network_commissioning`, `operational_credentials`: those of each cluster's own;
//! - `commands`: what commands come to, by cluster: `on_off`, `bench`;
//! - `events`: the events of the access control list;
//! - `lists`: lists of which each item is a fabric's;
//! - `arrays`: arrays of values;
//! - `laws`: that every place has its rows.
#![tactic(auto)]

mod access_control;
mod arrays;
mod basic_information;
mod bench;
mod commands;
mod descriptor;
mod events;
mod general_commissioning;
mod globals;
mod group_key_management;
mod laws;
mod lists;
mod network_commissioning;
mod on_off;
mod operational_credentials;
mod rows;
mod shown;

pub use access_control::entry_value;
pub use commands::invoke;
pub use events::{entry_events, push_events_between};
pub use laws::places_have_their_rows;
pub use rows::rows_at;
pub use shown::{items_shown, value_shown};
