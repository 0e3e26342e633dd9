//! The names of clusters, attributes, commands, events and fields, and of privileges, statuses and messages
//! (Matter Core Specification, and Matter Application Cluster Specification). Nothing takes memory.
//!
//! - `columns`: a name, and columns of names;
//! - `clusters`: the columns of each cluster;
//! - `table`: the columns, found by cluster;
//! - `looking`: the name of a number;
//! - `words`: the names of privileges, modes, statuses and messages;
//! - `laws`: what holds of the names as a whole.
#![tactic(auto)]

mod clusters;
mod columns;
mod laws;
mod looking;
mod table;
mod words;

pub use columns::Named;
pub use laws::{clusters_have_names, names_differ, statuses_are_told_by_their_codes};
pub use looking::{
    attribute_name, cluster_name, command_name, event_name, name_among, response_name,
};
pub use table::{
    attribute_names, cluster_names, command_field_names, command_names, event_field_names,
    event_names, extension_names, global_names, item_field_names, response_field_names,
    response_names, target_field_names, value_field_names,
};
pub use words::{auth_name, message_name, privilege_name, status_name, status_of};
