//! The node's endpoints, clusters, attributes, commands and events: what stands where, with which
//! privileges and limits. Nothing but `expand`, `all_places` and `first_rows` takes memory.
//!
//! - `meta`: what is known of an attribute, a command or an event;
//! - `rows`: the rows of the table;
//! - `clusters`: the clusters, a module each, with their numbers and rows;
//! - `table`: the table, which looks up the rows by cluster;
//! - `fields`, `targets`: the forms of what is given;
//! - `given`: what stands in the fields of a command;
//! - `finding`: what the table says of a place;
//! - `first`: the rows of a new node;
//! - `expansion`: the places that a path names;
//! - `laws`: what holds of the table as a whole.
#![tactic(auto)]

pub mod clusters;
mod expansion;
mod fields;
mod finding;
mod first;
mod given;
mod laws;
mod meta;
mod rows;
mod table;
mod targets;

pub use expansion::{ExpandFault, all_places, expand, is_global, is_named_by, is_not_global};
pub use fields::{are_items, are_within, has_fields, has_type, is_item, is_within};
pub use finding::{
    Asked, find, find_command, find_data, find_event, is_stored, privilege_asked, takes,
};
pub use first::first_rows;
pub use given::{flag_of, given_number, number_of, octets_of, text_of};
pub use laws::{
    attributes_are_data, endpoints_have_devices, places_are_found, places_ascend,
    sensitive_fields_are_those_of_sight, stored_places_are_those_of_the_model, stored_places_begin,
    writable_attributes_take_something,
};
pub use meta::{CommandMeta, EventMeta, Kind, Meta};
pub use rows::{
    AttributeRow, CommandRow, EventRow, Field, FirstValue, Form, Origin, Sensitive, Takes,
};
pub use table::{
    ACCEPTED_COMMAND_LIST, ATTRIBUTE_LIST, CLUSTER_REVISION, FEATURE_MAP, GENERATED_COMMAND_LIST,
    attributes_of, clusters_of, command_fields, commands_of, endpoints, events_of, extensions_of,
    fields_of, globals, responses_of,
};
pub use targets::target_of;
