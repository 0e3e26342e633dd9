//! The node: what it keeps, what it answers, and what an answer leaves behind. An action is planned,
//! which changes nothing and takes all the memory, and then applied, which takes none.
//!
//! - `node`: the node, how it starts, plans and applies;
//! - `outcome`: what comes of an action;
//! - `actors`: who is taken as asking;
//! - `requests`: the table of requests, and which area answers each;
//! - `reads`, `writes`, `commands`: the areas;
//! - `differences`: which attributes differ behind the steps of an answer;
//! - `behind`: the state behind steps that do more than set values;
//! - `between`: what differs between two states;
//! - `effects`: what the steps of an answer make of the state;
//! - `telling`: which events an action tells;
//! - `lasting`: what an action changes of the durable map;
//! - `rooms`: the room for the rows that the steps set;
//! - `sight`: what of the node answers are made of.
#![tactic(auto)]

mod actors;
mod behind;
mod between;
mod commands;
mod differences;
mod effects;
mod lasting;
mod node;
mod outcome;
mod reads;
mod requests;
mod rooms;
mod sight;
mod telling;
mod writes;

pub use mt_machine::{one_leaves, states_are_valid, ticks_let_the_failsafe_expire};
pub use mt_model::{Action, SessionIds};
pub use mt_regained::{
    bytes_to_commit, changes_lead_on, committed_bytes_say_the_change, durable_maps_are_kept,
    maps_are_maps, raised_ceilings_come_first, reopened_nodes_may_start, reopenings_roll_back,
    states_are_regained,
};
pub use node::Node;
pub use outcome::Outcome;
