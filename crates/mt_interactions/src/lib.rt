//! The node, and around it what belongs to plain actors, who have no session. A line is planned, which changes nothing
//! and takes all the memory, and then applied, which takes none. What is asked over a session is planned here too.
//!
//! - `interactions`: the node with its plain actors, how it starts, plans and applies;
//! - `starting`: what it commits first;
//! - `outcome`: what comes of a line;
//! - `lines`: a line of a plain actor, from its payload to what is sent;
//! - `sessions`: what is asked over a session;
//! - `deeds`: what is asked of it by session, as data that a book can keep;
//! - `ticks`: a time step;
//! - `history`: what the node remembers of events;
//! - `reporting`: the events among what is replied;
//! - `wishes`: what a request subscribes to;
//! - `subscribing`: what a subscription is answered;
//! - `reports`: what a report step tells;
//! - `telling`: the attributes and events that a subscriber is told;
//! - `behind`: what is made of the subscriptions;
//! - `deadlines`: until when the next requests of plain actors must come;
//! - `sending`: the messages of a reply;
//! - `seeing`: what it is, lent to whoever compares;
//! - `laws`: what holds of what is committed, of which subscriptions end, and of what is replied.
#![tactic(auto)]

mod behind;
mod deadlines;
mod deeds;
mod history;
mod interactions;
mod laws;
mod lines;
mod outcome;
mod reporting;
mod reports;
mod seeing;
mod sending;
mod sessions;
mod starting;
mod subscribing;
mod telling;
mod ticks;
mod wishes;

pub use deeds::{Deed, PlannedDeed};
pub use history::starts_may_record;
pub use interactions::{Interactions, asked};
pub use laws::{commits_lead_on, ends_are_by_time, nobody_is_replied};
pub use lines::fault_reply;
pub use mt_node::{
    durable_maps_are_kept, maps_are_maps, one_leaves, raised_ceilings_come_first,
    reopened_nodes_may_start, reopenings_roll_back, states_are_regained, states_are_valid,
    ticks_let_the_failsafe_expire,
};
pub use mt_runs::{
    equal_marks_have_equal_messages, expiries_are_rollbacks,
    lines_make_calls_where_what_lasts_changes, reopenings_are_exact, replies_are_exact,
    runs_are_their_messages, stops_leave_all, wholes_are_valid,
};
pub use outcome::InteractionOutcome;
pub use sessions::{dated, deadline_set};
