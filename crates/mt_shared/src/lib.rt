//! One node with the book of all its calls, to lie under a lock. Each call is a line of a recording and what it does: it is planned, what
//! of it lasts is committed, it is put in place, and it is entered in the book. The book replays to the node, and each answer is the one
//! that the replay gives.
//!
//! - `entry`: what is asked, the entries of the book, what a call answers, and why one is refused;
//! - `room`: when a call is done;
//! - `planning`: what a deed is answered, what comes of it, and the sessions that end with it;
//! - `committing`: what of it lasts goes to the keeper;
//! - `acting`: one deed on a node beside its keeper;
//! - `typing`: that the parts of an event are within their types;
//! - `held`: the node beside its keeper and its book;
//! - `crossing`: that it may go to another thread;
//! - `usage`: how much a node is used, for whoever watches it;
//! - `shared`: the same under a lock.
#![tactic(auto)]

mod acting;
mod committing;
mod crossing;
mod entry;
mod held;
mod planning;
mod room;
mod shared;
mod typing;
mod usage;

pub use crossing::shared_nodes_are_lent;
pub use entry::{ActFault, Answer, Call, Entry, Stamped, Stop};
pub use held::Held;
pub use mt_interactions::{
    Deed, Interactions, asked, dated, deadline_set, durable_maps_are_kept, ends_are_by_time,
    fault_reply, one_leaves, reopened_nodes_may_start, reopenings_roll_back, states_are_regained,
    ticks_let_the_failsafe_expire, wholes_are_valid,
};
pub use mt_keeping::{Store, states_are_reopened, states_may_be_committed};
pub use shared::{NodePass, SharedNode};
pub use typing::events_have_types;
pub use usage::{Usage, Watcher};
