//! A node on its journal that plays the lines of a recording, one after the other, through every stop of its disk, and what a
//! looker-on may ask of it.
//!
//! - `journal`: what goes to the journal, and a commit in which the disk stops;
//! - `course`: what becomes of a line;
//! - `playing`: the node with the verdicts by which it plays, how it starts, a step, and how it is reopened;
//! - `looking`: what a looker-on may ask of it;
//! - `remembering`: such a node, and all that is shown of its sessions.
#![tactic(auto)]

mod course;
mod journal;
mod looking;
mod playing;
mod remembering;

pub use course::{ComingStop, Course};
pub use mt_whole::{
    Mark, Part, Unanswered, equal_marks_do_not_differ, equal_marks_have_equal_messages,
    expiries_are_rollbacks, first_difference, parts_come_in_order, reopenings_are_exact,
    replies_are_exact, runs_are_their_messages, wholes_are_valid,
};
pub use playing::{Planned, Playing};
pub use remembering::Remembering;
