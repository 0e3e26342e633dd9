//! Two recordings, played over one configuration and compared by what a fabric sees of each: its marks, one after the other.
//!
//! - `passing`: what a line makes of a fabric's place in the table, and what it leaves unanswered;
//! - `side`: one of the two runs, which goes on from mark to mark;
//! - `between`: the first part in which two marks differ;
//! - `comparing`: the first mark that differs;
//! - `text`: how that is told.
#![tactic(auto)]

mod between;
mod comparing;
mod passing;
mod side;
mod text;

pub use comparing::{Difference, compare};
pub use mt_play::{
    Playing, equal_marks_do_not_differ, equal_marks_have_equal_messages, expiries_are_rollbacks,
    reopenings_are_exact, replies_are_exact, runs_are_their_messages, wholes_are_valid,
};
pub use side::LineOf;
pub use text::comparison_text;
