//! A ticket lock whose calls stand in one history. Under the lock lies a value that keeps a book, a list
//! of entries. Threads take turns with the value, in the order in which they drew their tickets, and each
//! turn adds one entry at most. What a thread knows of the book lies in its pass, which takes no bytes.
//!
//! - `booked`: which book a value keeps;
//! - `pass`: what contracts see of a pass;
//! - `turn`: the lock and its calls;
//! - `laws`: one turn, and two passes that meet, in plain words;
//! - `rule`, `line`: what holds of the lock between any two of its steps, and the steps.
#![tactic(auto)]

mod booked;
mod laws;
mod line;
mod pass;
mod rule;
mod turn;

pub use booked::Booked;
pub use laws::{Answers, answers_are_of_one_history, two_callers_have_one_order};
pub use pass::Pass;
pub use turn::{Turn, locks_are_lent};

#[cfg(test)]
mod tests;
