//! What a fabric may know of a run, as data: the public part of a mark, which is an event that the fabric sees, or a line that
//! stops the disk, with what is public to it just before; its own part, which is compared where it lies; what is shown of the
//! sessions; and where two runs first differ in these.
//!
//! - `mark`: the public part of a mark, and what it says of a fabric;
//! - `making`: that of an event, made of the node's state and of the events that are remembered;
//! - `difference`: the parts of a mark, and the first in which two marks differ;
//! - `laws`: what equal marks say is equal; where the rows of a valid state stand;
//! - `own`: whether a fabric's own part is the same in two states, in two ledgers and in two talks;
//! - `shown`: what is shown of a session, and what a line adds to what is shown of one;
//! - `told`: all that is shown of the sessions, as it begins, grows and is compared;
//! - `same`: whether two things that are shown are the same;
//! - `differences`: where two runs first differ, as it is written, and its laws.
#![tactic(auto)]

mod difference;
mod differences;
mod laws;
mod making;
mod mark;
mod own;
mod same;
mod shown;
mod told;

pub use difference::{Part, first_difference};
pub use differences::{
    equal_marks_do_not_differ, marked_events_have_the_marks, parts_come_in_order,
};
pub use laws::{equal_marks_say_the_same, marks_are_those_of_runs, rows_stand_at_stored_places};
pub use making::public_mark;
pub use mark::{Descriptor, Descriptors, Mark, Owners, Recent, SeenRows, Unanswered};
pub use own::{
    are_deadlines_same, are_events_same, are_exchanges_same, are_subscriptions_same, is_own_same,
};
pub use shown::{Arrived, Note, Shown, ShownList};
pub use told::ToldTalks;
