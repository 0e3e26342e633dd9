//! Whether a command may be carried out (Matter Core Specification, section 8.8, Invoke Interaction): the
//! first status that stands in its way, up to that of an interaction that is not timed, and then whether its
//! fields have the form that the table gives them. What it does stands with its cluster. Nothing here changes
//! the node or takes memory.
//!
//! - `checking`: the first status, and the form;
//! - `laws`: when a command is denied.
#![tactic(auto)]

mod checking;
mod laws;

pub use checking::{check, has_form};
pub use laws::command_denials_are_exact;
