//! Why a text is no configuration, and what a node is that has one: the verdict of `config`, with the row, the field and
//! the rule where it is bad, and the fields that nothing reads.
//!
//! - `checking`: the verdict on a text;
//! - `forms`: what a field must be, and whether it is; `tables`: the fields of each row;
//! - `places`: the first place of a list that is wrong; `clashes`: rows that do not go together;
//! - `passing`: fields that are passed over;
//! - `telling`: places and what is passed over, in words; `node`: what the node is.
#![tactic(auto)]

mod checking;
mod clashes;
mod forms;
mod node;
mod passing;
mod places;
mod tables;
mod telling;

pub use checking::{Checked, Fault, Verdict, check};
pub use forms::{Field, Form};
pub use passing::Passed;
pub use places::{Breach, Place};
pub use telling::explain;
