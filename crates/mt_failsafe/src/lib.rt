//! The fail-safe (Matter Core Specification, chapter 11, General Commissioning Cluster): a timer under
//! which commissioning changes things, and at whose end they are taken back.
//!
//! - `failsafe`: the fail-safe and its calls;
//! - `asking`: what is asked of one as a node keeps it;
//! - `fault`: why a call is refused;
//! - `undo`: what is saved as it is armed, and what an expiry takes back.
#![tactic(auto)]

mod asking;
mod failsafe;
mod fault;
mod undo;

pub use asking::{
    is_armed_by, is_context, is_for_update, is_of_context, is_unused, may_note_added, may_note_csr,
    may_note_root, may_note_updated, was_added,
};
pub use failsafe::Failsafe;
pub use fault::{Busy, FailsafeFault};
pub use undo::{Saved, Undo};
