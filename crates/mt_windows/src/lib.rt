//! The commissioning window of a node over whole runs, through stops of the disk: when it is open, and when the commands that open and close it
//! are refused. The definitions stand in `specs/`, a chapter a file; the functions here do nothing, and their contracts are the laws.
//!
//! - `Window`: what lines make of the window, told without its rows;
//! - `Refusals`: why commands are refused, and with what;
//! - `Laws`: the laws.
#![tactic(auto)]

mod laws;

pub use laws::{refusals_of_windows_are_exact, windows_are_as_commands_leave_them};
