//! Administrator Commissioning (Matter Core Specification, chapter 11, Administrator Commissioning Cluster): what
//! its commands come to, and what a time step makes of the commissioning window that they open and close. It
//! changes nothing; it answers a reply, and the steps that it makes of the node.
//!
//! - `windows`: the window as its attributes have it, the steps that open and close it, and its end;
//! - `commands`: what a command comes to;
//! - `laws`: what holds of the steps.
#![tactic(auto)]

mod commands;
mod laws;
mod windows;

pub use commands::invoke;
pub use laws::{commands_are_sound, ticks_are_sound};
pub use windows::{Window, WindowFault, tick};
