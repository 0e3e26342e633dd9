//! What the commands of General Commissioning and of Network Commissioning come to (Matter Core Specification,
//! chapter 11): the fail-safe, and the networks of the node. It changes nothing; it answers a reply, and the
//! steps that it makes of the node.
//!
//! - `commands`: what a command comes to, by cluster: `general_commissioning`, `network_commissioning`;
//! - `codes`: the errors and statuses with which they answer;
//! - `answers`: what responses and steps are made of;
//! - `laws`: what holds of the steps.
#![tactic(auto)]

mod answers;
mod codes;
mod commands;
mod general_commissioning;
mod laws;
mod network_commissioning;

pub use codes::{CommissioningError, NetworkStatus};
pub use commands::invoke;
pub use laws::{steps_are_sound, steps_stand_first};
pub use network_commissioning::has_id;
