//! What the commands of the Operational Credentials cluster come to (Matter Core Specification, chapter 11,
//! Operational Credentials Cluster): signing requests, fabrics that are added, updated, labelled and removed,
//! and trusted roots. What each makes of its own stands in the file of its name.
//!
//! - `commands`: what a command comes to;
//! - `csr_request`, `add_noc`, `update_noc`, `update_fabric_label`, `remove_fabric`, `add_trusted_root`: each
//!   command;
//! - `fault`: with which status the node answers about certificates;
//! - `fields`: what stands in the fields of a command;
//! - `finding`: what is looked up in the fabrics and in the fail-safe;
//! - `responses`: the responses;
//! - `laws`: what holds of the steps.
#![tactic(auto)]

mod add_noc;
mod add_trusted_root;
mod commands;
mod csr_request;
mod fault;
mod fields;
mod finding;
mod laws;
mod remove_fabric;
mod responses;
mod update_fabric_label;
mod update_noc;

pub use commands::invoke;
pub use fault::CertificateFault;
pub use laws::{steps_are_moves, steps_are_well_formed, steps_fit};
pub use remove_fabric::leave_event;
