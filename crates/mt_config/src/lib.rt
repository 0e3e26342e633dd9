//! The configuration of a node, read from its text, which is JSON.
//!
//! - `configuration`: a configuration read from its text, and what is wrong with one;
//! - `lists`: its lists;
//! - `rows`: their rows, field by field;
//! - `json`: single values, fields and lists in JSON.
#![tactic(auto)]

mod configuration;
mod json;
mod lists;
mod rows;

pub use configuration::{ConfigFault, ConfigField, config};
