//! What a journal keeps, as text: recovered as a node that is reopened would recover it, and told key by key.
//!
//! - `text`: the lines of a map;
//! - `recovering`: recovering a map from a disk that is lent;
//! - `settling`: recovering a journal, and writing its lines.
#![tactic(auto)]

mod recovering;
mod settling;
mod text;

pub use settling::settle_with;
