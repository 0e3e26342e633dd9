//! The grammar of states: which maps of durable state are those of a valid state of a node, and what they keep.
//!
//! - `keys`: what a key is of;
//! - `fields`: structures and arrays as durable state has them;
//! - `forms`, `items`: the forms of values and of items that are kept;
//! - `rows`, `entries`, `fabrics`, `networks`, `failsafe`: what stands under the keys;
//! - `kept`: what a map keeps, read key by key;
//! - `facts`: what holds between keys;
//! - `grammar`: whether a map is in the grammar.
#![tactic(auto)]

mod entries;
mod fabrics;
mod facts;
mod failsafe;
mod fields;
mod forms;
mod grammar;
mod items;
mod kept;
mod keys;
mod networks;
mod rows;

pub use facts::facts_hold;
pub use grammar::{States, is_in_grammar};
pub use kept::{KeptRows, MapContents, kept_in};
pub use keys::{Key, key_in};
pub use rows::is_first_at;
