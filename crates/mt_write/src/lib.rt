//! What a write answers, and what it changes (Matter Core Specification, section 8.7, Write Interaction).
//! Nothing here changes the node: a change is a list of steps.
//!
//! - `writing`: the answer to a request, item by item;
//! - `entries`: access control entries as they are written;
//! - `opening`: whether an item gets to its attribute;
//! - `values`: the values behind an item;
//! - `latest`: what the steps before an item leave;
//! - `items`: the items of written lists;
//! - `laws`: what a write touches and leaves, and when it is denied.
#![tactic(auto)]

mod entries;
mod items;
mod latest;
mod laws;
mod opening;
mod values;
mod writing;

pub use latest::{latest_entries, latest_row};
pub use laws::{
    nobody_writes_scoped, write_denials_are_exact, writes_keep_forms, writes_touch_their_own,
};
pub use writing::{Change, Written, write};
