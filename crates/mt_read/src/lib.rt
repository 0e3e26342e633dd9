//! What a read answers (Matter Core Specification, section 8.4, Read Interaction). Nothing here changes
//! the node.
//!
//! - `answering`: the answer to a request, path by path;
//! - `reader`: a read, and the answer for one place;
//! - `values`: the value of an attribute, as the reader's fabric sees it;
//! - `laws`: when a read is denied.
#![tactic(auto)]

mod answering;
mod laws;
mod reader;
mod values;

pub use answering::{ReadFault, read};
pub use laws::read_denials_are_exact;
