//! Access control (Matter Core Specification, section 6.6, Access Control): what grants an actor a
//! privilege at a place, and which entries may stand in the access control list. Nothing here takes
//! memory.
//!
//! - `granting`: the grant, by the implicit entry of PASE or by the first entry that grants;
//! - `validity`: the rules on one entry;
//! - `laws`: what holds of grants whatever the entries.
#![tactic(auto)]

mod granting;
mod laws;
mod validity;

pub use granting::{Grant, grants, grants_if_asked};
pub use laws::{later_tags_are_named, own_entries_alone_grant};
pub use validity::{EntryFault, may_be_subject, valid};
