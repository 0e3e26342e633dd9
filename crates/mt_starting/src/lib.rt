//! A node on its journal, as it starts: recovered, in its next boot, with what that commits first.
//!
//! - `safe`: a store that keeps what a crash leaves of its disk;
//! - `starting`: from a disk to a node that may serve.
#![tactic(auto)]

mod safe;
mod starting;

pub use mt_shared::{Entry, SharedNode, events_have_types};
pub use safe::SafeStore;
pub use starting::{StartFault, Started, start_on};
