//! The status codes of a message of the interaction model, from its bytes, in no memory.
//!
//! - `paths`: where the codes of a message stand, by its opcode;
//! - `place`: how far a scan is on such a path;
//! - `counting`: how often each code stands in a message;
//! - `laws`: which codes the items of a report have.

mod counting;
mod laws;
mod paths;
mod place;

pub use counting::count_codes;
pub use laws::items_have_their_codes;
