//! Why a line was sent nothing, and why it was refused something: the causes, told of the node as the line begins, and the
//! same in words. Nothing here plays a line: what came of it is given.
//!
//! - `scene`: a line, the node as it begins, and what it was answered;
//! - `cause`: the causes;
//! - `silences`: why nothing was sent;
//! - `actors`: who is taken as asking;
//! - `refusals`: why what is wanted of a place is refused;
//! - `explaining`: the causes of a line;
//! - `telling`: causes in words.
#![tactic(auto)]

mod actors;
mod cause;
mod explaining;
mod refusals;
mod scene;
mod silences;
mod telling;

pub use actors::asking;
pub use cause::Cause;
pub use explaining::explain;
pub use refusals::{Wish, refusal};
pub use scene::Scene;
pub use silences::silence;
pub use telling::told;
