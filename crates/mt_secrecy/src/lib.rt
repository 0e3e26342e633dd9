//! That no epoch key of a group key set is ever sent, of whole runs as they are written. The definitions stand in `specs/`, a chapter a
//! file; the function here does nothing, and its contract is the law.
//!
//! - `Alike`: the whole without such keys, and lines and recordings that say the same but for them;
//! - `Sample`: two lines that do;
//! - `Laws`: the law.
#![tactic(auto)]

mod laws;

pub use laws::keys_are_never_sent;
