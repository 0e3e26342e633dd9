//! No epoch key of a group key set is ever told, in the machine as it is written. The definitions stand in `specs/`, a chapter a file; the
//! function here does nothing, and its contract is the law.
//!
//! - `Masking`: what a request, a step and a state are once each epoch key is masked;
//! - `Laws`: the law.
#![tactic(auto)]

mod laws;

pub use laws::epoch_keys_are_told_to_nobody;
