//! Subscriptions (Matter Core Specification, section 8.5, Subscribe Interaction): which there are, what
//! each was told last, what is owed to it, and when.
//!
//! - `subscription`: a subscription, as plain data;
//! - `subs`: the subscriptions of a node and their calls;
//! - `fault`: why a subscription is not added;
//! - `finding`: what a call looks up among the subscriptions;
//! - `changing`: what a call changes in one;
//! - `changes`: when each attribute changed last, the newest first;
//! - `ending`: which subscriptions end;
//! - `owing`: what is owed, and whether it is time;
//! - `laws`: what holds of the subscriptions after each call.
#![tactic(auto)]

mod changes;
mod changing;
mod ending;
mod fault;
mod finding;
mod laws;
mod owing;
mod subs;
mod subscription;

pub use changes::Changes;
pub use ending::is_live_as;
pub use fault::SubFault;
pub use laws::{changes_stay_in_order, ids_are_never_used_again, valid_subscriptions_stay_valid};
pub use subs::Subs;
pub use subscription::{Kept, Sub, SubState, Subscription, Subscriptions};
