//! The rules on what a node is configured with and keeps, as tests: fabrics, entries of access control, sessions and
//! verdicts. Each is exactly its definition in mt_model.
//!
//! - `elements`: the elements of an array, one after the other;
//! - `modes`: the privilege and the mode of an entry that is written or kept;
//! - `fabrics`: fabrics, their credentials and labels;
//! - `entries`: entries of access control, and whose they are;
//! - `sessions`: sessions;
//! - `verdicts`: verdicts on certificates, and networks in reach.
#![tactic(auto)]

mod elements;
mod entries;
mod fabrics;
mod modes;
mod sessions;
mod verdicts;

pub use elements::each;
pub use entries::{are_all_entries, are_all_owned, are_entries, are_few};
pub use fabrics::{
    are_all_fabrics, are_credentials, are_equal, are_fabrics, has_up_to, identities_differ,
    is_certificate, labels_differ,
};
pub use modes::{mode_in, privilege_in};
pub use sessions::are_sessions;
pub use verdicts::{are_csrs, are_joins, are_network_ids, are_roots};
