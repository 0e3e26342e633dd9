//! The fabrics that share the node (Matter Core Specification, chapter 11, Node Operational Credentials
//! Cluster): their indexes, their credentials and their labels.
//!
//! - `table`: the table and its calls;
//! - `fault`: why a call is refused;
//! - `finding`: what is looked up in the fabrics of the table;
//! - `changing`: what a call changes in it;
//! - `laws`: what holds of the table after each change.
#![tactic(auto)]

mod changing;
mod fault;
mod finding;
mod laws;
mod table;

pub use fault::FabricFault;
pub use finding::{is_identity_used, is_label_of_another, least_unused};
pub use laws::{the_index_is_the_least, valid_tables_stay_valid};
pub use table::FabricTable;
