//! Who may do what, and what the node is given: actors and access control entries, fabrics, networks and
//! the fail-safe.

pub(crate) mod access;
pub(crate) mod fabric;
pub(crate) mod key_set;
pub(crate) mod network;
