//! The state of a node, and what is done to it.

pub(crate) mod action;
pub(crate) mod state;
