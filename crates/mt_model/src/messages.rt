//! Requests, replies and their parts, sizes on the way out, statuses.

pub(crate) mod message;
pub mod opcode;
pub(crate) mod size;
pub(crate) mod status;
