//! Requests of the interaction model, decoded (Matter Core Specification, chapter 8, Interaction Model, and
//! chapter 10, Interaction Model Encoding).
//!
//! - `fault`: what keeps bytes from being a request;
//! - `messages`: the kinds of requests, and the fields of each;
//! - `fields`: fields by their tags, and what they hold;
//! - `blocks`: paths, filters, written data and commands;
//! - `arrays`: arrays of blocks;
//! - `decoding`: a request from its bytes;
//! - `laws`: what holds of requests whatever the bytes.
#![tactic(auto)]

mod arrays;
mod blocks;
mod decoding;
mod fault;
mod fields;
mod laws;
mod messages;

pub use decoding::decode;
pub use fault::ImFault;
pub use laws::{
    encoded_is_decoded, no_other_request, request_is_read, request_is_spelled, spelled_fits,
    the_lowest_tag_is_told,
};
