//! The store: durable state on a disk that may stop at any moment, as a map that changes lead on. What was
//! committed is there after any stop.
//!
//! - `map_form`: how images and changes are told and merged, `maps`: those of mt_durable, of all
//!   maps and of those that a rule admits;
//! - `image`: the image of a map, in memory of which there is always enough;
//! - `store`: recovering a map, and committing a change of it.
#![tactic(auto)]

mod image;
mod map_form;
mod maps;
mod store;

pub use image::Image;
pub use map_form::MapForm;
pub use maps::{Maps, MapsOf};
pub use store::{Store, restarts_hold};
