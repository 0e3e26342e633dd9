//! Durable state: what outlives a loss of power, as a map from keys to values, and the changes that lead
//! from one map to the next.
//!
//! - `key`: the order of keys;
//! - `durable`: the map, and a change merged into it;
//! - `change`: a change as bytes, `reading`: a change from its bytes;
//! - `image`: a change merged into an image as bytes, in no memory, `difference`: the change from one image to another,
//!   likewise, `length`: how many bytes an element takes;
//! - `keeper`: what keeps the map, `list_keeper`: a form of it in memory, some of whose calls fail, `room`: whether one
//!   has room for a change, `rule`: which maps may stand;
//! - `laws`: what holds of maps and changes, whatever they are.
#![tactic(auto)]

mod change;
mod difference;
mod durable;
mod image;
mod keeper;
mod key;
mod laws;
mod length;
mod list_keeper;
mod reading;
mod room;
mod rule;

pub use change::{write_change, write_image};
pub use difference::write_difference;
pub use durable::{Change, Durable, Entry};
pub use image::{length_after, merge_image};
pub use keeper::Keeper;
pub use key::is_before;
pub use laws::{changes_lead_on, differences_lead_there, maps_have_images};
pub use list_keeper::ListKeeper;
pub use reading::{ChangeFault, bytes_of_a_change_are_read, read_change};
pub use room::{finds_room, has_room, image_has_room};
pub use rule::{Rule, is_admitted};
