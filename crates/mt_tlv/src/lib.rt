//! TLV, the tagged values of Matter (Matter Core Specification, Appendix A): the values as data, how
//! they are read in any widths, and their narrow encoding, in which each number, length and tag takes
//! the least width.
//!
//! - `bytes`: a string of bytes that contracts see as a list;
//! - `value`: tags, values and the members of containers, seen as trees with no place in memory;
//! - `fault`: what keeps bytes from being an element;
//! - `tag_set`: the tags of a structure's members;
//! - `reading`: the first element of some bytes;
//! - `outline`: the fields of a structure without what stands inside them;
//! - `cursor`: the parts of an element one after the other, in no memory;
//! - `writing`: an element as bytes;
//! - `laws`: what holds of the format whatever the bytes.
#![tactic(auto)]

mod bytes;
mod cursor;
mod fault;
mod laws;
mod outline;
mod reading;
mod tag_set;
mod value;
mod writing;

pub use bytes::Bytes;
pub use cursor::{Cursor, Part};
pub use fault::TlvFault;
pub use laws::{
    cursor_comes_over_the_element, cursor_ends_or_meets_a_fault, cursor_goes_over_repeated_tags,
    cursor_meets_the_fault, element_is_read, later_bytes_change_nothing, narrow_is_element,
    no_element_begins_another, values_are_trees, written_is_read,
};
pub use outline::read_outlines;
pub use reading::read;
pub use value::{Members, Tag, Value};
pub use writing::{write, write_unsigned};
