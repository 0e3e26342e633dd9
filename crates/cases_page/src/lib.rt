//! What programs of cases share: a page, to which a program appends what it tells and which it prints once, and the
//! words of a case.
#![tactic(auto)]

mod page;
mod words;

pub use page::Page;
pub use words::{byte, hex_bytes, hex_number, id, no_case, number, pieces, short, word};
