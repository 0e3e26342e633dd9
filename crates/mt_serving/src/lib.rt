//! Serving a node from its disk to its record: what `serve` does once its words and its configuration are read.
//!
//! - `ending`: why it ends, with the status and the last line of each cause;
//! - `recording`: the record of a book;
//! - `reading`: that it is read again as the lines of the book;
//! - `serving`: from a disk to the record.
#![tactic(auto)]

mod ending;
mod reading;
mod recording;
mod serving;

pub use mt_crew::{Usage, Watcher};
pub use serving::{Served, serve_with};
