//! What happened on a node, told to people: a line of a recording and what came of it, in words or as an object of
//! JSON; and in words what its journal keeps. Nothing here plays a recording or reads a journal: what came of a line is
//! given, and so is what a journal holds.
//!
//! - `teller`: what is to be told of a line; `datagrams`: what stands in sealed datagrams; `surviving`: what is left of a
//!   fail-safe where the disk stops;
//! - `told`: what is told;
//! - `page`: text that grows;
//! - `fronts`: what stands at the front of a payload; `hearing`, `values`: answers and values, as they are read;
//! - `telling`, `restarts`, `words`, `answers`, `word_values`: lines, stops of the disk, requests, answers and values in words;
//! - `json`, `json_messages`, `json_answers`, `json_values`, `json_objects`: the same as objects of JSON;
//! - `places`: where a payload's first fault stands;
//! - `shapes`: what the fields of a value are called;
//! - `faulty`: a line of a recording that is none, with what is wrong;
//! - `kept`: what a journal keeps.
#![tactic(auto)]

mod answers;
mod datagrams;
mod faulty;
mod fronts;
mod hearing;
mod json;
mod json_answers;
mod json_messages;
mod json_objects;
mod json_values;
mod kept;
mod page;
mod places;
mod restarts;
mod shapes;
mod surviving;
mod teller;
mod telling;
mod told;
mod values;
mod word_values;
mod words;

pub use faulty::show_faulty_line;
pub use json::show_object;
pub use kept::show_kept;
pub use page::Page;
pub use teller::{Came, DiskStop, Line, Teller};
pub use telling::show_words;
pub use told::Told;
