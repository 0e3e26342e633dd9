//! Recordings from words: the counterpart of mt_lens. Lines of words say what is asked of a node, by the names of mt_names;
//! what they come to is read again by the node's own decoder and reader before it is given out.
//!
//! - `speaking`: from words to a text;
//! - `reading`: what the lines of a text say; `lines`: a line;
//! - `saying`: what a line says, and the event that it comes to; `payload`: the payload of a request;
//! - `recorded`: the recording that lines come to; `scripted`: the script of a session;
//! - `requests`, `queries`, `paths`, `values`: the parts of a line;
//! - `words`, `numbers`, `names`, `shapes`: words, and what they stand for;
//! - `same`: whether two requests are the same;
//! - `fault`: why words say nothing.
#![tactic(auto)]

mod fault;
mod lines;
mod names;
mod numbers;
mod paths;
mod payload;
mod queries;
mod reading;
mod recorded;
mod requests;
mod same;
mod saying;
mod scripted;
mod shapes;
mod speaking;
mod values;
mod words;

pub use fault::{SayFault, Wanted};
pub use payload::{Unsaid, opcode_of, payload_of};
pub use reading::sayings;
pub use recorded::recording;
pub use saying::{Said, Saying, Sayings, Speaker};
pub use scripted::script;
pub use shapes::{MODES, PRIVILEGES, Shape};
pub use speaking::{say, say_on};
