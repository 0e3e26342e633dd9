//! The texts of the node: recordings, of which each line tells an event; and the lines of what is sent.
//! The configuration's text is read by mt_config, whose calls stand here too.
//!
//! - `lines`: lines and their fields;
//! - `field`: what a single field tells;
//! - `subject`: who asks, in a field;
//! - `event`: what a line tells;
//! - `event_text`: the line of an event;
//! - `recording`: a recording read whole, and events as lines;
//! - `sent`: what a line of an output tells;
//! - `output`: messages as lines, and such lines read whole;
//! - `size`: how long a line is;
//! - `writing`: fields as they are written;
//! - `laws`: what holds of recordings whatever the bytes.
#![tactic(auto)]

mod event;
mod event_text;
mod field;
mod laws;
mod lines;
mod output;
mod recording;
mod sent;
mod size;
mod subject;
mod writing;

pub use field::{number, opcode, payload, time};
pub use laws::{
    events_have_a_form, lines_are_single, messages_have_a_form, numbers_have_one_spelling,
    recordings_are_read, written_outputs_are_read, written_recordings_are_read,
};
pub use lines::{cut, cut_line, five_fields, three_fields};
pub use mt_config::{ConfigFault, ConfigField, config};
pub use output::{read_output, write_sent};
pub use recording::{events, write_event};
pub use size::line_size;
pub use writing::{push_head, push_hex, push_number, push_payload};
