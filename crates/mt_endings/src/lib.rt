//! How a run of the program ends: its exit statuses, its last lines, what was read and what was written at each.
//! Whoever wants to know what is promised reads `Ends` in `specs/Run.antt`, then `Endings`, `Statuses` and `Moments`, and `EndsAs` in
//! `specs/OnDisk.antt` of a run that may look at a journal; `Parts` and `Laws` are for the crates above.
//!
//! - `fault`: why a run ended, with the status and the last line of each cause;
//! - `reading`: a configuration, a recording and any other text, read to their ends;
//! - `finishing`: the last line;
//! - `laws`: how these make up the end of a run.
#![tactic(auto)]

mod fault;
mod finishing;
mod laws;
mod reading;

pub use fault::Fault;
pub use finishing::{finish, tell_bad_words, tell_memory};
pub use laws::{endings_add_up, endings_on_disk_add_up};
pub use reading::{read_configuration, read_recording, read_text};
