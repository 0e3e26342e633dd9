//! The top calls: what the program does, from the words of the command line to the bytes on its
//! output and its exit status.
//!
//! - `playing`: a node that plays events, and what is sent for each;
//! - `replaying`: a recording, with a configuration in hand;
//! - `comparing`: two recordings, compared by what a fabric sees of them;
//! - `soaking`: a long input made from a number, and the summary of what is sent for it;
//! - `running`: what the words ask for;
//! - `serving`: the words of `serve`, from a disk to the record;
//! - `isolation`: laws of every run: what each fabric is sent of it is its own matter, denials are exact, and so are
//!   comparisons; and what holds of windows and key sets.
#![tactic(auto)]

mod comparing;
mod isolation;
mod playing;
mod replaying;
mod running;
mod serving;
mod soaking;

pub use isolation::{
    comparisons_are_exact, denials_are_exact, key_sets_are_their_own, keys_are_secret,
    runs_are_isolated, windows_are_exact,
};
pub use mt_serving::{Served, Usage, Watcher};
pub use mt_soak::Generator;
pub use mt_words::{BadWords, Files, Serve, files_of, serve_of};
pub use replaying::replay_with;
pub use running::{run, run_watched};
pub use serving::{serve, serve_watched};
