//! The words of a command line: what they ask for, and which of them name files.
//!
//! - `command`: the commands, by their first word, and which words are positional;
//! - `files`: which words name files;
//! - `parse`: the commands as the parser of command lines has them;
//! - `number`: words that are numbers;
//! - `asked`: what the words ask for;
//! - `serve`: what those of `serve` ask for;
//! - `sorting`: the words behind `serve`, gone over;
//! - `laws`: what holds of all words.
#![tactic(auto)]

mod asked;
mod command;
mod files;
mod laws;
mod number;
mod parse;
mod serve;
mod sorting;

pub use asked::{Asked, WordsFault, asked_of};
pub use files::{BadWords, Files, files_of};
pub use laws::{
    numbers_are_as_they_are_written, words_that_ask_name_files, words_that_serve_name_files,
};
pub use number::{MOST_COUNT, MOST_DATAGRAMS, MOST_WORKERS};
pub use serve::{Serve, serve_of};
