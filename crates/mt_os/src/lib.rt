//! What the operating system gives: files, readers and writers as what mt_outside asks of them, and a line on a terminal.
//! What they hold no contract can say, so they tell no contents, only their counts of calls and failures.
//!
//! - `adapters`: a source over a reader, and a sink over a writer;
//! - `file_disk`: a disk over a file;
//! - `progress`: how far a long run is, on a terminal;
//! - `udp`: an intake and outlets over a UDP socket.
#![tactic(auto)]

mod adapters;
mod file_disk;
mod progress;
mod udp;

pub use adapters::{ReaderSource, WriterSink};
pub use file_disk::FileDisk;
pub use progress::TerminalProgress;
pub use udp::{UdpIntake, UdpOutlet};

// How often a call is made that signals interrupt, before it counts as failed: so that it ends.
const ATTEMPTS: u32 = 1_000;

#[cfg(test)]
mod tests;
