//! What lies outside of the node: where bytes come from and where they go.
//!
//! `stream` has the traits `Source` and `Sink`, `memory` a form of each that keeps its bytes in
//! memory and fails at the calls that a test names, `whole` reads and writes everything. `laws` says
//! how what is read and written adds up, `progress` who watches a long run.
//!
//! `datagrams` has the traits `Intake` and `Outlet`, `memory_network` a form of each that keeps what
//! comes and goes in memory and fails at the calls that a test names, `network` what comes and goes,
//! and `gate` who may hold a worker.
//!
//! `disk` has the trait `Disk`, with what a loss of power may leave of it, `memory_disk` a form that
//! keeps its bytes in memory and stops where it is told to, `stop` where that is, `fate` what becomes
//! of it then, and `replaying` how what was done to it is done again.
#![tactic(auto)]

mod datagrams;
mod disk;
mod failures;
mod fate;
mod gate;
mod laws;
mod memory;
mod memory_disk;
mod memory_network;
mod network;
mod progress;
mod replaying;
mod stop;
mod stream;
mod whole;

pub use datagrams::{DATAGRAM_BYTES, Intake, LATEST_NOW, Outlet, Taken};
pub use disk::Disk;
pub use fate::Fate;
pub use gate::{Gate, NoGate, Point};
pub use laws::{network_limits, stops_are_crashes, writings_add_up};
pub use memory::{MemSink, MemSource};
pub use memory_disk::MemDisk;
pub use memory_network::{MemIntake, MemOutlet, are_in_order};
pub use network::{Arrival, Packet, Parcel, Peer};
pub use progress::{Progress, Unwatched};
pub use stream::{Failed, Sink, Source};
pub use whole::{ReadFault, read_all, write_all};

#[cfg(test)]
mod tests;
