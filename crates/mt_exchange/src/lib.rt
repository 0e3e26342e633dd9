//! The exchanges of a session (Matter Core Specification, section 4.10, Message Exchanges, and section 4.11,
//! Message Reliability Protocol): what a message that was let in is, what is sent for it, what is kept to be
//! sent later, and what is sent again until it is acknowledged.
//!
//! - `exchange`: an open exchange, and its key;
//! - `lists`: what is handed out in lists;
//! - `turn`: what a message is;
//! - `payloads`: what a message of the interaction model says of its exchange;
//! - `ordered`: exchanges in an order, in a slab;
//! - `table`: the open exchanges, by rising key;
//! - `exchanges`: the exchanges of a session;
//! - `receiving`, `sending`, `resending`: its calls;
//! - `telling`: what would be sent, before it is sealed;
//! - `laws`: what is shown of a run, and what that tells.
#![tactic(auto)]

mod exchange;
mod exchanges;
mod laws;
mod lists;
mod ordered;
mod payloads;
mod receiving;
mod resending;
mod sending;
mod table;
mod telling;
mod turn;

pub use exchange::{Exchange, Key, Owed};
pub use exchanges::Exchanges;
pub use laws::{runs_are_retold, shown_runs, shown_tells_the_rest, taken_on_its_exchange};
pub use lists::{Datagrams, EndTime, EndTimes, Ends};
pub use receiving::key_of;
pub use telling::Outgoing;
pub use turn::Turn;
