//! The headers of a message: what stands in a datagram before the payload (Matter Core Specification,
//! section 4.4, Message Frame Format). The message header is read in front of the sealed bytes, the
//! protocol header at the front of what was sealed. Headers of unicast sessions are read and written;
//! every other form is refused with its own fault.
//!
//! - `header`: the two headers as data;
//! - `fault`: what keeps bytes from being a header;
//! - `field`: single flags and numbers in their places;
//! - `message`: the message header, read and written;
//! - `protocol`: the protocol header, read and written;
//! - `laws`: what holds of the format whatever the bytes.
#![tactic(auto)]

mod fault;
mod field;
mod header;
mod laws;
mod message;
mod protocol;

pub use fault::FrameFault;
pub use header::{MessageHeader, ProtocolHeader};
pub use laws::{
    first_fault_is_answered, header_is_read, header_is_spelled, no_header_begins_another,
    one_spelling, written_headers_are_read,
};
pub use message::{read_message, write_message};
pub use protocol::{read_protocol, write_protocol};
