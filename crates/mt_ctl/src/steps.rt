//! The messages of a script: what a controller sends on a session, one after the other.

ghost use Rattle.std.specs.Prelude.{◌↔◌, IsTrue};
ghost use Rattle.mt_ctl.specs.Steps.{AreShort};

use mt_model::Listed;
use mt_tlv::Bytes;

/// The most bytes of a step's payload. Its datagram has 1,232 at most, of which the headers and the tag
/// take 34.
pub const STEP_BYTES: usize = 1198;

/// On which exchange a message is sent, and which message of the node it acknowledges there.
#[derive(Clone, Copy, Debug, PartialEq, Eq)]
pub enum Kind {
    /// A request on a new exchange that the controller begins.
    New,
    /// A message on an exchange that the controller began.
    Ours {
        exchange: u16,
        /// The counter of the message that is acknowledged.
        ack: Option<u32>,
    },
    /// A message on an exchange that the node began.
    Node {
        exchange: u16,
        /// The counter of the message that is acknowledged.
        ack: Option<u32>,
    },
}

/// A message that is sent: one line of a script.
#[derive(Drop)]
pub struct Step {
    /// When, in ms.
    pub ms: u64,
    pub kind: Kind,
    /// The opcode of the interaction model.
    pub opcode: u8,
    pub payload: Bytes,
}

/// The messages of a script, in the order of its lines.
pub type Steps = Listed<Step>;

/// Whether each payload has at most 1,198 bytes, as a script has them.
pub fn are_short(steps: &Steps) -> bool
    ensures { IsTrue result ↔ AreShort steps.now }
{
    steps
        .as_slice()
        .iter()
        .all(|step| step.payload.as_slice().len() <= STEP_BYTES)
}
