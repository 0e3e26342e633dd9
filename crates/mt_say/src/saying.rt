//! What a line of words says, and the event of a recording that it comes to.

ghost use Rattle.std.specs.Prelude.{◌≡◌, IfOk};
ghost use Rattle.mt_say.specs.Saying.{IsDecoded, event_said};

use crate::fault::{SayFault, Wanted};
use crate::payload::{Unsaid, opcode_of, payload_of};
use mt_im::ImFault;
use mt_model::{Event, ExactCopy, Listed, Request};
use mt_tlv::TlvFault;
use std::alloc::Global;

/// Who asks.
#[derive(Clone, Copy, Debug, PartialEq, Eq)]
pub struct Speaker {
    /// 0 is the plain PASE session.
    pub fabric: u8,
    pub node: u64,
    /// 0 stands for no CAT.
    pub cats: [u32; 3],
}

/// What a line says.
#[derive(Drop)]
pub enum Said {
    /// Somebody asks something.
    Asks {
        /// When, in ms.
        ms: u64,
        by: Speaker,
        request: Request,
    },
    /// Something happens that is no request: time goes on, a subscription may report, bytes come as they are.
    Tells(Event),
}

/// What a line says, and where it does: its number, and the byte in it at which a request begins, both from 1.
#[derive(Drop)]
pub struct Saying {
    pub line: u64,
    pub column: u64,
    pub what: Said,
}

/// What the lines of a text say, in their order. Lines that say nothing are left out.
pub type Sayings = Listed<Saying>;

/// The event that a line says. The payload of a request is read again by the node's decoder before it is given out.
pub(crate) fn event_of(alloc: Global, saying: &Saying) -> Result<Event, SayFault>
    ensures said { IfOk result (λ event. event ≡ event_said saying.now.what) }
    ensures decoded { IfOk result (λ _. IsDecoded saying.now.what) }
{
    match &saying.what {
        Said::Asks { ms, by, request } => match payload_of(alloc, request) {
            Ok(payload) => {
                let cats = by.cats;
                Ok(Event::Ask {
                    ms: *ms,
                    fabric: by.fabric,
                    node: by.node,
                    cats,
                    opcode: opcode_of(request),
                    payload,
                })
            }
            Err(fault) => Err(of_unsaid(fault, saying.line, saying.column)),
        },
        Said::Tells(event) => Ok(event.copy()?),
    }
}

// Why the request of a line has no payload.
fn of_unsaid(fault: Unsaid, line: u64, column: u64) -> SayFault {
    let wanted = match fault {
        Unsaid::Memory => return SayFault::Memory,
        Unsaid::TooLong => "a request of at most 1,280 bytes",
        Unsaid::Refused(ImFault::TooManyPaths) => "at most 16 paths or items",
        Unsaid::Refused(ImFault::Tlv(TlvFault::SameTag)) => {
            "structures that have each field once"
        }
        Unsaid::Refused(ImFault::Tlv(TlvFault::TooDeep)) => {
            "a value with at most 13 structures, arrays and lists inside each other"
        }
        Unsaid::Refused(_) | Unsaid::Another => "a request that a node can read",
    };
    SayFault::Wrong {
        line,
        column,
        wanted: Wanted::Kind(wanted),
    }
}
