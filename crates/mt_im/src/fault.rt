//! Why bytes are no request.

ghost use Rattle.mt_tlv.specs.declared.fault.TlvFault.{TlvFault};
ghost use Rattle.std.specs.Prelude.{◌≡◌};
ghost use Rattle.mt_im.specs.declared.fault.ImFault.TheVariants.{Memory};

use mt_tlv::TlvFault;
use std::alloc::{AllocError, AllocFailed};

/// What keeps bytes from being a request. Of several faults the answer is the first in this order:
/// Opcode, Tlv, Form(255) of an element that is no message, Missing by ascending tag, Form by ascending tag,
/// TooManyPaths.
#[derive(Clone, Copy, Debug, PartialEq, Eq)]
pub enum ImFault {
    /// The bytes do not begin with an element. It never carries `TlvFault::Memory`.
    Tlv(TlvFault),
    /// The message lacks the field of this tag.
    Missing(u8),
    /// The field of this tag is not formed as its table says, or something inside it is not. 255 is also an
    /// element that is no anonymous structure.
    Form(u8),
    /// No request has this opcode.
    Opcode,
    /// More than 16 attribute and event paths together, or more than 16 write items.
    TooManyPaths,
    /// The allocator had no memory left.
    Memory,
}

impl From<AllocError> for ImFault {
    ghost from_gives = { λ _ e. e ≡ Memory };

    fn from(_error: AllocError) -> ImFault {
        ImFault::Memory
    }
}

impl<T: Drop> From<AllocFailed<T>> for ImFault {
    ghost from_gives = { λ _ e. e ≡ Memory };

    fn from(_error: AllocFailed<T>) -> ImFault {
        ImFault::Memory
    }
}
