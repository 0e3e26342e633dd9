//! Why bytes are no element.

ghost use Rattle.std.specs.Prelude.{◌≡◌};
ghost use Rattle.mt_tlv.specs.declared.fault.TlvFault.TheVariants.{Memory};

use std::alloc::{AllocError, AllocFailed};

/// What keeps bytes from being an element. Of several faults, reading answers the first that it
/// meets from the first byte on.
#[derive(Clone, Copy, Debug, PartialEq, Eq)]
pub enum TlvFault {
    /// The control octet, the tag, the length or the value is cut off.
    Short = 1,
    /// A reserved element type, or an end of container that has a tag or ends none.
    Reserved = 2,
    /// A text is not UTF-8.
    NotUtf8 = 3,
    /// More than 16 containers are open inside each other.
    TooDeep = 4,
    /// A structure has the tag already.
    SameTag = 5,
    /// A member of an array has a tag, or one of a structure has none.
    TagForm = 6,
    /// A length, or the outermost element so far with what is announced, is above 65,535 bytes.
    TooLong = 7,
    /// The allocator had no memory left.
    Memory = 8,
}

impl From<AllocError> for TlvFault {
    ghost from_gives = { λ _ e. e ≡ Memory };

    fn from(_error: AllocError) -> TlvFault {
        TlvFault::Memory
    }
}

impl<T: Drop> From<AllocFailed<T>> for TlvFault {
    ghost from_gives = { λ _ e. e ≡ Memory };

    fn from(_error: AllocFailed<T>) -> TlvFault {
        TlvFault::Memory
    }
}
