//! Why a message was not sealed.

ghost use Rattle.std.specs.Prelude.{◌≡◌};
ghost use Rattle.mt_session.specs.declared.fault.SealFault.TheVariants.{Memory};

use std::alloc::AllocError;

/// What keeps a message from being sealed. Nothing of the session has changed then.
#[derive(Clone, Copy, Debug, PartialEq, Eq)]
pub enum SealFault {
    /// The session has no counter left. It is to be replaced by a new one.
    Exhausted = 1,
    /// The datagram would have more than 1,232 bytes.
    TooLong = 2,
    /// No memory was left.
    Memory = 3,
}

impl From<AllocError> for SealFault {
    ghost from_gives = { λ _ e. e ≡ Memory };

    fn from(_error: AllocError) -> SealFault {
        SealFault::Memory
    }
}
