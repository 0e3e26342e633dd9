//! Why a call is refused.

/// Another fabric than the one that asks has armed the fail-safe. Nothing has changed then.
#[derive(Clone, Copy, Debug, PartialEq, Eq)]
pub struct Busy {
    /// Who has armed it: a fabric, or 0 for whoever commissions the node over PASE.
    pub owner: u8,
}

/// Why the fail-safe was not renewed or completed. Nothing has changed then. The faults are numbered
/// from 1 in this order.
#[derive(Clone, Copy, Debug, PartialEq, Eq)]
pub enum FailsafeFault {
    /// It is not armed.
    NotArmed,
    /// Another fabric than the one that asks has armed it.
    Busy {
        /// Who has armed it: a fabric, or 0 for whoever commissions the node over PASE.
        owner: u8,
    },
    /// The caller does not ask over CASE for the fabric for which commissioning goes on. Whoever asks
    /// over PASE is such a caller.
    Pase,
}
