//! Why a subscription is not added.

/// Why a subscription is not added: the first in this order that applies.
#[derive(Clone, Copy, Debug, PartialEq, Eq)]
pub enum SubFault {
    /// The fabric has as many subscriptions as one may have.
    Full = 1,
    /// Memory is refused.
    Memory = 2,
}
