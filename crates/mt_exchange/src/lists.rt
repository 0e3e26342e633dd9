//! What the exchanges hand out in lists.

use mt_model::Listed;
use mt_tlv::Bytes;

/// Datagrams in the order of sending.
pub type Datagrams = Listed<Bytes>;

/// The subscriptions whose exchanges closed.
pub type Ends = Listed<u32>;

/// When an exchange of a subscription closes.
#[derive(Clone, Copy, Debug, PartialEq, Eq)]
pub struct EndTime {
    pub subscription: u32,
    /// From when on a resend step closes it, in ms.
    pub ms: u64,
}

/// When the exchanges of subscriptions close, by rising key.
pub type EndTimes = Listed<EndTime>;
