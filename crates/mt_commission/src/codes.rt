//! The errors and statuses with which the commands answer, by their numbers in the responses.

ghost use Rattle.std.specs.Prelude.{◌≡◌};
ghost use Rattle.mt_commission.specs.GeneralCommissioning.{number_of_error};
ghost use Rattle.mt_commission.specs.NetworkCommissioning.{number_of_status};

/// How a command of General Commissioning ends (Matter Core Specification, chapter 11, General Commissioning
/// Cluster, CommissioningErrorEnum).
#[derive(Clone, Copy, Debug, PartialEq, Eq)]
pub enum CommissioningError {
    Ok = 0,
    /// A value is not one that the node may have.
    ValueOutsideRange = 1,
    /// Whoever asks does not do so over CASE for the fabric for which commissioning goes on.
    InvalidAuthentication = 2,
    /// The fail-safe is not armed.
    NoFailSafe = 3,
    /// Another fabric has armed the fail-safe.
    BusyWithOtherAdmin = 4,
}

impl CommissioningError {
    /// The number, as it stands in a response.
    pub fn number(self) -> u8
        ensures { result ≡ number_of_error self }
    {
        self as u8
    }
}

/// How a command of Network Commissioning ends (Matter Core Specification, chapter 11, Network Commissioning
/// Cluster, NetworkCommissioningStatusEnum).
#[derive(Clone, Copy, Debug, PartialEq, Eq)]
pub enum NetworkStatus {
    Success = 0,
    /// An id, credentials or an index has not its range.
    OutOfRange = 1,
    /// There is no room for another network.
    BoundsExceeded = 2,
    /// No network has this id.
    NetworkIdNotFound = 3,
    /// The network is not within reach.
    OtherConnectionFailure = 9,
}

impl NetworkStatus {
    /// The number, as it stands in a response and in an attribute.
    pub fn number(self) -> u8
        ensures { result ≡ number_of_status self }
    {
        self as u8
    }
}
