//! Laws of what is written, call after call, of what a stop leaves of it, and of the limits of a network.
//! Each is the contract of a function that does nothing.

ghost use Rattle.std.specs.Prelude.{◌≡◌};
ghost use Rattle.mt_outside.specs.Laws.{StreamLaws};
ghost use Rattle.mt_outside.specs.Logs.{StopsAreCrashes};
ghost use Rattle.mt_outside.specs.declared.datagrams.TheConstants.{DATAGRAM_BYTES, LATEST_NOW};

/// What was written in one call and then in another was written in both, and so it is where the second
/// wrote less than it was to.
pub fn writings_add_up()
    ensures { StreamLaws }
{}

/// What a stop leaves of a disk by its log, whatever its fate, a crash at that moment may leave.
pub fn stops_are_crashes()
    ensures { StopsAreCrashes }
{}

/// The latest time that an intake tells, and the most bytes of a datagram.
pub fn network_limits()
    ensures latest_now { LATEST_NOW ≡ 281474976710655 }
    ensures datagram_bytes { DATAGRAM_BYTES ≡ 1280 }
{}
