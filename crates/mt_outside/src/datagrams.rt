//! Intakes and outlets: where datagrams come from, and where they go.

ghost use Rattle.std.specs.Prelude.{◌≡◌, ◌≤◌, ◌++◌, ℕ, List, Option, Some, length, drop, IfOk, IfSome, OnErr, OnOk};
ghost use Rattle.mt_outside.specs.Network.{AreInOrder, IsTimely, bytes_of_first, first_told, given_after, length_told};
ghost use Rattle.mt_outside.specs.Stream.{HasCause};
ghost use Rattle.mt_outside.specs.declared.network.Arrival.{Arrival};
ghost use Rattle.mt_outside.specs.declared.network.Parcel.{Parcel};
ghost use Rattle.mt_outside.specs.declared.datagrams.TheConstants.{DATAGRAM_BYTES};

use crate::network::Peer;
use crate::stream::Failed;

/// The latest time that an intake tells, in ms.
pub const LATEST_NOW: u64 = 281_474_976_710_655;

/// How many bytes a datagram has at most, and so how much room a call of an intake is given at least.
pub const DATAGRAM_BYTES: usize = 1280;

/// What a call of an intake tells. Times are in ms.
#[derive(Clone, Copy, Debug, PartialEq, Eq)]
pub enum Taken {
    /// A datagram came at this time from this peer. So many bytes of it stand at the front of the room.
    Datagram { now: u64, from: Peer, length: usize },
    /// It is so late, and nothing came.
    Quiet { now: u64 },
    /// Nothing will come any more.
    Ended,
}

/// Where datagrams come from.
pub trait Intake {
    /// The arrivals that it still holds, in order, where it can tell.
    ghost held: { Self → Option (List Arrival) };

    /// The latest time that it told, in ms; 0 where it told none.
    ghost clock: { Self → ℕ };

    /// How many calls have failed. Each that fails raises the count by one, up to 2^64 - 1, where it
    /// stays; no other call changes it.
    ghost faults: { Self → ℕ };

    /// Takes what comes next, a datagram with its bytes to the front of `into`. After `Failed` a caller
    /// may call again.
    fn recv(&mut self, into: &mut [u8]) -> Result<Taken, Failed>
        requires room { DATAGRAM_BYTES ≤ length into.old }
        ensures within { IfOk result (λ taken. length_told taken ≤ length into.old) }
        ensures time { IfOk result (λ taken. IsTimely (clock self.old) (clock self.new) taken) }
        ensures still { OnErr result (clock self.new ≡ clock self.old) }

        // Where it can tell what it holds: those arrivals are in order, and the first of them is taken.
        ensures in_order { IfSome (held self.old) (AreInOrder (clock self.old)) }
        ensures told { IfOk result (λ taken. IfSome (held self.old) (λ arrivals.
            taken ≡ first_told arrivals)) }
        ensures filled { OnOk result (IfSome (held self.old) (λ arrivals.
            into.new ≡ bytes_of_first arrivals ++ drop (length (bytes_of_first arrivals)) into.old)) }
        ensures rest { OnOk result (IfSome (held self.old) (λ arrivals.
            held self.new ≡ Some (drop 1 arrivals))) }
        ensures kept { OnErr result (held self.new ≡ held self.old) }
        ensures cause { HasCause (faults self.old) (faults self.new) result };

    /// How many calls have failed, up to 2^64 - 1.
    fn faults(&self) -> u64
        ensures { result ≡ faults self.now };
}

/// Where datagrams go.
pub trait Outlet {
    /// The parcels that it was given, in order, where it can tell.
    ghost given: { Self → Option (List Parcel) };

    /// How many calls have failed. Each that fails raises the count by one, up to 2^64 - 1, where it
    /// stays; no other call changes it.
    ghost faults: { Self → ℕ };

    /// Gives a datagram to a peer. One that failed was not given, and a caller may give it again.
    fn send(&mut self, to: Peer, bytes: &[u8]) -> Result<(), Failed>
        ensures gave { OnOk result (IfSome (given self.old) (λ parcels.
            given self.new ≡ Some (given_after parcels to bytes.now))) }
        ensures kept { OnErr result (given self.new ≡ given self.old) }
        ensures cause { HasCause (faults self.old) (faults self.new) result };

    /// How many calls have failed, up to 2^64 - 1.
    fn faults(&self) -> u64
        ensures { result ≡ faults self.now };
}

/// An intake may be lent: what is taken from the loan is taken from the intake.
impl<I: Intake> Intake for &mut I {
    ghost held = { λ intake. I.held intake.now };

    ghost clock = { λ intake. I.clock intake.now };

    ghost faults = { λ intake. I.faults intake.now };

    fn recv(&mut self, into: &mut [u8]) -> Result<Taken, Failed> {
        (**self).recv(into)
    }

    fn faults(&self) -> u64 {
        (**self).faults()
    }
}

/// An outlet may be lent: what is given to the loan is given to the outlet.
impl<O: Outlet> Outlet for &mut O {
    ghost given = { λ outlet. O.given outlet.now };

    ghost faults = { λ outlet. O.faults outlet.now };

    fn send(&mut self, to: Peer, bytes: &[u8]) -> Result<(), Failed> {
        (**self).send(to, bytes)
    }

    fn faults(&self) -> u64 {
        (**self).faults()
    }
}
