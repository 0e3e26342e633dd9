//! An intake and an outlet in memory, some of whose calls fail: for tests, and for runs that are to be
//! compared.

ghost use Rattle.std.specs.Prelude.{◌≡◌, ◌≤◌, ◌↔◌, ◌∷◌, [], ◌++◌, Some, length, drop, IfOk, OnErr, OnOk, IsErr, IsTrue, Contains};
ghost use Rattle.mt_outside.specs.Network.{AreInOrder, IsTimely, bytes_of, bytes_of_first, first_told, given_after, length_told, time_of, told};
ghost use Rattle.mt_outside.specs.Stream.{HasCause, one_more};
ghost use Rattle.mt_outside.specs.declared.datagrams.TheConstants.{DATAGRAM_BYTES};

use crate::datagrams::{DATAGRAM_BYTES, Intake, LATEST_NOW, Outlet, Taken};
use crate::failures::Failures;
use crate::network::{Arrival, Packet, Parcel, Peer};
use crate::stream::Failed;
use std::alloc::{AllocError, Global};
use std::marker::Model;

/// An intake of arrivals in memory. A contract sees those that it still holds, the latest time that it
/// told, the numbers of the calls that are to fail, and how many calls and faults there were.
pub struct MemIntake {
    arrivals: Vec<Arrival>,
    at: usize,
    clock: u64,
    failures: Failures,
}

impl Drop for MemIntake {
    fn drop(self) {
        let MemIntake {
            arrivals: _,
            at: _,
            clock: _,
            failures: _,
        } = self;
    }
}

impl Model for MemIntake {
    ghost use Rattle.std.specs.Prelude.{◌≤◌, drop, length};
    ghost use Rattle.mt_outside.specs.Network.{AreInOrder};
    ghost use Rattle.mt_outside.specs.MemoryNetwork.{IntakeState};

    ghost Value = { IntakeState };

    ghost view = { λ s. record {
      held = drop s.at s.arrivals.items;
      clock = s.clock;
      fail = s.failures.fail.items;
      calls = s.failures.calls;
      faults = s.failures.faults;
    } };

    ghost invariant = { λ s. (s.at ≤ length s.arrivals.items) × AreInOrder s.clock (drop s.at s.arrivals.items) };
}

impl MemIntake {
    /// An intake of these arrivals, which tells them in order and then that it has ended. Its calls of the
    /// numbers in `fail` fail, counted from 1.
    pub fn new(alloc: Global, held: &[Arrival], fail: &[u64]) -> Result<Self, AllocError>
        requires in_order { AreInOrder 0 held.now }
        ensures held { IfOk result (λ intake. intake.held ≡ held.now) }
        ensures clock { IfOk result (λ intake. intake.clock ≡ 0) }
        ensures fail { IfOk result (λ intake. intake.fail ≡ fail.now) }
        ensures calls { IfOk result (λ intake. intake.calls ≡ 0) }
        ensures faults { IfOk result (λ intake. intake.faults ≡ 0) }
    {
        Ok(MemIntake {
            arrivals: copy_all(alloc, held)?,
            at: 0,
            clock: 0,
            failures: Failures::new(alloc, fail)?,
        })
    }
}

impl Intake for MemIntake {
    ghost held = { λ s. Some s.held };

    ghost clock = { λ s. s.clock };

    ghost faults = { λ s. s.faults };

    fn recv(&mut self, into: &mut [u8]) -> Result<Taken, Failed>
        requires room { DATAGRAM_BYTES ≤ length into.old }
        ensures within { IfOk result (λ taken. length_told taken ≤ length into.old) }
        ensures time { IfOk result (λ taken. IsTimely self.old.clock self.new.clock taken) }
        ensures still { OnErr result (self.new.clock ≡ self.old.clock) }
        ensures in_order { AreInOrder self.old.clock self.old.held }
        ensures told { IfOk result (λ taken. taken ≡ first_told self.old.held) }
        ensures filled { OnOk result (
            into.new ≡ bytes_of_first self.old.held ++ drop (length (bytes_of_first self.old.held)) into.old) }
        ensures rest { OnOk result (self.new.held ≡ drop 1 self.old.held) }
        ensures kept { OnErr result (self.new.held ≡ self.old.held) }
        ensures cause { HasCause self.old.faults self.new.faults result }
        ensures untouched { OnErr result (into.new ≡ into.old) }

        // The calls of the listed numbers fail, and no others.
        ensures listed { IsErr result ↔ Contains self.old.fail self.new.calls }
        ensures calls { self.new.calls ≡ one_more self.old.calls }
        ensures fail { self.new.fail ≡ self.old.fail }
    {
        if self.failures.next_fails() {
            self.failures.count_fault();
            return Err(Failed);
        }
        if self.at == self.arrivals.len() {
            return Ok(Taken::Ended);
        }
        let arrival = &self.arrivals[self.at];
        self.clock = time_of(arrival);
        self.at += 1;
        Ok(tell(arrival, into))
    }

    fn faults(&self) -> u64 {
        self.failures.faults
    }
}

/// Whether an intake in memory may hold these arrivals: none is earlier than the one before it or later than
/// `LATEST_NOW`, and none has more bytes than `DATAGRAM_BYTES`.
pub fn are_in_order(arrivals: &[Arrival]) -> bool
    ensures { IsTrue result ↔ AreInOrder 0 arrivals.now }
{
    let mut clock = 0;
    'arrivals: for arrival in arrivals {
        let now = time_of(arrival);
        if now < clock || now > LATEST_NOW || count_bytes(arrival) > DATAGRAM_BYTES {
            return false;
        }
        clock = now;
    }
    true
}

fn time_of(arrival: &Arrival) -> u64
    ensures { result ≡ time_of arrival.now }
{
    match arrival {
        Arrival::Datagram { now, .. } => *now,
        Arrival::Quiet { now } => *now,
    }
}

fn count_bytes(arrival: &Arrival) -> usize
    ensures { result ≡ length (bytes_of arrival.now) }
{
    match arrival {
        Arrival::Datagram { bytes, .. } => bytes.as_slice().len(),
        Arrival::Quiet { .. } => 0,
    }
}

// What is told of an arrival, whose bytes are put to the front of `into`.
fn tell(arrival: &Arrival, into: &mut [u8]) -> Taken
    requires { length (bytes_of arrival.now) ≤ length into.old }
    ensures told { result ≡ told arrival.now }
    ensures filled { into.new ≡ bytes_of arrival.now ++ drop (length (bytes_of arrival.now)) into.old }
{
    match arrival {
        Arrival::Datagram { now, from, bytes } => {
            let bytes = bytes.as_slice();
            into[..bytes.len()].copy_from_slice(bytes);
            Taken::Datagram {
                now: *now,
                from: *from,
                length: bytes.len(),
            }
        }
        Arrival::Quiet { now } => Taken::Quiet { now: *now },
    }
}

fn copy(alloc: Global, arrival: &Arrival) -> Result<Arrival, AllocError>
    ensures { IfOk result (λ copied. copied ≡ arrival.now) }
{
    match arrival {
        Arrival::Datagram { now, from, bytes } => Ok(Arrival::Datagram {
            now: *now,
            from: *from,
            bytes: Packet::from_slice(alloc, bytes.as_slice())?,
        }),
        Arrival::Quiet { now } => Ok(Arrival::Quiet { now: *now }),
    }
}

fn copy_all(alloc: Global, arrivals: &[Arrival]) -> Result<Vec<Arrival>, AllocError>
    ensures { IfOk result (λ copied. copied.items ≡ arrivals.now) }
{
    let mut copied = Vec::with_capacity(alloc, arrivals.len())?;
    'arrivals: for arrival in arrivals {
        copied.push(copy(alloc, arrival)?)?;
    }
    Ok(copied)
}

/// An outlet that keeps its parcels in memory. A contract sees those that it was given, the numbers of the
/// calls that are to fail, and how many calls and faults there were.
pub struct MemOutlet {
    alloc: Global,
    parcels: Vec<Parcel>,
    failures: Failures,
}

impl Drop for MemOutlet {
    fn drop(self) {
        let MemOutlet {
            alloc: _,
            parcels: _,
            failures: _,
        } = self;
    }
}

impl Model for MemOutlet {
    ghost use Rattle.mt_outside.specs.MemoryNetwork.{OutletState};

    ghost Value = { OutletState };

    ghost view = { λ s. record {
      given = s.parcels.items;
      fail = s.failures.fail.items;
      calls = s.failures.calls;
      faults = s.failures.faults;
    } };
}

impl MemOutlet {
    /// An outlet that was given nothing, whose calls of the numbers in `fail` fail, counted from 1.
    pub fn new(alloc: Global, fail: &[u64]) -> Result<Self, AllocError>
        ensures given { IfOk result (λ outlet. outlet.given ≡ []) }
        ensures fail { IfOk result (λ outlet. outlet.fail ≡ fail.now) }
        ensures calls { IfOk result (λ outlet. outlet.calls ≡ 0) }
        ensures faults { IfOk result (λ outlet. outlet.faults ≡ 0) }
    {
        Ok(MemOutlet {
            alloc,
            parcels: Vec::new(alloc),
            failures: Failures::new(alloc, fail)?,
        })
    }

    /// The parcels that it was given, in order.
    pub fn given(&self) -> &[Parcel]
        ensures { result.now ≡ self.now.given }
    {
        self.parcels.as_slice()
    }
}

impl Outlet for MemOutlet {
    ghost given = { λ s. Some s.given };

    ghost faults = { λ s. s.faults };

    /// A call that is not listed fails too where no memory is left for the parcel.
    fn send(&mut self, to: Peer, bytes: &[u8]) -> Result<(), Failed>
        ensures gave { OnOk result (self.new.given ≡ given_after self.old.given to bytes.now) }
        ensures kept { OnErr result (self.new.given ≡ self.old.given) }
        ensures cause { HasCause self.old.faults self.new.faults result }

        // The calls of the listed numbers fail.
        ensures listed { Contains self.old.fail self.new.calls → IsErr result }
        ensures calls { self.new.calls ≡ one_more self.old.calls }
        ensures fail { self.new.fail ≡ self.old.fail }
    {
        if self.failures.next_fails() || keep(self.alloc, &mut self.parcels, to, bytes).is_err() {
            self.failures.count_fault();
            return Err(Failed);
        }
        Ok(())
    }

    fn faults(&self) -> u64 {
        self.failures.faults
    }
}

// Puts a parcel behind the others.
fn keep(alloc: Global, parcels: &mut Vec<Parcel>, to: Peer, bytes: &[u8]) -> Result<(), AllocError>
    ensures ok { OnOk result (parcels.new.items ≡ given_after parcels.old.items to bytes.now) }
    ensures err { OnErr result (parcels.new.items ≡ parcels.old.items) }
{
    let bytes = Packet::from_slice(alloc, bytes)?;
    parcels.push(Parcel { to, bytes })?;
    Ok(())
}
