ghost use Rattle.std.specs.Prelude.{IfOk};
ghost use Rattle.mt_outside.specs.Network.{AreInOrder};

use crate::datagrams::{DATAGRAM_BYTES, Intake, Outlet, Taken};
use crate::gate::{Gate, NoGate, Point};
use crate::memory_network::{MemIntake, MemOutlet, are_in_order};
use crate::network::{Arrival, Packet, Peer};
use crate::stream::Failed;
use std::alloc::{AllocError, Global};
use std::test::Fail;

const PEER: Peer = Peer {
    ip: [0, 0, 0, 0, 0, 0, 0, 0, 0, 0, 255, 255, 192, 0, 2, 7],
    port: 5540,
};

// A datagram of three bytes at 5 ms, and nothing by 9 ms.
fn two_arrivals(alloc: Global) -> Result<Vec<Arrival>, AllocError>
    ensures { IfOk result (λ arrivals. AreInOrder 0 arrivals.items) }
{
    let mut arrivals = Vec::with_capacity(alloc, 2)?;
    arrivals.push(Arrival::Datagram {
        now: 5,
        from: PEER,
        bytes: Packet::from_slice(alloc, b"abc")?,
    })?;
    arrivals.push(Arrival::Quiet { now: 9 })?;
    Ok(arrivals)
}

#[test]
fn what_comes_and_goes(rt: HostRuntime) -> Result<(), Fail> {
    let arrivals = two_arrivals(rt.alloc())?;
    assert!(rt; are_in_order(&arrivals));
    let mut intake = MemIntake::new(rt.alloc(), &arrivals, &[])?;
    let mut room = [b'.'; DATAGRAM_BYTES];
    let first = Taken::Datagram {
        now: 5,
        from: PEER,
        length: 3,
    };
    assert_eq!(rt; intake.recv(&mut room), Ok(first));
    assert_eq!(rt; &room[..5], b"abc..".as_slice());
    assert_eq!(rt; intake.recv(&mut room), Ok(Taken::Quiet { now: 9 }));
    assert_eq!(rt; intake.recv(&mut room), Ok(Taken::Ended));
    assert_eq!(rt; intake.faults(), 0);

    let mut outlet = MemOutlet::new(rt.alloc(), &[])?;
    NoGate.pass(1, Point::BeforeAct);
    assert_eq!(rt; outlet.send(PEER, b"yes"), Ok(()));
    NoGate.pass(1, Point::AfterAct);
    assert_eq!(rt; outlet.send(PEER, b""), Ok(()));
    assert_eq!(rt; outlet.faults(), 0);
    assert_eq!(rt; outlet.given().len(), 2);
    let parcel = &outlet.given()[0];
    assert_eq!(rt; parcel.to, PEER);
    assert_eq!(rt; parcel.bytes.as_slice(), b"yes".as_slice());
    Ok(())
}

#[test]
fn calls_that_fail(rt: HostRuntime) -> Result<(), Fail> {
    let mut arrivals = two_arrivals(rt.alloc())?;
    let mut intake = MemIntake::new(rt.alloc(), &arrivals, &[1, 3])?;
    let mut room = [b'.'; DATAGRAM_BYTES];
    assert_eq!(rt; intake.recv(&mut room), Err(Failed));
    assert_eq!(rt; &room[..3], b"...".as_slice());
    assert!(rt; intake.recv(&mut room).is_ok());
    assert_eq!(rt; &room[..3], b"abc".as_slice());
    assert_eq!(rt; intake.recv(&mut room), Err(Failed));
    assert_eq!(rt; intake.recv(&mut room), Ok(Taken::Quiet { now: 9 }));
    assert_eq!(rt; intake.faults(), 2);

    let mut outlet = MemOutlet::new(rt.alloc(), &[2])?;
    assert_eq!(rt; outlet.send(PEER, b"a"), Ok(()));
    assert_eq!(rt; outlet.send(PEER, b"b"), Err(Failed));
    assert_eq!(rt; outlet.send(PEER, b"c"), Ok(()));
    assert_eq!(rt; outlet.faults(), 1);
    assert_eq!(rt; outlet.given().len(), 2);
    assert_eq!(rt; outlet.given()[1].bytes.as_slice(), b"c".as_slice());

    arrivals.push(Arrival::Quiet { now: 8 })?;
    assert!(rt; !are_in_order(&arrivals));
    Ok(())
}
