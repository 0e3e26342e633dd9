//! An intake and outlets over a UDP socket.

ghost use Rattle.std.specs.Prelude.{◌≡◌, ◌≤◌, None, length};
ghost use Rattle.mt_os.specs.Came.{IsWithin};
ghost use Rattle.mt_outside.specs.declared.datagrams.TheConstants.{LATEST_NOW};

use mt_outside::{DATAGRAM_BYTES, Failed, Intake, LATEST_NOW, Outlet, Peer, Taken};
use std::io::ErrorKind;
use std::net::{IpAddr, Ipv6Addr, SocketAddr, UdpSocket};
use std::time::{Duration, Instant};

// How long is waited for a datagram before it is told how late it is, in ms.
const PATIENCE: u64 = 50;

/// An intake over a UDP socket, whose times are those of the system's monotonic clock, in ms from its beginning on; or one whose socket
/// could not be bound, of which each call fails. A datagram with more bytes than one may have is dropped.
#[derive(Drop)]
pub struct UdpIntake<'a> {
    rt: &'a HostRuntime,
    socket: Option<UdpSocket>,
    begun: Option<Instant>,
    clock: u64,
    faults: u64,
    pub ghost timely: { clock ≤ LATEST_NOW },
}

impl<'a> UdpIntake<'a> {
    /// An intake over this socket, of which no call has failed yet. Where the socket can't be told how long to wait, each call fails.
    pub fn new(rt: &'a HostRuntime, socket: Option<UdpSocket>) -> Self
        ensures clock { result.clock ≡ 0 }
        ensures faults { result.faults ≡ 0 }
    {
        UdpIntake {
            rt,
            socket: socket.and_then(patient),
            begun: Instant::now(rt).ok(),
            clock: 0,
            faults: 0,
        }
    }

    // How late it is, which is never earlier than it was.
    fn now(&self) -> u64
        ensures later { self.now.clock ≤ result }
        ensures bound { result ≤ LATEST_NOW }
    {
        let Some(begun) = self.begun else {
            return self.clock;
        };
        match begun.elapsed(self.rt) {
            Ok(elapsed) => in_ms(elapsed).max(self.clock),
            Err(_) => self.clock,
        }
    }
}

// A duration in ms, at most the latest time.
fn in_ms(elapsed: Duration) -> u64
    ensures { result ≤ LATEST_NOW }
{
    match u64::try_from(elapsed.as_millis()) {
        Ok(ms) => ms.min(LATEST_NOW),
        Err(_) => LATEST_NOW,
    }
}

// The socket, where it waits no longer than it should.
fn patient(socket: UdpSocket) -> Option<UdpSocket> {
    match socket.set_read_timeout(Some(Duration::from_millis(PATIENCE))) {
        Ok(()) => Some(socket),
        Err(_) => None,
    }
}

impl Intake for UdpIntake<'_> {
    ghost held = { λ _. None };

    ghost clock = { λ intake. intake.clock };

    ghost faults = { λ intake. intake.faults };

    fn recv(&mut self, into: &mut [u8]) -> Result<Taken, Failed> {
        // A datagram of more bytes than one may have fills it.
        let mut bytes = [0; DATAGRAM_BYTES + 1];
        let came = self.receive(&mut bytes);
        if let Came::Fault = came {
            self.faults = self.faults.saturating_add(1);
            return Err(Failed);
        }
        self.clock = self.now();
        let now = self.clock;
        match came {
            Came::Datagram { length, from } if length <= DATAGRAM_BYTES => {
                into[..length].copy_from_slice(&bytes[..length]);
                Ok(Taken::Datagram { now, from, length })
            }
            _ => Ok(Taken::Quiet { now }),
        }
    }

    fn faults(&self) -> u64 {
        self.faults
    }
}

// What a call of the socket gave.
#[derive(Drop)]
enum Came {
    Datagram { length: usize, from: Peer },
    Nothing,
    Fault,
}

impl UdpIntake<'_> {
    // What comes within the time that is waited. An error that the system tells of an earlier datagram, or a signal, is nothing.
    fn receive(&self, into: &mut [u8]) -> Came
        ensures { IsWithin (length into.old) result }
    {
        let Some(socket) = &self.socket else {
            return Came::Fault;
        };
        match socket.recv_from(into) {
            Ok((length, from)) => Came::Datagram {
                length,
                from: peer_at(from),
            },
            Err(error) => match error.kind() {
                ErrorKind::WouldBlock
                | ErrorKind::TimedOut
                | ErrorKind::Interrupted
                | ErrorKind::ConnectionRefused
                | ErrorKind::ConnectionReset => Came::Nothing,
                _ => Came::Fault,
            },
        }
    }
}

/// An outlet over a UDP socket; or one with none, of which each call fails. A datagram that the system does not take is lost, as one that is
/// lost on its way: whoever sent it sends it again.
#[derive(Drop)]
pub struct UdpOutlet {
    socket: Option<UdpSocket>,
    faults: u64,
}

impl UdpOutlet {
    /// An outlet over this socket, of which no call has failed yet.
    pub fn new(socket: Option<UdpSocket>) -> Self
        ensures faults { result.faults ≡ 0 }
    {
        UdpOutlet { socket, faults: 0 }
    }
}

impl Outlet for UdpOutlet {
    ghost given = { λ _. None };

    ghost faults = { λ outlet. outlet.faults };

    fn send(&mut self, to: Peer, bytes: &[u8]) -> Result<(), Failed> {
        let Some(socket) = &self.socket else {
            self.faults = self.faults.saturating_add(1);
            return Err(Failed);
        };
        let _ = socket.send_to(bytes, address_of(to));
        Ok(())
    }

    fn faults(&self) -> u64 {
        self.faults
    }
}

// The peer at an address. An IPv4 address stands as its mapped IPv6 address.
fn peer_at(address: SocketAddr) -> Peer {
    let ip = match address.ip() {
        IpAddr::V4(ip) => ip.to_ipv6_mapped(),
        IpAddr::V6(ip) => ip,
    };
    Peer {
        ip: ip.octets(),
        port: address.port(),
    }
}

// The address of a peer.
fn address_of(peer: Peer) -> SocketAddr {
    let ip = Ipv6Addr::from(peer.ip);
    match ip.to_ipv4_mapped() {
        Some(ip) => SocketAddr::new(IpAddr::V4(ip), peer.port),
        None => SocketAddr::new(IpAddr::V6(ip), peer.port),
    }
}
