//! What comes over a network and goes over it: datagrams, with who they come from or go to.

ghost use Rattle.std.specs.Prelude.{◌≡◌, IfOk};

use std::alloc::{AllocError, Global};
use std::marker::Model;

/// The address of a peer. An IPv4 address stands as its mapped IPv6 address.
#[derive(Clone, Copy, Debug, PartialEq, Eq)]
pub struct Peer {
    pub ip: [u8; 16],
    pub port: u16,
}

/// The bytes of a datagram. A contract sees the list of them.
pub struct Packet {
    bytes: Vec<u8>,
}

impl Drop for Packet {
    fn drop(self) {
        let Packet { bytes: _ } = self;
    }
}

impl Model for Packet {
    ghost use Rattle.std.specs.Prelude.{List, ℕ};

    ghost Value = { List ℕ };

    ghost view = { λ packet. packet.bytes.items };
}

impl Packet {
    /// A packet of these bytes.
    pub fn from_slice(alloc: Global, bytes: &[u8]) -> Result<Self, AllocError>
        ensures { IfOk result (λ packet. packet ≡ bytes.now) }
    {
        Ok(Packet {
            bytes: Vec::from_slice(alloc, bytes)?,
        })
    }

    /// The bytes in their order.
    pub fn as_slice(&self) -> &[u8]
        ensures { result.now ≡ self.now }
    {
        self.bytes.as_slice()
    }
}

/// What comes to an intake, with the time in ms.
#[derive(Drop)]
pub enum Arrival {
    /// A datagram of a peer.
    Datagram { now: u64, from: Peer, bytes: Packet },
    /// Nothing: it is so late.
    Quiet { now: u64 },
}

/// A datagram that was given to an outlet, with the peer that it goes to.
#[derive(Drop)]
pub struct Parcel {
    pub to: Peer,
    pub bytes: Packet,
}
