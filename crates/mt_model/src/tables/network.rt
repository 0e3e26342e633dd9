//! The networks that the node knows, and the fail-safe under which commissioning changes things.

ghost use Rattle.std.specs.Prelude.{◌≡◌};

use crate::listed::{ExactCopy, Listed, copy_of};
use crate::tables::fabric::Credentials;
use mt_tlv::Bytes;
use std::alloc::AllocError;

/// A Wi-Fi network that the node was told of.
pub struct Network {
    /// Its SSID.
    pub id: Bytes,
    pub secret: Bytes,
    pub connected: bool,
}

impl Drop for Network {
    fn drop(self) {
        let Network {
            id: _,
            secret: _,
            connected: _,
        } = self;
    }
}

impl ExactCopy for Network {
    fn copy(&self) -> Result<Network, AllocError> {
        Ok(Network {
            id: self.id.copy()?,
            secret: self.secret.copy()?,
            connected: self.connected,
        })
    }
}

/// The networks, in their order.
pub type Networks = Listed<Network>;

/// Byte strings of their own, as root certificates.
pub type Roots = Listed<Bytes>;

/// The armed fail-safe (Matter Core Specification, chapter 11, General Commissioning Cluster): who
/// commissions, until when, and what an expiry puts back.
#[derive(Drop)]
pub struct Armed {
    /// The fabric that armed it, 0 for PASE; after AddNOC over PASE the added fabric.
    pub owner: u8,
    /// The fabric for which commissioning goes on.
    pub context: u8,
    /// When it expires, in ms.
    pub until: u64,
    /// Past which time it can't be renewed, in ms.
    pub limit: u64,
    /// The fabric that was added since.
    pub added: Option<u8>,
    /// The fabric that got new credentials since.
    pub updated: Option<u8>,
    /// The root certificate that was given since.
    pub root: Option<Bytes>,
    /// The nonce of the signing request that was answered since, and whether it was for new
    /// credentials of the context fabric.
    pub csr: Option<(Bytes, bool)>,
    /// The credentials that the updated fabric had.
    pub saved_credentials: Option<Credentials>,
    /// The networks as they stood at arming.
    pub saved_networks: Networks,
}

impl ExactCopy for (Bytes, bool) {
    fn copy(&self) -> Result<(Bytes, bool), AllocError> {
        Ok((self.0.copy()?, self.1))
    }
}

impl ExactCopy for Armed {
    fn copy(&self) -> Result<Armed, AllocError> {
        Ok(Armed {
            owner: self.owner,
            context: self.context,
            until: self.until,
            limit: self.limit,
            added: self.added,
            updated: self.updated,
            root: copy_of(&self.root)?,
            csr: copy_of(&self.csr)?,
            saved_credentials: copy_of(&self.saved_credentials)?,
            saved_networks: self.saved_networks.copy()?,
        })
    }
}
