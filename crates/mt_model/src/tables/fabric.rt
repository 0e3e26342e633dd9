//! Fabrics and their credentials.

ghost use Rattle.std.specs.Prelude.{◌≡◌};
ghost use Rattle.mt_model.specs.tables.Leaving.{stays};
ghost use Rattle.mt_model.specs.texts.Config.{has_identity, is_operational};

use crate::limits::LAST_OPERATIONAL_NODE;
use crate::listed::{ExactCopy, Listed};
use mt_tlv::Bytes;
use std::alloc::AllocError;

/// What a fabric's administrator has given the node, so that it is one of the fabric's nodes.
pub struct Credentials {
    /// The root certificate.
    pub root: Bytes,
    /// The root's public key, which with the fabric id names the fabric.
    pub root_key: Bytes,
    pub fabric_id: u64,
    /// The node's own operational id on this fabric.
    pub node_id: u64,
    /// The node's operational certificate.
    pub noc: Bytes,
    /// The intermediate certificate; no bytes where there is none.
    pub icac: Bytes,
    /// The identity protection key.
    pub ipk: Bytes,
}

impl Drop for Credentials {
    fn drop(self) {
        let Credentials {
            root: _,
            root_key: _,
            fabric_id: _,
            node_id: _,
            noc: _,
            icac: _,
            ipk: _,
        } = self;
    }
}

impl ExactCopy for Credentials {
    fn copy(&self) -> Result<Credentials, AllocError> {
        Ok(Credentials {
            root: self.root.copy()?,
            root_key: self.root_key.copy()?,
            fabric_id: self.fabric_id,
            node_id: self.node_id,
            noc: self.noc.copy()?,
            icac: self.icac.copy()?,
            ipk: self.ipk.copy()?,
        })
    }
}

/// A fabric of the node's table.
pub struct Fabric {
    /// Its place in the table, from 1.
    pub index: u8,
    pub credentials: Credentials,
    /// The vendor of the fabric's administrator.
    pub vendor: u16,
    /// What the administrator calls it, in UTF-8.
    pub label: Bytes,
}

impl Drop for Fabric {
    fn drop(self) {
        let Fabric {
            index: _,
            credentials: _,
            vendor: _,
            label: _,
        } = self;
    }
}

impl Fabric {
    /// Whether this is its identity, which names it on every node: the public key of its root, and its id.
    pub fn has_identity(&self, root_key: &[u8], fabric_id: u64) -> bool
        ensures { result ≡ has_identity root_key.now fabric_id self.now }
    {
        self.credentials.root_key.as_slice() == root_key && self.credentials.fabric_id == fabric_id
    }
}

/// Whether a node of a fabric may have this id.
pub fn is_operational(node: u64) -> bool
    ensures { result ≡ is_operational node }
{
    1 <= node && node <= LAST_OPERATIONAL_NODE
}

/// Whether what is of a fabric stays where this one leaves the node; all stays where it is None.
pub fn stays(gone: Option<u8>, fabric: u8) -> bool
    ensures { result ≡ stays gone fabric }
{
    match gone {
        Some(gone) => gone != fabric,
        None => true,
    }
}

impl ExactCopy for Fabric {
    fn copy(&self) -> Result<Fabric, AllocError> {
        Ok(Fabric {
            index: self.index,
            credentials: self.credentials.copy()?,
            vendor: self.vendor,
            label: self.label.copy()?,
        })
    }
}

/// Fabrics, by ascending index.
pub type Fabrics = Listed<Fabric>;
