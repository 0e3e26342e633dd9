//! The configuration with which a node is started.

ghost use Rattle.std.specs.Prelude.{◌≡◌, IsTrue};
ghost use Rattle.mt_model.specs.texts.Config.{are_fabrics, are_entries, are_sessions, are_roots, are_csrs, are_joins, are_network_ids};

use crate::listed::{ExactCopy, Listed};
use crate::tables::access::{AclEntries, Auth};
use crate::tables::fabric::Fabrics;
use mt_tlv::Bytes;
use std::alloc::AllocError;

/// A session whose keys were agreed on outside.
#[derive(Drop)]
pub struct SessionRow {
    /// The node's id of the session, and the peer's.
    pub session: u16,
    pub peer_session: u16,
    /// The boot in which the session may be used.
    pub boot: u32,
    pub auth: Auth,
    /// The identity of the fabric of a CASE session; no bytes and 0 on PASE.
    pub root_key: Bytes,
    pub fabric_id: u64,
    pub own_node: u64,
    pub peer_node: u64,
    /// The peer's CATs; 0 stands for none.
    pub cats: [u32; 3],
    pub key_in: [u8; 16],
    pub key_out: [u8; 16],
    /// The counter from which the peer's messages are taken, and the first of the node's own.
    pub counter_in: u32,
    pub counter_out: u32,
}

impl ExactCopy for SessionRow {
    fn copy(&self) -> Result<SessionRow, AllocError> {
        Ok(SessionRow {
            session: self.session,
            peer_session: self.peer_session,
            boot: self.boot,
            auth: self.auth,
            root_key: self.root_key.copy()?,
            fabric_id: self.fabric_id,
            own_node: self.own_node,
            peer_node: self.peer_node,
            cats: self.cats,
            key_in: self.key_in,
            key_out: self.key_out,
            counter_in: self.counter_in,
            counter_out: self.counter_out,
        })
    }
}

/// The verdict on a root certificate that is good: its public key.
pub struct RootRow {
    pub cert: Bytes,
    pub key: Bytes,
}

impl Drop for RootRow {
    fn drop(self) {
        let RootRow { cert: _, key: _ } = self;
    }
}

impl ExactCopy for RootRow {
    fn copy(&self) -> Result<RootRow, AllocError> {
        Ok(RootRow {
            cert: self.cert.copy()?,
            key: self.key.copy()?,
        })
    }
}

/// The answer to a request for a certificate signing request with this nonce.
pub struct CsrRow {
    pub nonce: Bytes,
    pub elements: Bytes,
    pub signature: Bytes,
}

impl Drop for CsrRow {
    fn drop(self) {
        let CsrRow {
            nonce: _,
            elements: _,
            signature: _,
        } = self;
    }
}

impl ExactCopy for CsrRow {
    fn copy(&self) -> Result<CsrRow, AllocError> {
        Ok(CsrRow {
            nonce: self.nonce.copy()?,
            elements: self.elements.copy()?,
            signature: self.signature.copy()?,
        })
    }
}

/// The verdict on a chain of certificates that is good: to which signing request it belongs, and
/// whom it makes the node.
pub struct JoinRow {
    pub root: Bytes,
    pub noc: Bytes,
    /// No bytes where there is no intermediate certificate.
    pub icac: Bytes,
    pub nonce: Bytes,
    pub fabric_id: u64,
    pub node_id: u64,
}

impl Drop for JoinRow {
    fn drop(self) {
        let JoinRow {
            root: _,
            noc: _,
            icac: _,
            nonce: _,
            fabric_id: _,
            node_id: _,
        } = self;
    }
}

impl ExactCopy for JoinRow {
    fn copy(&self) -> Result<JoinRow, AllocError> {
        Ok(JoinRow {
            root: self.root.copy()?,
            noc: self.noc.copy()?,
            icac: self.icac.copy()?,
            nonce: self.nonce.copy()?,
            fabric_id: self.fabric_id,
            node_id: self.node_id,
        })
    }
}

pub type SessionRows = Listed<SessionRow>;

pub type RootRows = Listed<RootRow>;

pub type CsrRows = Listed<CsrRow>;

pub type JoinRows = Listed<JoinRow>;

/// The ids of Wi-Fi networks.
pub type Ssids = Listed<Bytes>;

/// With what a node is started. It keeps the rules on configurations: whoever makes one has shown
/// them.
pub struct Config {
    /// The fabrics of a new node, and their access control entries.
    pub fabrics: Fabrics,
    pub entries: AclEntries,
    pub sessions: SessionRows,
    /// The verdicts on certificates.
    pub roots: RootRows,
    pub csrs: CsrRows,
    pub joins: JoinRows,
    /// The networks to which the node can connect.
    pub reachable: Ssids,
    pub ghost fabrics_are_valid: { IsTrue (are_fabrics fabrics) },
    pub ghost entries_are_valid: { IsTrue (are_entries fabrics entries) },
    pub ghost sessions_are_valid: { IsTrue (are_sessions sessions) },
    pub ghost roots_are_valid: { IsTrue (are_roots roots) },
    pub ghost csrs_are_valid: { IsTrue (are_csrs csrs) },
    pub ghost joins_are_valid: { IsTrue (are_joins joins) },
    pub ghost reachable_are_valid: { IsTrue (are_network_ids reachable) },
}

impl Drop for Config {
    fn drop(self) {
        let Config {
            fabrics: _,
            entries: _,
            sessions: _,
            roots: _,
            csrs: _,
            joins: _,
            reachable: _,
        } = self;
    }
}

impl ExactCopy for Config {
    fn copy(&self) -> Result<Config, AllocError> {
        Ok(Config {
            fabrics: self.fabrics.copy()?,
            entries: self.entries.copy()?,
            sessions: self.sessions.copy()?,
            roots: self.roots.copy()?,
            csrs: self.csrs.copy()?,
            joins: self.joins.copy()?,
            reachable: self.reachable.copy()?,
        })
    }
}
