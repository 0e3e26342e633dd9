//! What the node keeps.

ghost use Rattle.std.specs.Prelude.{◌≡◌, IfOk};

use crate::listed::{ExactCopy, Listed, copy_of};
use crate::rows::place::Place;
use crate::rows::stored::StoredRows;
use crate::tables::access::{AclEntries, Auth};
use crate::tables::fabric::Fabrics;
use crate::tables::network::{Armed, Networks, Roots};
use mt_tlv::Bytes;
use std::alloc::AllocError;

/// The data version of a cluster on an endpoint.
#[derive(Clone, Copy, Debug, PartialEq, Eq)]
pub struct Version {
    pub endpoint: u16,
    pub cluster: u32,
    pub version: u32,
}

impl ExactCopy for Version {
    fn copy(&self) -> Result<Version, AllocError> {
        Ok(*self)
    }
}

/// The data versions, by ascending endpoint and cluster.
pub type Versions = Listed<Version>;

/// When an attribute's value last changed, as the count of the node's changes.
#[derive(Clone, Copy, Debug, PartialEq, Eq)]
pub struct ChangeNumber {
    pub place: Place,
    pub number: u64,
}

impl ExactCopy for ChangeNumber {
    fn copy(&self) -> Result<ChangeNumber, AllocError> {
        Ok(*self)
    }
}

/// The change numbers of attributes, that of the latest change first. Every attribute has one, which is 0 where it has
/// not changed since the start.
pub type ChangeNumbers = Listed<ChangeNumber>;

/// How a session of the present boot stands.
#[derive(Clone, Copy, Debug, PartialEq, Eq)]
pub enum Standing {
    /// No fabric of its identity is in the table yet.
    Waits,
    /// It may be used, by this fabric; 0 over PASE that has no fabric yet.
    Live(u8),
    /// It has ended, for this boot.
    Ended,
}

/// A session of the present boot, as far as the node's answers depend on it.
pub struct NodeSession {
    /// The node's id of the session.
    pub session: u16,
    pub auth: Auth,
    /// The identity of the fabric of a CASE session; no bytes and 0 on PASE.
    pub root_key: Bytes,
    pub fabric_id: u64,
    pub peer_node: u64,
    /// The peer's CATs; 0 stands for none.
    pub cats: [u32; 3],
    pub standing: Standing,
}

impl Drop for NodeSession {
    fn drop(self) {
        let NodeSession {
            session: _,
            auth: _,
            root_key: _,
            fabric_id: _,
            peer_node: _,
            cats: _,
            standing: _,
        } = self;
    }
}

impl ExactCopy for NodeSession {
    fn copy(&self) -> Result<NodeSession, AllocError> {
        Ok(NodeSession {
            session: self.session,
            auth: self.auth,
            root_key: self.root_key.copy()?,
            fabric_id: self.fabric_id,
            peer_node: self.peer_node,
            cats: self.cats,
            standing: self.standing,
        })
    }
}

/// The sessions of the present boot.
pub type NodeSessions = Listed<NodeSession>;

/// What the node keeps, as plain data.
pub struct NodeState {
    /// The stored attributes.
    pub rows: StoredRows,
    /// The access control list.
    pub entries: AclEntries,
    pub fabrics: Fabrics,
    /// The trusted root certificates, each once.
    pub roots: Roots,
    pub networks: Networks,
    /// The fail-safe, where it is armed.
    pub armed: Option<Armed>,
    pub versions: Versions,
    pub changes: ChangeNumbers,
    /// How many actions have changed an attribute since the start.
    pub changed: u64,
    pub sessions: NodeSessions,
    /// The fabric of the plain PASE session, 0 where it has none yet; None once it has ended.
    pub plain: Option<u8>,
    /// How often the node was started.
    pub boot: u32,
    /// The time of the latest event, in ms.
    pub clock: u64,
}

impl Drop for NodeState {
    fn drop(self) {
        let NodeState {
            rows: _,
            entries: _,
            fabrics: _,
            roots: _,
            networks: _,
            armed: _,
            versions: _,
            changes: _,
            changed: _,
            sessions: _,
            plain: _,
            boot: _,
            clock: _,
        } = self;
    }
}

impl NodeState {
    // Copies of the access control list, the fabrics, the roots and the networks.
    fn copy_tables(&self) -> Result<(AclEntries, Fabrics, Roots, Networks), AllocError>
        ensures { IfOk result (λ copied. copied ≡ (self.now.entries, self.now.fabrics, self.now.roots, self.now.networks)) }
    {
        Ok((
            self.entries.copy()?,
            self.fabrics.copy()?,
            self.roots.copy()?,
            self.networks.copy()?,
        ))
    }

    // Copies of the versions, the change numbers and the sessions.
    fn copy_versions_and_sessions(
        &self,
    ) -> Result<(Versions, ChangeNumbers, NodeSessions), AllocError>
        ensures { IfOk result (λ copied. copied ≡ (self.now.versions, self.now.changes, self.now.sessions)) }
    {
        Ok((
            self.versions.copy()?,
            self.changes.copy()?,
            self.sessions.copy()?,
        ))
    }
}

impl ExactCopy for NodeState {
    fn copy(&self) -> Result<NodeState, AllocError> {
        let (entries, fabrics, roots, networks) = self.copy_tables()?;
        let (versions, changes, sessions) = self.copy_versions_and_sessions()?;
        Ok(NodeState {
            rows: self.rows.copy()?,
            entries,
            fabrics,
            roots,
            networks,
            armed: copy_of(&self.armed)?,
            versions,
            changes,
            changed: self.changed,
            sessions,
            plain: self.plain,
            boot: self.boot,
            clock: self.clock,
        })
    }
}
