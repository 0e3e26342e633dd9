//! The types of mt_model.

use crate::same::Same;
use mt_model::{
    AclEntry, Actor, Armed, ChangeNumber, Credentials, Fabric, Happened, Index, Network,
    NodeSession, Path, Payload, PlainDeadline, Row, SessionRow, Target, Version,
};

impl Same for Row {
    fn is_same(&self, other: &Row) -> bool {
        self.place == other.place && self.fabric == other.fabric && self.value.equals(&other.value)
    }
}

impl Same for AclEntry {
    fn is_same(&self, other: &AclEntry) -> bool {
        self.equals(other)
    }
}

impl Same for Target {
    fn is_same(&self, other: &Target) -> bool {
        *self == *other
    }
}

impl Same for Actor {
    fn is_same(&self, other: &Actor) -> bool {
        *self == *other
    }
}

impl Same for Fabric {
    fn is_same(&self, other: &Fabric) -> bool {
        self.index == other.index
            && self.credentials.is_same(&other.credentials)
            && self.vendor == other.vendor
            && self.label.equals(&other.label)
    }
}

impl Same for Credentials {
    fn is_same(&self, other: &Credentials) -> bool {
        self.root.equals(&other.root)
            && self.root_key.equals(&other.root_key)
            && self.fabric_id == other.fabric_id
            && self.node_id == other.node_id
            && self.noc.equals(&other.noc)
            && self.icac.equals(&other.icac)
            && self.ipk.equals(&other.ipk)
    }
}

impl Same for Network {
    fn is_same(&self, other: &Network) -> bool {
        self.id.equals(&other.id)
            && self.secret.equals(&other.secret)
            && self.connected == other.connected
    }
}

impl Same for Armed {
    fn is_same(&self, other: &Armed) -> bool {
        self.owner == other.owner
            && self.context == other.context
            && self.until == other.until
            && self.limit == other.limit
            && self.added == other.added
            && self.updated == other.updated
            && self.root.is_same(&other.root)
            && self.csr.is_same(&other.csr)
            && self.saved_credentials.is_same(&other.saved_credentials)
            && self.saved_networks.is_same(&other.saved_networks)
    }
}

impl Same for Version {
    fn is_same(&self, other: &Version) -> bool {
        *self == *other
    }
}

impl Same for ChangeNumber {
    fn is_same(&self, other: &ChangeNumber) -> bool {
        *self == *other
    }
}

impl Same for Happened {
    fn is_same(&self, other: &Happened) -> bool {
        self.number == other.number
            && self.place == other.place
            && self.priority == other.priority
            && self.at == other.at
            && self.fabric == other.fabric
            && self.value.equals(&other.value)
    }
}

impl Same for Index {
    fn is_same(&self, other: &Index) -> bool {
        match (self, other) {
            (Index::Whole, Index::Whole) => true,
            (Index::Append, Index::Append) => true,
            (Index::At(mine), Index::At(theirs)) => *mine == *theirs,
            _ => false,
        }
    }
}

impl Same for Path {
    fn is_same(&self, other: &Path) -> bool {
        self.endpoint == other.endpoint
            && self.cluster == other.cluster
            && self.leaf == other.leaf
            && self.index.is_same(&other.index)
    }
}

impl Same for Payload {
    fn is_same(&self, other: &Payload) -> bool {
        self.opcode == other.opcode
            && self.bytes.equals(&other.bytes)
            && self.deadline == other.deadline
    }
}

impl Same for NodeSession {
    fn is_same(&self, other: &NodeSession) -> bool {
        self.session == other.session
            && self.auth == other.auth
            && self.root_key.equals(&other.root_key)
            && self.fabric_id == other.fabric_id
            && self.peer_node == other.peer_node
            && self.cats == other.cats
            && self.standing == other.standing
    }
}

impl Same for SessionRow {
    fn is_same(&self, other: &SessionRow) -> bool {
        self.session == other.session
            && self.peer_session == other.peer_session
            && self.boot == other.boot
            && self.auth == other.auth
            && self.root_key.equals(&other.root_key)
            && self.fabric_id == other.fabric_id
            && self.own_node == other.own_node
            && self.peer_node == other.peer_node
            && self.cats == other.cats
            && self.key_in == other.key_in
            && self.key_out == other.key_out
            && self.counter_in == other.counter_in
            && self.counter_out == other.counter_out
    }
}

impl Same for PlainDeadline {
    fn is_same(&self, other: &PlainDeadline) -> bool {
        *self == *other
    }
}
