//! A mark, and what it says of a fabric.

use mt_model::{Armed, ChangeNumbers, Event, Happened, Listed, Networks, Roots, Row, Versions};
use mt_tlv::Bytes;

/// What others may know of a fabric.
#[derive(Drop)]
pub struct Descriptor {
    /// Its place in the table, from 1.
    pub index: u8,
    pub root_key: Bytes,
    /// The vendor of its administrator.
    pub vendor: u16,
    pub fabric_id: u64,
    /// The node's operational id on it.
    pub node_id: u64,
    /// What its administrator calls it, in UTF-8.
    pub label: Bytes,
}

/// The fabrics of the table, by ascending index.
pub type Descriptors = Listed<Descriptor>;

/// Rows as a fabric sees them, in their order.
pub type SeenRows = Listed<Row>;

/// Whose access control entries are, one for each entry.
pub type Owners = Listed<u8>;

/// The latest events that all may see, by rising number.
pub type Recent = Listed<Happened>;

/// An event that a fabric sees, with what is public to the fabric just before it; or the line by which the node was reopened, with what
/// was public just before the event in which the disk stopped.
pub struct Mark {
    pub event: Event,
    /// The rows of nobody, and those of others without their sensitive fields.
    pub rows: SeenRows,
    /// Whose the access control entries of others are.
    pub owners: Owners,
    pub fabrics: Descriptors,
    pub roots: Roots,
    /// The networks, without their secrets.
    pub networks: Networks,
    /// The fail-safe where it is armed, without what an expiry gives back.
    pub failsafe: Option<Armed>,
    pub versions: Versions,
    pub changes: ChangeNumbers,
    pub events: Recent,
    /// The number of the next event.
    pub next: u64,
    pub boot: u32,
    /// The time of the latest event, in ms.
    pub now: u64,
}

impl Drop for Mark {
    fn drop(self) {
        let Mark {
            event: _,
            rows: _,
            owners: _,
            fabrics: _,
            roots: _,
            networks: _,
            failsafe: _,
            versions: _,
            changes: _,
            events: _,
            next: _,
            boot: _,
            now: _,
        } = self;
    }
}

/// An event of a fabric in which the disk stopped, so that it was left unanswered.
#[derive(Drop)]
pub struct Unanswered {
    pub event: Event,
    /// Whether what it changed is there behind the reopening.
    pub survived: bool,
}
