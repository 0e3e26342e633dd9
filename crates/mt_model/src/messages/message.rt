//! The messages of the interaction model: what is asked, and what is answered.

ghost use Rattle.std.specs.Prelude.{◌≡◌};
ghost use Rattle.mt_model.specs.messages.Blocks.{names_item, path_of, place_named};

use crate::listed::{ExactCopy, Listed};
use crate::node::state::Versions;
use crate::rows::place::Place;
use mt_tlv::{Bytes, Value};
use std::alloc::AllocError;

/// Which items of a list a path names.
#[derive(Clone, Copy, Debug, PartialEq, Eq)]
pub enum Index {
    /// The attribute as a whole.
    Whole,
    /// One more item, behind the last: the list index null.
    Append,
    /// The item of this number.
    At(u16),
}

/// A path (Matter Core Specification, section 8.2.1, Path); what is None is a wildcard.
#[derive(Clone, Copy, Debug, PartialEq, Eq)]
pub struct Path {
    pub endpoint: Option<u16>,
    pub cluster: Option<u32>,
    /// The id of the attribute or event.
    pub leaf: Option<u32>,
    pub index: Index,
}

impl Path {
    /// The place that the path names, None where it has a wildcard.
    pub fn place(&self) -> Option<Place>
        ensures { result ≡ place_named self.now }
    {
        match (self.endpoint, self.cluster, self.leaf) {
            (Some(endpoint), Some(cluster), Some(leaf)) => Some(Place {
                endpoint,
                cluster,
                leaf,
            }),
            _ => None,
        }
    }

    /// Whether the path names a single item of a list.
    pub fn names_item(&self) -> bool
        ensures { result ≡ names_item self.now }
    {
        match self.index {
            Index::At(_) => true,
            Index::Whole | Index::Append => false,
        }
    }
}

// The path that names the place as a whole.
impl From<Place> for Path {
    ghost from_gives = { λ place path. path ≡ path_of place };

    fn from(place: Place) -> Path {
        Path {
            endpoint: Some(place.endpoint),
            cluster: Some(place.cluster),
            leaf: Some(place.leaf),
            index: Index::Whole,
        }
    }
}

impl ExactCopy for Path {
    fn copy(&self) -> Result<Path, AllocError> {
        Ok(*self)
    }
}

/// The paths of a request, in their order.
pub type Paths = Listed<Path>;

/// The places that paths name.
pub type Places = Listed<Place>;

/// One item of a write request: what is to stand at the path.
#[derive(Drop)]
pub struct WriteItem {
    pub path: Path,
    /// The data version that the cluster must have, where one is given.
    pub version: Option<u32>,
    pub value: Value,
}

impl ExactCopy for WriteItem {
    fn copy(&self) -> Result<WriteItem, AllocError> {
        Ok(WriteItem {
            path: self.path,
            version: self.version,
            value: self.value.copy()?,
        })
    }
}

/// The items of a write request, in their order.
pub type Writes = Listed<WriteItem>;

/// What a peer asks.
#[derive(Drop)]
pub enum Request {
    /// The status of what was received before.
    Status {
        code: u8,
    },
    /// To be told attributes and events.
    Read {
        paths: Paths,
        events: Paths,
        /// The least number of an event that is asked for.
        minimum: u64,
        /// Whether of fabric-scoped lists the reader's own items alone are asked for.
        filtered: bool,
        /// The data versions that the reader knows already.
        versions: Versions,
    },
    /// To be told them now and again whenever they change.
    Subscribe {
        /// Whether the peer's other subscriptions stay.
        keep: bool,
        /// The least time between two reports, in seconds.
        floor: u16,
        /// The longest time between two reports, in seconds.
        ceiling: u16,
        paths: Paths,
        events: Paths,
        minimum: u64,
        filtered: bool,
        versions: Versions,
    },
    /// To change attributes.
    Write {
        /// Whether no WriteResponse is wanted.
        suppress: bool,
        /// Whether a timed request went before.
        timed: bool,
        items: Writes,
    },
    /// To carry out a command.
    Invoke {
        /// Whether no InvokeResponse is wanted.
        suppress: bool,
        /// Whether a timed request went before.
        timed: bool,
        command: Place,
        fields: Value,
    },
    /// That the next request of the exchange comes within this time.
    Timed {
        /// How long, in ms.
        ms: u16,
    },
}

/// An event that happened on the node.
#[derive(Drop)]
pub struct Happened {
    /// Rises over all events of the node.
    pub number: u64,
    pub place: Place,
    /// 0 debug, 1 info, 2 critical.
    pub priority: u8,
    /// When, in ms of the recording; 0 for what happened at the start.
    pub at: u64,
    /// To which fabric it is private; 0 where it is shared.
    pub fabric: u8,
    pub value: Value,
}

impl ExactCopy for Happened {
    fn copy(&self) -> Result<Happened, AllocError> {
        Ok(Happened {
            number: self.number,
            place: self.place,
            priority: self.priority,
            at: self.at,
            fabric: self.fabric,
            value: self.value.copy()?,
        })
    }
}

/// One item of an answer.
#[derive(Drop)]
pub enum Item {
    /// The data that stands at the path, and the version of its cluster.
    Attribute {
        path: Path,
        version: u32,
        value: Value,
    },
    /// The status with which the path of an attribute was refused.
    Refused {
        path: Path,
        code: u8,
    },
    /// An event that happened.
    Event(Happened),
    /// The status with which the path of an event was refused.
    EventRefused {
        path: Path,
        code: u8,
    },
}

impl ExactCopy for Item {
    fn copy(&self) -> Result<Item, AllocError> {
        match self {
            Item::Attribute {
                path,
                version,
                value,
            } => Ok(Item::Attribute {
                path: *path,
                version: *version,
                value: value.copy()?,
            }),
            Item::Refused { path, code } => Ok(Item::Refused {
                path: *path,
                code: *code,
            }),
            Item::Event(happened) => Ok(Item::Event(happened.copy()?)),
            Item::EventRefused { path, code } => Ok(Item::EventRefused {
                path: *path,
                code: *code,
            }),
        }
    }
}

/// The items of an answer, in their order.
pub type Items = Listed<Item>;

/// What the node answers.
#[derive(Drop)]
pub enum Reply {
    /// One status for the whole request.
    Status {
        code: u8,
    },
    /// Attributes and events.
    Report {
        /// The subscription that reports, None for a read.
        subscription: Option<u32>,
        items: Items,
        /// Whether the last message asks for no confirmation.
        suppress: bool,
    },
    /// The subscription stands.
    Subscribed {
        id: u32,
        /// The longest time between two reports that was granted, in seconds.
        ceiling: u16,
    },
    /// The statuses of a write's items.
    Written {
        items: Items,
    },
    /// The response to a command.
    Invoked {
        command: Place,
        fields: Value,
    },
    /// The status of a command that has no response.
    InvokeStatus {
        command: Place,
        code: u8,
    },
    /// The status of a command that failed for a reason that its cluster has a code for.
    InvokeClusterStatus {
        command: Place,
        code: u8,
        cluster: u8,
    },
    /// No message.
    Nothing,
}

/// One message of a reply, encoded.
#[derive(Drop)]
pub struct Payload {
    pub opcode: u8,
    pub bytes: Bytes,
    /// Until when the next request of the exchange must come, in ms, where the message sets that.
    pub deadline: Option<u64>,
}

impl ExactCopy for Payload {
    fn copy(&self) -> Result<Payload, AllocError> {
        Ok(Payload {
            opcode: self.opcode,
            bytes: self.bytes.copy()?,
            deadline: self.deadline,
        })
    }
}

/// The messages of one reply, in the order of sending.
pub type Payloads = Listed<Payload>;
