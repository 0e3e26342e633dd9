//! What the node is asked to do, and what an answer makes of it, as data.

ghost use Rattle.std.specs.Prelude.{◌≡◌};
ghost use Rattle.mt_model.specs.messages.Effects.{answered_with, failed_with, refused_at};

use crate::listed::Listed;
use crate::messages::message::{Reply, Request};
use crate::messages::status::Status;
use crate::rows::place::Place;
use crate::tables::access::{AclEntries, Actor};
use crate::tables::fabric::{Credentials, Fabric};
use mt_tlv::{Bytes, Value};
use std::alloc::Global;

/// Ids of sessions, as the node gave them.
pub type SessionIds = Listed<u16>;

/// What the node is to do.
#[derive(Drop)]
pub enum Action {
    /// To answer a request.
    Ask {
        /// Who asks, as the request's way tells.
        actor: Actor,
        request: Request,
        /// Until when the request must have come, in ms, where a timed request went before it.
        timed: Option<u64>,
    },
    /// To let the fail-safe expire, where it is time.
    Expire,
    /// To see what time it is.
    Nothing,
}

/// The values of rows of one place, in their order.
pub type Values = Listed<Value>;

/// What an answer makes of the node. A step carries nothing that whoever asks doesn't observe: so the
/// steps on networks name one network and never the whole list, since secrets are in no observation.
#[derive(Drop)]
pub enum NodeStep {
    /// At this place, the rows of this fabric (0 where the attribute is not scoped) are these.
    SetRow {
        place: Place,
        fabric: u8,
        values: Values,
    },
    /// The access control entries of this fabric are these.
    SetEntries {
        fabric: u8,
        entries: AclEntries,
    },
    /// The network of this id has this secret: one that is there keeps its place and whether it is
    /// connected, a new one stands last.
    PutNetwork {
        id: Bytes,
        secret: Bytes,
    },
    /// The network of this id goes.
    RemoveNetwork {
        id: Bytes,
    },
    /// The network of this id is connected, and no other.
    ConnectNetwork {
        id: Bytes,
    },
    /// The network of this id stands at this place among the networks, from 0.
    MoveNetwork {
        id: Bytes,
        index: u8,
    },
    /// The fail-safe is armed for this fabric, 0 for whoever commissions over PASE, for so many seconds. The
    /// networks are saved.
    Arm {
        owner: u8,
        seconds: u16,
    },
    /// The fail-safe lasts for so many seconds from now on.
    Renew {
        seconds: u16,
    },
    /// The fail-safe expires: what was done under it is taken back.
    Expire,
    /// Commissioning is complete: the fail-safe is not armed any more, and what was done under it stays.
    Complete,
    /// This root certificate is trusted, and is that of the commissioning that goes on.
    AddRoot {
        cert: Bytes,
    },
    /// A signing request of this nonce was answered, for new credentials of a fabric or for a new fabric.
    Csr {
        nonce: Bytes,
        update: bool,
    },
    /// This fabric joins the table, under the least index that no fabric has. Commissioning goes on for it,
    /// whoever asks over PASE follows it, and sessions that waited for its identity may be used.
    AddFabric {
        fabric: Fabric,
    },
    /// The fabric of this index has these credentials; those that it had are saved.
    UpdateFabric {
        index: u8,
        credentials: Credentials,
    },
    /// The fabric of this index leaves the table, with all that is its own.
    RemoveFabric {
        index: u8,
    },
    /// The fabric of this index has this label.
    Label {
        index: u8,
        label: Bytes,
    },
    /// An event of this place happened. It changes nothing of the state: events are remembered beside it.
    Emit {
        place: Place,
        priority: u8,
        /// To whom alone it is told; 0 where all fabrics may see it.
        fabric: u8,
        value: Value,
    },
}

/// Steps, in the order in which they are made.
pub type Steps = Listed<NodeStep>;

/// What an answer to a request comes to: the reply, and what it makes of the node.
#[derive(Drop)]
pub struct Effect {
    pub reply: Reply,
    /// Made one after the other, with whoever asked as the asker.
    pub steps: Steps,
}

impl Effect {
    /// A status under the path of the command, and these steps.
    pub fn answered_with(command: &Place, status: Status, steps: Steps) -> Effect
        ensures { result ≡ answered_with command.now status steps }
    {
        Effect {
            reply: Reply::InvokeStatus {
                command: *command,
                code: status.code(),
            },
            steps,
        }
    }

    /// The command is refused with this status, and nothing changes. It takes no memory.
    pub fn refused_at(alloc: Global, command: &Place, status: Status) -> Effect
        ensures { result ≡ refused_at command.now status }
    {
        Effect::answered_with(command, status, Steps::new(alloc))
    }

    /// The command fails with FAILURE and this code of its cluster, and nothing changes. It takes no memory.
    pub fn failed_with(alloc: Global, command: &Place, reason: u8) -> Effect
        ensures { result ≡ failed_with command.now reason }
    {
        Effect {
            reply: Reply::InvokeClusterStatus {
                command: *command,
                code: Status::Failure.code(),
                cluster: reason,
            },
            steps: Steps::new(alloc),
        }
    }
}

/// Until when the next request of a plain actor must come. An actor is a fabric (0 for a PASE session
/// that has none), a node and its CATs together.
#[derive(Clone, Copy, Debug, PartialEq, Eq)]
pub struct PlainDeadline {
    pub fabric: u8,
    pub node: u64,
    pub cats: [u32; 3],
    /// The latest time, in ms.
    pub until: u64,
}

/// The deadlines of plain actors, each actor's once.
pub type PlainDeadlines = Listed<PlainDeadline>;
