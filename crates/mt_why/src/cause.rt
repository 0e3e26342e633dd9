//! The causes.

ghost use Rattle.std.specs.Prelude.{◌≡◌};
ghost use Rattle.mt_why.specs.Causes.{status_of};

use mt_frame::FrameFault;
use mt_meta::Asked;
use mt_model::{Actor, Place, Privilege, Status};

/// Why a line was sent nothing, or was refused something.
#[derive(Clone, Copy, Debug, PartialEq, Eq)]
pub enum Cause {
    /// The fabric that asks is not in the table.
    NoFabric {
        fabric: u8,
    },
    /// The plain PASE session has ended: one plain commissioning a boot.
    PlainEnded,
    /// No session of this boot has the id.
    NoSession {
        session: u16,
    },
    /// No fabric with the identity of the session is in the table yet.
    SessionWaits {
        session: u16,
    },
    /// The session has ended.
    SessionEnded {
        session: u16,
    },
    /// The session, which was on CASE, has ended, and no fabric with its identity is in the table.
    FabricLeft {
        session: u16,
    },
    /// The datagram has no message header that can be read.
    NoHeader {
        fault: FrameFault,
    },
    /// The session does not let the datagram in.
    NotLetIn {
        session: u16,
    },
    /// The request says that it wants no answer.
    Suppressed,
    /// The datagram was let in and wants no answer.
    NothingToAnswer {
        session: u16,
    },
    /// Over the session nothing is due to be sent again.
    NothingToResend {
        session: u16,
    },
    /// The fabric has no such subscription.
    NotSubscribed {
        fabric: u8,
        subscription: u32,
    },
    /// The latest report of the subscription was not confirmed yet.
    NotConfirmed {
        fabric: u8,
        subscription: u32,
    },
    /// The floor, in seconds, has not passed since the latest report, which was at a time in ms.
    TooEarly {
        fabric: u8,
        subscription: u32,
        floor: u16,
        last: u64,
    },
    /// The ceiling, in seconds, has not passed since the latest report, which was at a time in ms, and no attribute that the
    /// subscription names and its subscriber may read has changed since.
    NothingDue {
        fabric: u8,
        subscription: u32,
        ceiling: u16,
        last: u64,
    },
    /// No entry of the actor's fabric grants it the privilege at the place.
    NoEntry {
        actor: Actor,
        what: Asked,
        privilege: Privilege,
        place: Place,
    },
    /// The table of clusters has nothing at the place.
    Missing {
        what: Asked,
        place: Place,
        status: Status,
    },
    /// The attribute can't be written.
    NotWritable {
        place: Place,
    },
    /// A single item of a list can't be written.
    SingleItem {
        place: Place,
    },
    /// It is written or called in timed interactions alone.
    NeedsTimed {
        what: Asked,
        place: Place,
    },
    /// The write is for another data version than the cluster has.
    OtherVersion {
        place: Place,
        wanted: u32,
        version: u32,
    },
    /// The fields of the command have not the form that the table gives them.
    OtherForm {
        command: Place,
    },
    /// The fields of the command have their form, and its cluster refuses what they say.
    RefusedFields {
        command: Place,
    },
    /// This status is in what was answered.
    Answered {
        status: Status,
    },
}

impl Cause {
    /// The status with which a refusal is answered; None where the cause is of a silence.
    pub fn status(&self) -> Option<Status>
        ensures { result ≡ status_of self.now }
    {
        match self {
            Cause::NoEntry { .. } => Some(Status::UnsupportedAccess),
            Cause::Missing { status, .. } => Some(*status),
            Cause::NotWritable { .. } => Some(Status::UnsupportedWrite),
            Cause::SingleItem { .. } => Some(Status::UnsupportedWrite),
            Cause::NeedsTimed { .. } => Some(Status::NeedsTimedInteraction),
            Cause::OtherVersion { .. } => Some(Status::DataVersionMismatch),
            Cause::OtherForm { .. } => Some(Status::InvalidCommand),
            Cause::RefusedFields { .. } => Some(Status::InvalidCommand),
            Cause::Answered { status } => Some(*status),
            _ => None,
        }
    }
}
