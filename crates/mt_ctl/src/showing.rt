//! The datagrams that a node sends, opened by the other side of a session.

ghost use Rattle.std.specs.Prelude.{◌≡◌, ◌≢◌, ◌<◌, ◌^◌, ℕ, List, [], All, length, IfOk, OnOk};
ghost use Rattle.mt_model.specs.declared.tables.access.Auth.TheVariants.{Group};
ghost use Rattle.mt_model.specs.declared.texts.config.SessionRow.{SessionRow};
ghost use Rattle.mt_session.specs.Opening.{Arrival, received};
ghost use Rattle.mt_session.specs.Sessions.{Message, StandsFor, arrivals_by, counters};
ghost use Rattle.mt_ctl.specs.Showing.{datagrams_in, kind_of as kind_of_test, shown, shown_as};
ghost use Rattle.mt_ctl.specs.Testing.{AreToldOf};

use crate::laws::items_tell_of_their_datagrams;
use crate::mirroring::mirror;
use mt_frame::ProtocolHeader;
use mt_model::{ExactCopy, Listed, SentList, SessionRow, To};
use mt_session::{Dropped, Session};
use mt_tlv::Bytes;
use std::alloc::{AllocError, Global};

/// What is shown of a datagram.
#[derive(Drop)]
pub enum Shown {
    /// The message that was sealed in it.
    Opened {
        /// When it was sent, in ms.
        ms: u64,
        header: ProtocolHeader,
        payload: Bytes,
    },
    /// It did not open.
    Closed {
        /// When it was sent, in ms.
        ms: u64,
        /// The first test that it failed: 1 a header that is not read, 2 it is of another session, 3 it is
        /// not sealed with the session's key, 4 it is a copy, 5 it is too old to tell, 6 it names other nodes.
        kind: u8,
    },
}

/// What is shown of the datagrams of a node, in the order of sending.
pub type ShownList = Listed<Shown>;

/// Opens each datagram that a node sent, to this session or to another, by a new session of the other
/// side of the row, one after the other; what goes to a plain actor is passed over. The row is of a unicast
/// session, PASE or CASE, whose two ids are not 0, and a datagram has at most 65,535 bytes.
pub fn show(alloc: Global, row: &SessionRow, sent: &SentList) -> Result<ShownList, AllocError>
    requires auth { row.now.auth ≢ Group }
    requires session { row.now.session ≢ 0 }
    requires peer_session { row.now.peer_session ≢ 0 }
    requires short { All (λ message. length message.bytes < 2 ^ 16) (datagrams_in sent.now) }
    // An item for each datagram, which is what the session answers to it behind those before.
    ensures shown { IfOk result (λ items. items ≡ shown row.now sent.now) }
    // Opened is a message that is sealed in its datagram with the node's key, and passes all tests; Closed has the
    // kind of the first test that fails.
    ensures told { IfOk result (λ items. AreToldOf row.now [] (datagrams_in sent.now) items) }
{
    items_tell_of_their_datagrams();
    let mut session = Session::new(mirror(row)?);
    let mut items = Vec::new(alloc);
    for message in sent.as_slice() {
        let To::Session { .. } = message.to else {
            continue;
        };
        items.push(opened(alloc, &mut session, message.ms, &message.bytes)?)?;
    }
    Ok(ShownList::from_vec(items))
}

// What is shown of a datagram that was sent at this time.
fn opened(alloc: Global, session: &mut Session, ms: u64, bytes: &Bytes) -> Result<Shown, AllocError>
    requires { length bytes.now < 2 ^ 16 }
    ensures item { (row : SessionRow) (arrivals : List Arrival) (messages : List Message)
        → StandsFor session.old row arrivals messages
        → IfOk result (λ item. item ≡ shown_as ms (received row (counters arrivals) bytes.now)) }
    ensures stands { (row : SessionRow) (arrivals : List Arrival) (messages : List Message)
        → StandsFor session.old row arrivals messages
        → OnOk result (StandsFor session.new row (arrivals_by arrivals (received row (counters arrivals) bytes.now)) messages) }
{
    let mut datagram = bytes.copy()?.into_vec();
    match session.unseal(datagram.as_mut_slice()) {
        Ok(opened) => Ok(Shown::Opened {
            ms,
            header: opened.header,
            payload: Bytes::from_slice(alloc, opened.payload)?,
        }),
        Err(dropped) => Ok(Shown::Closed {
            ms,
            kind: kind_of(dropped),
        }),
    }
}

// The number of the test that a datagram failed.
fn kind_of(dropped: Dropped) -> u8
    ensures { result ≡ kind_of_test dropped }
{
    match dropped {
        Dropped::Frame(_) => 1,
        Dropped::OtherSession => 2,
        Dropped::NotSealed => 3,
        Dropped::Duplicate { .. } => 4,
        Dropped::Old => 5,
        Dropped::Source => 6,
    }
}
