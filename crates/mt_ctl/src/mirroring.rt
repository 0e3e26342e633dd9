//! The row of the other side of a session.

ghost use Rattle.std.specs.Prelude.{◌≡◌, IfOk};
ghost use Rattle.mt_session.specs.Datagrams.{mirror as mirror_of};

use mt_model::{ExactCopy, SessionRow};
use std::alloc::AllocError;

/// The row that the other side of a session has: the ids, node ids, keys and counters of the two sides
/// are exchanged, and all else is the same.
pub fn mirror(row: &SessionRow) -> Result<SessionRow, AllocError>
    ensures { IfOk result (λ mirrored. mirrored ≡ mirror_of row.now) }
{
    Ok(SessionRow {
        session: row.peer_session,
        peer_session: row.session,
        boot: row.boot,
        auth: row.auth,
        root_key: row.root_key.copy()?,
        fabric_id: row.fabric_id,
        own_node: row.peer_node,
        peer_node: row.own_node,
        cats: row.cats,
        key_in: row.key_out,
        key_out: row.key_in,
        counter_in: row.counter_out,
        counter_out: row.counter_in,
    })
}
