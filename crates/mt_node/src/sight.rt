//! What of the node answers are made of.

ghost use Rattle.std.specs.Prelude.{◌≡◌, IfOk, IsTrue, option_copied};
ghost use Rattle.mt_model.specs.rows.Order.{are_ascending, fabrics_ascend};
ghost use Rattle.mt_model.specs.texts.Config.{ascend_from};
ghost use Rattle.mt_model.specs.rows.Sight.{stands_at, version_in};
ghost use Rattle.mt_apps.specs.Seen.{parts_in};
ghost use Rattle.mt_machine.specs.State.{parts, rows_of};

use crate::node::Node;
use mt_apps::{items_shown, rows_at, value_shown};
use mt_meta::is_stored;
use mt_model::{
    AclEntry, ExactCopy, NodeState, Place, Row, Rows, Sight, Version, View, entries_of,
    shown_items, shown_value,
};
use mt_tlv::{Members, Value};
use std::alloc::{AllocError, Global};

impl Sight for Node {
    ghost rows_of = { λ node. rows_of node.state };

    ghost versions = { λ node. node.state.versions };

    ghost all_entries = { λ node. node.state.entries };

    fn rows_at(&self, place: &Place) -> Result<Rows, AllocError> {
        if is_stored(place) {
            copied(self.alloc, self.state.rows.at(place))
        } else {
            rows_at(self.alloc, &view(self), place)
        }
    }

    fn items_shown(
        &self,
        alloc: Global,
        place: &Place,
        fabric: u8,
        own: bool,
    ) -> Result<Members, AllocError> {
        if is_stored(place) {
            shown_items(alloc, fabric, own, self.state.rows.at(place))
        } else {
            items_shown(alloc, &view(self), place, fabric, own)
        }
    }

    fn value_shown(&self, alloc: Global, place: &Place, fabric: u8) -> Result<Value, AllocError> {
        if is_stored(place) {
            shown_value(alloc, fabric, self.state.rows.at(place))
        } else {
            value_shown(alloc, &view(self), place, fabric)
        }
    }

    fn version(&self, endpoint: u16, cluster: u32) -> u32 {
        version_among(self.state.versions.as_slice(), endpoint, cluster)
    }

    fn entries(&self, fabric: u8) -> &[AclEntry] {
        entries_of(self.state.entries.as_slice(), fabric)
    }
}

// Copies of rows that ascend.
fn copied(alloc: Global, rows: &[Row]) -> Result<Rows, AllocError>
    requires { IsTrue (are_ascending rows.now) }
    ensures { IfOk result (λ copied. copied ≡ rows.now) }
{
    let mut copied = Vec::with_capacity(alloc, rows.len())?;
    for row in rows {
        copied.push(row.copy()?)?;
    }
    Ok(Rows::from_vec(copied))
}

// The parts of the state from which rows are computed.
pub(crate) fn view(node: &Node) -> View<'_>
    ensures parts { parts_in result ≡ parts node.now.state }
    ensures rows { result.rows.now ≡ node.now.state.rows }
    ensures armed { option_copied result.armed ≡ node.now.state.armed }
{
    view_of(&node.state)
}

/// The same of a state whose entries and fabrics stand in order.
pub(crate) fn view_of(state: &NodeState) -> View<'_>
    requires entries { IsTrue (ascend_from 0 state.now.entries) }
    requires fabrics { IsTrue (fabrics_ascend state.now.fabrics) }
    ensures parts { parts_in result ≡ parts state.now }
    ensures rows { result.rows.now ≡ state.now.rows }
    ensures armed { option_copied result.armed ≡ state.now.armed }
{
    View {
        rows: &state.rows,
        entries: &state.entries,
        fabrics: &state.fabrics,
        roots: &state.roots,
        networks: &state.networks,
        armed: state.armed.as_ref(),
    }
}

// The data version of a cluster on an endpoint, 0 where there is none.
fn version_among(versions: &[Version], endpoint: u16, cluster: u32) -> u32
    ensures { result ≡ version_in versions.now endpoint cluster }
{
    for row in versions {
        if row.endpoint == endpoint && row.cluster == cluster {
            return row.version;
        }
    }
    0
}
