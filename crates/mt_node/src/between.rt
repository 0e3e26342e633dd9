//! What differs between two states: attributes, sessions that have ended, a fabric that has left the table.

ghost use Rattle.std.specs.Prelude.{◌≡◌, ◌↔◌, ◌&&◌, not, IfOk, IsTrue};
ghost use Rattle.mt_model.specs.rows.Order.{fabrics_ascend};
ghost use Rattle.mt_model.specs.rows.Same.{are_same_rows};
ghost use Rattle.mt_model.specs.texts.Config.{ascend_from};
ghost use Rattle.mt_machine.specs.Changes.{differing, differs};
ghost use Rattle.mt_machine.specs.State.{IsValid};
ghost use Rattle.mt_machine.specs.Step.{closed_between, gone_between, is_live};
ghost use Rattle.mt_node.specs.Differences.{is_of_tables};

use crate::actors::has_fabric;
use crate::node::Node;
use crate::sight::view_of;
use mt_apps::rows_at;
use mt_meta::clusters::{ACCESS_CONTROL, NETWORK_COMMISSIONING, OPERATIONAL_CREDENTIALS};
use mt_meta::{all_places, is_stored};
use mt_model::{
    Fabric, NodeSession, NodeState, Place, Places, Row, SessionIds, Standing,
    what_is_told_the_same_is,
};
use std::alloc::{AllocError, Global};

/// The places whose attributes have other rows in the second state, which is valid.
pub(crate) fn differing_between(node: &Node, behind: &NodeState) -> Result<Places, AllocError>
    requires { IsValid behind.now }
    ensures { IfOk result (λ places. places ≡ differing node.now.state behind.now) }
{
    places_between(node.alloc, &node.state, behind)
}

fn places_between(
    alloc: Global,
    state: &NodeState,
    behind: &NodeState,
) -> Result<Places, AllocError>
    requires entries { IsTrue (ascend_from 0 state.now.entries) }
    requires fabrics { IsTrue (fabrics_ascend state.now.fabrics) }
    requires entries_behind { IsTrue (ascend_from 0 behind.now.entries) }
    requires fabrics_behind { IsTrue (fabrics_ascend behind.now.fabrics) }
    ensures { IfOk result (λ places. places ≡ differing state.now behind.now) }
{
    let places = all_places(alloc)?;
    let mut differing = Places::new(alloc);
    for place in places.as_slice() {
        if differs(alloc, state, behind, place)? {
            differing.push(*place)?;
        }
    }
    Ok(differing)
}

fn differs(
    alloc: Global,
    state: &NodeState,
    behind: &NodeState,
    place: &Place,
) -> Result<bool, AllocError>
    requires entries { IsTrue (ascend_from 0 state.now.entries) }
    requires fabrics { IsTrue (fabrics_ascend state.now.fabrics) }
    requires entries_behind { IsTrue (ascend_from 0 behind.now.entries) }
    requires fabrics_behind { IsTrue (fabrics_ascend behind.now.fabrics) }
    ensures { IfOk result (λ other. other ≡ differs state.now behind.now place.now) }
{
    what_is_told_the_same_is();
    if is_stored(place) {
        return Ok(!are_same_rows(state.rows.at(place), behind.rows.at(place)));
    }
    if !is_of_tables(place) {
        return Ok(false);
    }
    let rows = rows_at(alloc, &view_of(state), place)?;
    let others = rows_at(alloc, &view_of(behind), place)?;
    Ok(!are_same_rows(rows.as_slice(), others.as_slice()))
}

// Whether an attribute that is not stored has rows of the tables of a state. The rows of all others never change.
fn is_of_tables(place: &Place) -> bool
    ensures { result ≡ is_of_tables place.now }
{
    if place.cluster == ACCESS_CONTROL {
        return place.leaf == 0;
    }
    if place.cluster == NETWORK_COMMISSIONING {
        return place.leaf == 1;
    }
    place.cluster == OPERATIONAL_CREDENTIALS && place.leaf < 5
}

fn are_same_rows(rows: &[Row], others: &[Row]) -> bool
    ensures { result ≡ are_same_rows rows.now others.now }
{
    what_is_told_the_same_is();
    are_equal_rows(rows, others)
}

fn are_equal_rows(rows: &[Row], others: &[Row]) -> bool
    ensures { IsTrue result ↔ (rows.now ≡ others.now) }
{
    if rows.len() != others.len() {
        return false;
    }
    for i in 0..rows.len() {
        let row = &rows[i];
        let other = &others[i];
        if !is_equal_row(row, other) {
            return false;
        }
    }
    true
}

fn is_equal_row(row: &Row, other: &Row) -> bool
    ensures { IsTrue result ↔ (row.now ≡ other.now) }
{
    row.place == other.place && row.fabric == other.fabric && row.value.equals(&other.value)
}

/// The sessions that were live and are not any more, where both lists have the same sessions in the same order.
pub(crate) fn closed_between(
    alloc: Global,
    sessions: &[NodeSession],
    behind: &[NodeSession],
) -> Result<SessionIds, AllocError>
    ensures { IfOk result (λ closed. closed ≡ closed_between sessions.now behind.now) }
{
    let mut closed = SessionIds::new(alloc);
    for i in 0..sessions.len() {
        let session = &sessions[i];
        if i < behind.len() && is_over(session, &behind[i]) {
            closed.push(session.session)?;
        }
    }
    Ok(closed)
}

// Whether a session was live and is not any more.
fn is_over(session: &NodeSession, behind: &NodeSession) -> bool
    ensures { result ≡ (is_live session.now.standing && not (is_live behind.now.standing)) }
{
    is_live(session.standing) && !is_live(behind.standing)
}

fn is_live(standing: Standing) -> bool
    ensures { result ≡ is_live standing }
{
    match standing {
        Standing::Live(_) => true,
        _ => false,
    }
}

/// The first fabric that is not there any more.
pub(crate) fn gone_between(fabrics: &[Fabric], behind: &[Fabric]) -> Option<u8>
    ensures { result ≡ gone_between fabrics.now behind.now }
{
    for fabric in fabrics {
        if !has_fabric(behind, fabric.index) {
            return Some(fabric.index);
        }
    }
    None
}
