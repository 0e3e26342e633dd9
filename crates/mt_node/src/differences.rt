//! Which attributes differ behind the steps of an answer. The state before them and the steps tell it, so that
//! nothing of the state is copied.

ghost use Rattle.std.specs.Prelude.{◌≡◌, ◌↔◌, ◌&&◌, ℕ, false, true, IfOk, IfSome, IsTrue, Option, filter, map, option_map};
ghost use Rattle.std.specs.List.{list_all, list_any};
ghost use Rattle.mt_model.specs.rows.Setting.{is_at};
ghost use Rattle.mt_model.specs.rows.Seen.{own_entries};
ghost use Rattle.mt_model.specs.rows.Sight.{is_acl};
ghost use Rattle.mt_model.specs.declared.tables.access.Actor.{Actor};
ghost use Rattle.mt_model.specs.declared.rows.place.Row.{Row};
ghost use Rattle.mt_meta.specs.Places.{all_places};
ghost use Rattle.mt_machine.specs.Changes.{differing};
ghost use Rattle.mt_machine.specs.Effects.{after_all, is_setting_step};
ghost use Rattle.mt_machine.specs.State.{IsValid};
ghost use Rattle.mt_machine.specs.Step.{at_time};
ghost use Rattle.mt_node.specs.Differences.{differs_by, differs_with, entries_stand, has_other_entries, rows_stand, sets_none_beside, sets_other_entries, sets_other_rows};

use crate::node::Node;
use mt_meta::clusters::ACCESS_CONTROL;
use mt_meta::{all_places, find, is_stored, places_are_found, places_ascend};
use mt_model::{
    AclEntries, AclEntry, NodeState, NodeStep, Place, Places, Row, StoredRows, Values,
    entries_are_in_order, entries_are_read_again, entries_of, rows_of_a_place_are_in_order,
    set_entries_stand_in_order, set_rows_stand_in_order, what_is_told_the_same_is,
};
use mt_tlv::Value;
use mt_write::{latest_entries, latest_row};
use std::alloc::{AllocError, Global};

/// The places whose attributes differ behind steps that set rows and entries.
pub(crate) fn differing(
    alloc: Global,
    node: &Node,
    steps: &[NodeStep],
) -> Result<Places, AllocError>
    ensures { (asking : Option Actor) (now : ℕ) → list_all is_setting_step steps.now ≡ true → IfOk result (λ places. places ≡ differing (at_time now node.now.state) (after_all asking steps.now (at_time now node.now.state))) }
{
    set_rows_stand_in_order();
    set_entries_stand_in_order();
    rows_of_a_place_are_in_order();
    entries_are_in_order();
    entries_are_read_again();
    what_is_told_the_same_is();
    places_by(alloc, node, steps)
}

fn places_by(alloc: Global, node: &Node, steps: &[NodeStep]) -> Result<Places, AllocError>
    ensures places { IfOk result (λ places. places ≡ filter (differs_by node.now.state steps.now) all_places) }
    ensures valid { IsValid node.now.state }
{
    let entries = has_other_entries(node, steps);
    match only_place(steps) {
        Some(place) if !entries => one_place(alloc, &node.state, steps, &place),
        _ => places_among_all(alloc, &node.state, steps, entries),
    }
}

// The place at which all steps set rows, where the first of them does and none sets any elsewhere.
fn only_place(steps: &[NodeStep]) -> Option<Place>
    ensures { IfSome result (λ place. list_all (sets_none_beside place) steps.now ≡ true) }
{
    match steps.first() {
        Some(NodeStep::SetRow { place, .. }) if set_none_beside(steps, place) => Some(*place),
        _ => None,
    }
}

fn set_none_beside(steps: &[NodeStep], place: &Place) -> bool
    ensures { result ≡ list_all (sets_none_beside place.now) steps.now }
{
    steps.iter().all(|step| sets_none_beside(place, step))
}

fn sets_none_beside(place: &Place, step: &NodeStep) -> bool
    ensures { result ≡ sets_none_beside place.now step.now }
{
    match step {
        NodeStep::SetRow { place: at, .. } => at == place,
        _ => true,
    }
}

// The place alone, where its attribute differs.
fn one_place(
    alloc: Global,
    state: &NodeState,
    steps: &[NodeStep],
    place: &Place,
) -> Result<Places, AllocError>
    requires { list_all (sets_none_beside place.now) steps.now ≡ true }
    ensures { IfOk result (λ places. places ≡ filter (differs_with state.now steps.now false) all_places) }
{
    places_ascend();
    places_are_found();
    let mut places = Places::new(alloc);
    if differs(state, steps, false, place) && find(place).is_ok() {
        places.push(*place)?;
    }
    Ok(places)
}

fn places_among_all(
    alloc: Global,
    state: &NodeState,
    steps: &[NodeStep],
    entries: bool,
) -> Result<Places, AllocError>
    ensures { IfOk result (λ places. places ≡ filter (differs_with state.now steps.now entries) all_places) }
{
    let mut places = all_places(alloc)?.into_vec();
    places.retain(|place| differs(state, steps, entries, place));
    Ok(Places::from_vec(places))
}

// Whether the attribute differs, where it is known whether the access control list does. The table is asked last:
// few places are those of steps.
fn differs(state: &NodeState, steps: &[NodeStep], entries: bool, place: &Place) -> bool
    ensures { result ≡ differs_with state.now steps.now entries place.now }
{
    if entries && is_acl(place) && !is_stored(place) {
        return true;
    }
    has_other_rows(&state.rows, steps, place) && is_stored(place)
}

fn is_acl(place: &Place) -> bool
    ensures { result ≡ is_acl place.now }
{
    place.cluster == ACCESS_CONTROL && place.leaf == 0
}

fn has_other_rows(rows: &StoredRows, steps: &[NodeStep], place: &Place) -> bool
    ensures { result ≡ list_any (sets_other_rows rows.now steps.now place.now) steps.now }
{
    steps
        .iter()
        .any(|step| sets_other_rows(rows, steps, place, step))
}

fn sets_other_rows(rows: &StoredRows, steps: &[NodeStep], place: &Place, step: &NodeStep) -> bool
    ensures { result ≡ sets_other_rows rows.now steps.now place.now step.now }
{
    match step {
        NodeStep::SetRow {
            place: at,
            fabric,
            ..
        } => {
            at == place
                && !rows_stand(
                    place,
                    *fabric,
                    rows.of(place, *fabric),
                    latest_row(steps, place, *fabric),
                )
        },
        _ => false,
    }
}

// Whether these rows of a fabric at a place stand already where values are set, if any are.
fn rows_stand(place: &Place, fabric: u8, rows: &[Row], values: Option<&Values>) -> bool
    ensures { filter (is_at place.now fabric) rows.now ≡ rows.now
        → result ≡ rows_stand place.now fabric rows.now (option_map (λ values. values.now) values.entry) }
{
    what_is_told_the_same_is();
    match values {
        Some(values) => are_values(rows, values.as_slice()),
        None => true,
    }
}

// Whether these are the values of the rows.
fn are_values(rows: &[Row], values: &[Value]) -> bool
    ensures { IsTrue result ↔ (map (λ (row : Row). row.value) rows.now ≡ values.now) }
{
    if rows.len() != values.len() {
        return false;
    }
    for i in 0..rows.len() {
        let row = &rows[i];
        let value = &values[i];
        if !row.value.equals(value) {
            return false;
        }
    }
    true
}

fn has_other_entries(node: &Node, steps: &[NodeStep]) -> bool
    ensures { result ≡ has_other_entries node.now.state steps.now }
{
    steps
        .iter()
        .any(|step| sets_other_entries(node, steps, step))
}

fn sets_other_entries(node: &Node, steps: &[NodeStep], step: &NodeStep) -> bool
    ensures { result ≡ sets_other_entries node.now.state.entries steps.now step.now }
{
    match step {
        NodeStep::SetEntries { fabric, .. } => !entries_stand(
            entries_of(node.state.entries.as_slice(), *fabric),
            latest_entries(steps, *fabric),
        ),
        _ => false,
    }
}

// Whether entries stand already where these are set, if any are.
fn entries_stand(entries: &[AclEntry], new: Option<&AclEntries>) -> bool
    ensures { result ≡ entries_stand entries.now (option_map (λ new. new.now) new.entry) }
{
    entries_are_read_again();
    what_is_told_the_same_is();
    match new {
        Some(new) => are_same_entries(entries, new.as_slice()),
        None => true,
    }
}

fn are_same_entries(entries: &[AclEntry], others: &[AclEntry]) -> bool
    ensures { IsTrue result ↔ (entries.now ≡ others.now) }
{
    if entries.len() != others.len() {
        return false;
    }
    for i in 0..entries.len() {
        let entry = &entries[i];
        let other = &others[i];
        if !entry.equals(other) {
            return false;
        }
    }
    true
}
