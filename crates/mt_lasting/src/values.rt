//! What is under each key for a state.

ghost use Rattle.std.specs.Prelude.{◌≡◌, IfOk, option_copied, option_map};
ghost use Rattle.std.specs.List.{find};
ghost use Rattle.mt_model.specs.rows.Sight.{same_place};
ghost use Rattle.mt_machine.specs.State.{IsValid};
ghost use Rattle.mt_lasting.specs.Keys.{acl_place};
ghost use Rattle.mt_lasting.specs.Values.{fabric_value, failsafe_value, has_index, items_value, single_in, unless_first, value_at};

use crate::arrays::array_if;
use crate::keys::ACL_PLACE;
use crate::structures::{fabric_value, failsafe_value};
use mt_grammar::{Key, is_first_at};
use mt_model::{Armed, Fabric, NodeState, Place, Row, entries_of};
use mt_tlv::Value;
use std::alloc::{AllocError, Global};

/// What is under a key, None where nothing is to be kept.
pub(crate) fn value_at(
    alloc: Global,
    key: &Key,
    state: &NodeState,
    ceiling: u64,
) -> Result<Option<Value>, AllocError>
    requires { IsValid state.now }
    ensures { IfOk result (λ value. value ≡ value_at key.now state.now ceiling) }
{
    match key {
        Key::Boot => Ok(Some(Value::Uint(state.boot as u64))),
        Key::Ceiling => Ok(Some(Value::Uint(ceiling))),
        Key::Single { place } => single_in(place, state.rows.at(place)),
        Key::Items { fabric, place } => items_value(alloc, *fabric, place, state),
        Key::Fabric { index } => fabric_at(alloc, *index, state.fabrics.as_slice()),
        Key::Roots => array_if(alloc, state.roots.as_slice()),
        Key::Networks => array_if(alloc, state.networks.as_slice()),
        Key::Failsafe => failsafe_if(alloc, &state.armed),
    }
}

// The value of an attribute whose rows these are, unless it is as it first is.
pub(crate) fn single_in(place: &Place, rows: &[Row]) -> Result<Option<Value>, AllocError>
    ensures { IfOk result (λ value. value ≡ single_in place.now rows.now) }
{
    match rows {
        [row, ..] => unless_first(place, &row.value),
        [] => Ok(None),
    }
}

/// The value, unless the attribute of the place begins with it.
pub(crate) fn unless_first(place: &Place, value: &Value) -> Result<Option<Value>, AllocError>
    ensures { IfOk result (λ kept. kept ≡ unless_first place.now value.now) }
{
    if is_first_at(place, value) {
        return Ok(None);
    }
    Ok(Some(value.copy()?))
}

// A fabric's items, which are entries or rows.
fn items_value(
    alloc: Global,
    fabric: u8,
    place: &Place,
    state: &NodeState,
) -> Result<Option<Value>, AllocError>
    requires { IsValid state.now }
    ensures { IfOk result (λ value. value ≡ items_value fabric place.now state.now) }
{
    if is_acl_place(place) {
        return array_if(alloc, entries_of(state.entries.as_slice(), fabric));
    }
    array_if(alloc, state.rows.of(place, fabric))
}

fn is_acl_place(place: &Place) -> bool
    ensures { result ≡ same_place place.now acl_place }
{
    *place == ACL_PLACE
}

fn fabric_at(alloc: Global, index: u8, fabrics: &[Fabric]) -> Result<Option<Value>, AllocError>
    ensures { IfOk result (λ value. value ≡ option_map fabric_value (find (has_index index) fabrics.now)) }
{
    match find_fabric(index, fabrics) {
        Some(fabric) => Ok(Some(fabric_value(alloc, fabric)?)),
        None => Ok(None),
    }
}

/// The fabric of an index.
pub(crate) fn find_fabric(index: u8, fabrics: &[Fabric]) -> Option<&Fabric>
    ensures { option_copied result ≡ find (has_index index) fabrics.now }
{
    fabrics.iter().find(|fabric| fabric.index == index)
}

fn failsafe_if(alloc: Global, armed: &Option<Armed>) -> Result<Option<Value>, AllocError>
    ensures { IfOk result (λ value. value ≡ option_map failsafe_value armed.now) }
{
    match armed {
        Some(armed) => Ok(Some(failsafe_value(alloc, armed)?)),
        None => Ok(None),
    }
}
