//! What steps that set values change of the durable map.

ghost use Rattle.std.specs.Prelude.{◌≡◌, ◌++◌, ℕ, None, false, true, IfOk, OnOk};
ghost use Rattle.std.specs.List.{flat_map, list_all, list_any};
ghost use Rattle.mt_model.specs.rows.Sight.{same_place};
ghost use Rattle.mt_grammar.specs.declared.keys.Key.TheVariants.{Items, Single};
ghost use Rattle.mt_machine.specs.Effects.{after_all, is_setting_step};
ghost use Rattle.mt_machine.specs.State.{IsValid};
ghost use Rattle.mt_lasting.specs.Changes.{change_between, differing_at};
ghost use Rattle.mt_lasting.specs.Keys.{acl_place, indexes, item_places, keys_of, single_places};
ghost use Rattle.mt_lasting.specs.Steps.{first_kept, names_fabric};

use crate::arrays::array_if;
use crate::changes::push_differing;
use crate::keys::{ACL_PLACE, indexes, item_places, single_places};
use crate::laws::changes_lead_on;
use crate::values::{single_in, unless_first};
use mt_durable::{Change, Entry};
use mt_grammar::Key;
use mt_model::{
    NodeState, NodeStep, Place, entries_of, set_entries_stand_in_order, set_rows_stand_in_order,
};
use mt_tlv::Value;
use mt_write::{latest_entries, latest_row};
use std::alloc::{AllocError, Global};

/// What changes of the durable map where a state takes steps that set values, and its ceiling of event numbers stays. It
/// takes memory for the values of the keys that the steps set, and for no other; where there is no step it does nothing.
pub fn change_by_steps(
    alloc: Global,
    state: &NodeState,
    steps: &[NodeStep],
) -> Result<Change, AllocError>
    requires valid { IsValid state.now }
    requires steps { list_all is_setting_step steps.now ≡ true }
    requires behind { IsValid (after_all None steps.now state.now) }
    ensures { (ceiling : ℕ) → IfOk result (λ change. change ≡ change_between state.now ceiling (after_all None steps.now state.now) ceiling) }
{
    changes_lead_on();
    let entries = entries_by_steps(alloc, state, steps)?;
    Ok(Change::from_vec(entries))
}

// The entries of that change: none where there is no step.
fn entries_by_steps(
    alloc: Global,
    state: &NodeState,
    steps: &[NodeStep],
) -> Result<Vec<Entry>, AllocError>
    requires valid { IsValid state.now }
    requires steps { list_all is_setting_step steps.now ≡ true }
    requires behind { IsValid (after_all None steps.now state.now) }
    ensures { (ceiling : ℕ) → IfOk result (λ entries. entries.items ≡ change_between state.now ceiling (after_all None steps.now state.now) ceiling) }
{
    let mut entries = Vec::new(alloc);
    if steps.is_empty() {
        return Ok(entries);
    }
    push_singles(alloc, state, steps, &mut entries)?;
    push_items(alloc, state, steps, &mut entries)?;
    Ok(entries)
}

fn push_singles(
    alloc: Global,
    state: &NodeState,
    steps: &[NodeStep],
    entries: &mut Vec<Entry>,
) -> Result<(), AllocError>
    requires valid { IsValid state.now }
    requires steps { list_all is_setting_step steps.now ≡ true }
    requires behind { IsValid (after_all None steps.now state.now) }
    ensures { (ceiling : ℕ) → OnOk result (entries.new.items ≡ entries.old.items ++ flat_map (λ place. differing_at state.now ceiling (after_all None steps.now state.now) ceiling (Single place)) single_places) }
{
    let places = single_places();
    for place in places {
        push_single(alloc, place, state, steps, entries)?;
    }
    Ok(())
}

fn push_single(
    alloc: Global,
    place: &Place,
    state: &NodeState,
    steps: &[NodeStep],
    entries: &mut Vec<Entry>,
) -> Result<(), AllocError>
    requires valid { IsValid state.now }
    requires steps { list_all is_setting_step steps.now ≡ true }
    requires behind { IsValid (after_all None steps.now state.now) }
    requires place { list_any (same_place place.now) single_places ≡ true }
    ensures { (ceiling : ℕ) → OnOk result (entries.new.items ≡ entries.old.items ++ differing_at state.now ceiling (after_all None steps.now state.now) ceiling (Single place.now)) }
{
    set_rows_stand_in_order();
    let Some(values) = latest_row(steps, place, 0) else {
        return Ok(());
    };
    let old = single_in(place, state.rows.at(place))?;
    let new = first_kept(place, values.as_slice())?;
    push_differing(alloc, &Key::Single { place: *place }, old, new, entries)
}

// The first of these values, unless the attribute of the place begins with it.
fn first_kept(place: &Place, values: &[Value]) -> Result<Option<Value>, AllocError>
    ensures { IfOk result (λ value. value ≡ first_kept place.now values.now) }
{
    match values {
        [value, ..] => unless_first(place, value),
        [] => Ok(None),
    }
}

fn push_items(
    alloc: Global,
    state: &NodeState,
    steps: &[NodeStep],
    entries: &mut Vec<Entry>,
) -> Result<(), AllocError>
    requires valid { IsValid state.now }
    requires steps { list_all is_setting_step steps.now ≡ true }
    ensures { (ceiling : ℕ) → OnOk result (entries.new.items ≡ entries.old.items ++ flat_map (λ fabric. flat_map (differing_at state.now ceiling (after_all None steps.now state.now) ceiling) (keys_of fabric)) indexes) }
{
    let fabrics = indexes();
    for fabric in fabrics {
        push_items_of(alloc, *fabric, state, steps, entries)?;
    }
    Ok(())
}

// A fabric's items of all lists: nothing is said of a fabric that no step names.
fn push_items_of(
    alloc: Global,
    fabric: u8,
    state: &NodeState,
    steps: &[NodeStep],
    entries: &mut Vec<Entry>,
) -> Result<(), AllocError>
    requires valid { IsValid state.now }
    requires steps { list_all is_setting_step steps.now ≡ true }
    ensures { (ceiling : ℕ) → OnOk result (entries.new.items ≡ entries.old.items ++ flat_map (differing_at state.now ceiling (after_all None steps.now state.now) ceiling) (keys_of fabric)) }
{
    set_rows_stand_in_order();
    set_entries_stand_in_order();
    if !is_named(fabric, steps) {
        return Ok(());
    }
    push_entries_of(alloc, fabric, state, steps, entries)?;
    push_rows_of(alloc, fabric, state, steps, entries)
}

fn is_named(fabric: u8, steps: &[NodeStep]) -> bool
    ensures { result ≡ list_any (names_fabric fabric) steps.now }
{
    steps.iter().any(|step| names_fabric(fabric, step))
}

fn names_fabric(fabric: u8, step: &NodeStep) -> bool
    ensures { result ≡ names_fabric fabric step.now }
{
    match step {
        NodeStep::SetRow { fabric: whose, .. } => *whose == fabric,
        NodeStep::SetEntries { fabric: whose, .. } => *whose == fabric,
        _ => false,
    }
}

// A fabric's entries of the access control list.
fn push_entries_of(
    alloc: Global,
    fabric: u8,
    state: &NodeState,
    steps: &[NodeStep],
    entries: &mut Vec<Entry>,
) -> Result<(), AllocError>
    requires valid { IsValid state.now }
    requires steps { list_all is_setting_step steps.now ≡ true }
    ensures { (ceiling : ℕ) → OnOk result (entries.new.items ≡ entries.old.items ++ differing_at state.now ceiling (after_all None steps.now state.now) ceiling (Items fabric acl_place)) }
{
    set_entries_stand_in_order();
    let Some(new) = latest_entries(steps, fabric) else {
        return Ok(());
    };
    let old = array_if(alloc, entries_of(state.entries.as_slice(), fabric))?;
    let new = array_if(alloc, new.as_slice())?;
    let key = Key::Items {
        fabric,
        place: ACL_PLACE,
    };
    push_differing(alloc, &key, old, new, entries)
}

// Its items of the other lists, which are rows.
fn push_rows_of(
    alloc: Global,
    fabric: u8,
    state: &NodeState,
    steps: &[NodeStep],
    entries: &mut Vec<Entry>,
) -> Result<(), AllocError>
    requires valid { IsValid state.now }
    requires steps { list_all is_setting_step steps.now ≡ true }
    ensures { (ceiling : ℕ) → OnOk result (entries.new.items ≡ entries.old.items ++ flat_map (λ place. differing_at state.now ceiling (after_all None steps.now state.now) ceiling (Items fabric place)) item_places) }
{
    let places = item_places();
    for place in places {
        push_rows_at(alloc, fabric, place, state, steps, entries)?;
    }
    Ok(())
}

fn push_rows_at(
    alloc: Global,
    fabric: u8,
    place: &Place,
    state: &NodeState,
    steps: &[NodeStep],
    entries: &mut Vec<Entry>,
) -> Result<(), AllocError>
    requires valid { IsValid state.now }
    requires steps { list_all is_setting_step steps.now ≡ true }
    requires place { same_place place.now acl_place ≡ false }
    ensures { (ceiling : ℕ) → OnOk result (entries.new.items ≡ entries.old.items ++ differing_at state.now ceiling (after_all None steps.now state.now) ceiling (Items fabric place.now)) }
{
    set_rows_stand_in_order();
    let Some(values) = latest_row(steps, place, fabric) else {
        return Ok(());
    };
    let old = array_if(alloc, state.rows.of(place, fabric))?;
    let new = array_if(alloc, values.as_slice())?;
    let key = Key::Items {
        fabric,
        place: *place,
    };
    push_differing(alloc, &key, old, new, entries)
}
