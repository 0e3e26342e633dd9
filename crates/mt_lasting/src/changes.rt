//! What changes of the durable map from one state to the next. Parts that are told to be the same are left out at once: nothing is
//! made of them.

ghost use Rattle.std.specs.Prelude.{◌≡◌, ℕ, [], ◌∷◌, false, IfOk, IsTrue, OnOk, ◌++◌};
ghost use Rattle.std.specs.List.{flat_map};
ghost use Rattle.mt_model.specs.rows.Sight.{same_place};
ghost use Rattle.mt_grammar.specs.declared.keys.Key.TheVariants.{Fabric as FabricKey, Failsafe, Items, Networks, Roots, Single};
ghost use Rattle.mt_machine.specs.State.{IsValid};
ghost use Rattle.mt_lasting.specs.Changes.{are_same, change_between, differing, differing_under, is_same_value, rows_at_each, with_value};
ghost use Rattle.mt_lasting.specs.Keys.{acl_place, indexes, item_places, keys_of, single_places};

use crate::equal::{are_equal, have_equal_fabric, have_equal_failsafe};
use crate::keys::{ACL_PLACE, indexes, item_places, key_bytes, single_places};
use crate::laws::{changes_lead_on, raised_ceilings_come_first, same_values_are_equal};
use crate::values::value_at;
use mt_durable::{Change, Entry};
use mt_grammar::Key;
use mt_model::{NodeState, Place, entries_of};
use mt_tlv::Value;
use std::alloc::{AllocError, Global};

/// What changes of the durable map from a state to another, where the ceiling of event numbers stays, whatever it is. It takes
/// memory for the values of keys of parts that differ, and for no others.
pub fn change_to(
    alloc: Global,
    before: &NodeState,
    behind: &NodeState,
) -> Result<Change, AllocError>
    requires before { IsValid before.now }
    requires behind { IsValid behind.now }
    ensures { (ceiling : ℕ) → IfOk result (λ change. change ≡ change_between before.now ceiling behind.now ceiling) }
{
    changes_lead_on();
    raised_ceilings_come_first();
    let entries = entries_to(alloc, before, behind)?;
    Ok(Change::from_vec(entries))
}

// The entries of that change, in the order of keys.
fn entries_to(
    alloc: Global,
    before: &NodeState,
    behind: &NodeState,
) -> Result<Vec<Entry>, AllocError>
    requires before { IsValid before.now }
    requires behind { IsValid behind.now }
    ensures { IfOk result (λ entries. entries.items ≡ change_between before.now 0 behind.now 0) }
{
    let mut entries = Vec::new(alloc);
    push_at(alloc, &Key::Boot, before, behind, &mut entries)?;
    push_singles(alloc, before, behind, &mut entries)?;
    push_items(alloc, before, behind, &mut entries)?;
    push_fabrics(alloc, before, behind, &mut entries)?;
    push_last(alloc, before, behind, &mut entries)?;
    Ok(entries)
}

// What changes under a key. The values of both states are made for it.
fn push_at(
    alloc: Global,
    key: &Key,
    before: &NodeState,
    behind: &NodeState,
    entries: &mut Vec<Entry>,
) -> Result<(), AllocError>
    requires before { IsValid before.now }
    requires behind { IsValid behind.now }
    ensures { OnOk result (entries.new.items ≡ entries.old.items ++ differing_under before.now behind.now key.now) }
{
    let old = value_at(alloc, key, before, 0)?;
    let new = value_at(alloc, key, behind, 0)?;
    push_differing(alloc, key, old, new, entries)
}

fn push_singles(
    alloc: Global,
    before: &NodeState,
    behind: &NodeState,
    entries: &mut Vec<Entry>,
) -> Result<(), AllocError>
    requires before { IsValid before.now }
    requires behind { IsValid behind.now }
    ensures { OnOk result (entries.new.items ≡ entries.old.items ++ flat_map (λ place. differing_under before.now behind.now (Single place)) single_places) }
{
    let places = single_places();
    for place in places {
        push_single(alloc, place, before, behind, entries)?;
    }
    Ok(())
}

fn push_single(
    alloc: Global,
    place: &Place,
    before: &NodeState,
    behind: &NodeState,
    entries: &mut Vec<Entry>,
) -> Result<(), AllocError>
    requires before { IsValid before.now }
    requires behind { IsValid behind.now }
    ensures { OnOk result (entries.new.items ≡ entries.old.items ++ differing_under before.now behind.now (Single place.now)) }
{
    if are_equal(before.rows.at(place), behind.rows.at(place)) {
        return Ok(());
    }
    push_at(
        alloc,
        &Key::Single { place: *place },
        before,
        behind,
        entries,
    )
}

// The items of all fabrics, at once where none of them has changed.
fn push_items(
    alloc: Global,
    before: &NodeState,
    behind: &NodeState,
    entries: &mut Vec<Entry>,
) -> Result<(), AllocError>
    requires before { IsValid before.now }
    requires behind { IsValid behind.now }
    ensures { OnOk result (entries.new.items ≡ entries.old.items ++ flat_map (λ fabric. flat_map (differing_under before.now behind.now) (keys_of fabric)) indexes) }
{
    if have_equal_items(before, behind) {
        return Ok(());
    }
    let fabrics = indexes();
    for fabric in fabrics {
        push_items_of(alloc, *fabric, before, behind, entries)?;
    }
    Ok(())
}

fn have_equal_items(before: &NodeState, behind: &NodeState) -> bool
    ensures entries { IsTrue result → before.now.entries ≡ behind.now.entries }
    ensures rows { IsTrue result → rows_at_each item_places before.now.rows ≡ rows_at_each item_places behind.now.rows }
{
    are_equal(before.entries.as_slice(), behind.entries.as_slice())
        && have_equal_rows(item_places(), before, behind)
}

fn have_equal_rows(places: &[Place], before: &NodeState, behind: &NodeState) -> bool
    ensures { IsTrue result → rows_at_each places.now before.now.rows ≡ rows_at_each places.now behind.now.rows }
{
    for place in places {
        if !are_equal(before.rows.at(place), behind.rows.at(place)) {
            return false;
        }
    }
    true
}

fn push_items_of(
    alloc: Global,
    fabric: u8,
    before: &NodeState,
    behind: &NodeState,
    entries: &mut Vec<Entry>,
) -> Result<(), AllocError>
    requires before { IsValid before.now }
    requires behind { IsValid behind.now }
    ensures { OnOk result (entries.new.items ≡ entries.old.items ++ flat_map (differing_under before.now behind.now) (keys_of fabric)) }
{
    push_entries_of(alloc, fabric, before, behind, entries)?;
    push_rows_of(alloc, fabric, before, behind, entries)
}

// A fabric's entries of the access control list.
fn push_entries_of(
    alloc: Global,
    fabric: u8,
    before: &NodeState,
    behind: &NodeState,
    entries: &mut Vec<Entry>,
) -> Result<(), AllocError>
    requires before { IsValid before.now }
    requires behind { IsValid behind.now }
    ensures { OnOk result (entries.new.items ≡ entries.old.items ++ differing_under before.now behind.now (Items fabric acl_place)) }
{
    let mine = entries_of(before.entries.as_slice(), fabric);
    let others = entries_of(behind.entries.as_slice(), fabric);
    if are_equal(mine, others) {
        return Ok(());
    }
    let key = Key::Items {
        fabric,
        place: ACL_PLACE,
    };
    push_at(alloc, &key, before, behind, entries)
}

// Its items of the other lists, which are rows.
fn push_rows_of(
    alloc: Global,
    fabric: u8,
    before: &NodeState,
    behind: &NodeState,
    entries: &mut Vec<Entry>,
) -> Result<(), AllocError>
    requires before { IsValid before.now }
    requires behind { IsValid behind.now }
    ensures { OnOk result (entries.new.items ≡ entries.old.items ++ flat_map (λ place. differing_under before.now behind.now (Items fabric place)) item_places) }
{
    let places = item_places();
    for place in places {
        push_rows_at(alloc, fabric, place, before, behind, entries)?;
    }
    Ok(())
}

fn push_rows_at(
    alloc: Global,
    fabric: u8,
    place: &Place,
    before: &NodeState,
    behind: &NodeState,
    entries: &mut Vec<Entry>,
) -> Result<(), AllocError>
    requires before { IsValid before.now }
    requires behind { IsValid behind.now }
    requires place { same_place place.now acl_place ≡ false }
    ensures { OnOk result (entries.new.items ≡ entries.old.items ++ differing_under before.now behind.now (Items fabric place.now)) }
{
    if are_equal(before.rows.of(place, fabric), behind.rows.of(place, fabric)) {
        return Ok(());
    }
    let key = Key::Items {
        fabric,
        place: *place,
    };
    push_at(alloc, &key, before, behind, entries)
}

// The fabrics, at once where none of them has changed.
fn push_fabrics(
    alloc: Global,
    before: &NodeState,
    behind: &NodeState,
    entries: &mut Vec<Entry>,
) -> Result<(), AllocError>
    requires before { IsValid before.now }
    requires behind { IsValid behind.now }
    ensures { OnOk result (entries.new.items ≡ entries.old.items ++ flat_map (λ index. differing_under before.now behind.now (FabricKey index)) indexes) }
{
    if are_equal(before.fabrics.as_slice(), behind.fabrics.as_slice()) {
        return Ok(());
    }
    let fabrics = indexes();
    for index in fabrics {
        push_fabric(alloc, *index, before, behind, entries)?;
    }
    Ok(())
}

fn push_fabric(
    alloc: Global,
    index: u8,
    before: &NodeState,
    behind: &NodeState,
    entries: &mut Vec<Entry>,
) -> Result<(), AllocError>
    requires before { IsValid before.now }
    requires behind { IsValid behind.now }
    ensures { OnOk result (entries.new.items ≡ entries.old.items ++ differing_under before.now behind.now (FabricKey index)) }
{
    if have_equal_fabric(index, before.fabrics.as_slice(), behind.fabrics.as_slice()) {
        return Ok(());
    }
    push_at(alloc, &Key::Fabric { index }, before, behind, entries)
}

// Roots, networks and the fail-safe.
fn push_last(
    alloc: Global,
    before: &NodeState,
    behind: &NodeState,
    entries: &mut Vec<Entry>,
) -> Result<(), AllocError>
    requires before { IsValid before.now }
    requires behind { IsValid behind.now }
    ensures { OnOk result (entries.new.items ≡ entries.old.items ++ flat_map (differing_under before.now behind.now) (Roots ∷ Networks ∷ Failsafe ∷ [])) }
{
    push_roots(alloc, before, behind, entries)?;
    push_networks(alloc, before, behind, entries)?;
    push_failsafe(alloc, before, behind, entries)
}

fn push_roots(
    alloc: Global,
    before: &NodeState,
    behind: &NodeState,
    entries: &mut Vec<Entry>,
) -> Result<(), AllocError>
    requires before { IsValid before.now }
    requires behind { IsValid behind.now }
    ensures { OnOk result (entries.new.items ≡ entries.old.items ++ differing_under before.now behind.now Roots) }
{
    if are_equal(before.roots.as_slice(), behind.roots.as_slice()) {
        return Ok(());
    }
    push_at(alloc, &Key::Roots, before, behind, entries)
}

fn push_networks(
    alloc: Global,
    before: &NodeState,
    behind: &NodeState,
    entries: &mut Vec<Entry>,
) -> Result<(), AllocError>
    requires before { IsValid before.now }
    requires behind { IsValid behind.now }
    ensures { OnOk result (entries.new.items ≡ entries.old.items ++ differing_under before.now behind.now Networks) }
{
    if are_equal(before.networks.as_slice(), behind.networks.as_slice()) {
        return Ok(());
    }
    push_at(alloc, &Key::Networks, before, behind, entries)
}

fn push_failsafe(
    alloc: Global,
    before: &NodeState,
    behind: &NodeState,
    entries: &mut Vec<Entry>,
) -> Result<(), AllocError>
    requires before { IsValid before.now }
    requires behind { IsValid behind.now }
    ensures { OnOk result (entries.new.items ≡ entries.old.items ++ differing_under before.now behind.now Failsafe) }
{
    if have_equal_failsafe(&before.armed, &behind.armed) {
        return Ok(());
    }
    push_at(alloc, &Key::Failsafe, before, behind, entries)
}

/// Says of a key what a change says where the first value was under it and the second is: nothing where they are the same.
pub(crate) fn push_differing(
    alloc: Global,
    key: &Key,
    old: Option<Value>,
    new: Option<Value>,
    entries: &mut Vec<Entry>,
) -> Result<(), AllocError>
    ensures { OnOk result (entries.new.items ≡ entries.old.items ++ differing key.now old new) }
{
    if are_same(&old, &new) {
        return Ok(());
    }
    entries.push(Entry {
        key: key_bytes(alloc, key)?,
        value: new,
    })?;
    Ok(())
}

fn are_same(old: &Option<Value>, new: &Option<Value>) -> bool
    ensures { result ≡ are_same old.now new.now }
{
    match (old, new) {
        (Some(old), Some(new)) => is_same_value(old, new),
        (None, None) => true,
        _ => false,
    }
}

fn is_same_value(value: &Value, other: &Value) -> bool
    ensures { result ≡ is_same_value value.now other.now }
{
    same_values_are_equal();
    value.equals(other)
}
