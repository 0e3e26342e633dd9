//! Values of attributes that are kept, and items of lists and group key sets.

ghost use Rattle.std.specs.Prelude.{◌≡◌, ◌∷◌, [], false, Some, IfOk, bytes_eq, is_ok, option_copied};
ghost use Rattle.mt_tlv.specs.Tree as trees;
ghost use Rattle.mt_tlv.specs.View.{elements, tree};
ghost use Rattle.mt_tlv.specs.declared.value.Value.TheVariants as values;
ghost use Rattle.mt_meta.specs.Finding.{find_of};
ghost use Rattle.mt_meta.specs.Stored.{row_in};
ghost use Rattle.mt_meta.specs.declared.rows.FirstValue.TheVariants as first;
ghost use Rattle.mt_grammar.specs.Fields.{if_some};
ghost use Rattle.mt_grammar.specs.Values.{has_items, if_few, is_acl, is_first, is_first_at, is_single, is_value, item_in, items_in, may_stand, may_stand_in, table_row};

use crate::fields::{array_in, is_null};
use crate::forms::has_form;
use crate::kept::KeptRows;
use mt_meta::{AttributeRow, FirstValue, Kind, Meta, Origin, attributes_of, find};
use mt_model::{Place, Row};
use mt_rules::each;
use mt_tlv::{Tag, Value};
use std::alloc::{AllocError, Global};

// The row of the table for an attribute that is there; none that every cluster has is kept, nor one above those.
fn table_row(place: &Place) -> Option<&'static AttributeRow>
    ensures { option_copied result ≡ table_row place.now }
{
    if is_there(place) {
        return row_among(attributes_of(place.cluster), place.leaf);
    }
    None
}

fn is_there(place: &Place) -> bool
    ensures { result ≡ is_ok (find_of place.now) }
{
    find(place).is_ok()
}

fn row_among(rows: &'static [AttributeRow], leaf: u32) -> Option<&'static AttributeRow>
    ensures { option_copied result ≡ row_in rows.now leaf }
{
    rows.iter().find(|row| row.number == leaf)
}

/// Whether the items of an attribute are access control entries.
pub(crate) fn is_acl(kind: Kind) -> bool
    ensures { result ≡ is_acl kind }
{
    match kind {
        Kind::Acl => true,
        _ => false,
    }
}

fn is_single(meta: &Meta) -> bool
    ensures { result ≡ is_single meta.now }
{
    meta.kept && !meta.scoped && !is_acl(meta.kind)
}

/// Whether items are kept, which are rows or entries.
pub(crate) fn has_items(meta: &Meta) -> bool
    ensures { result ≡ has_items meta.now }
{
    meta.kept && meta.scoped
}

/// Whether a value may stand under the key of a place.
pub(crate) fn may_stand(place: &Place, value: &Value) -> bool
    ensures { result ≡ may_stand place.now value.now }
{
    match table_row(place) {
        Some(row) => may_stand_in(row, value),
        None => false,
    }
}

fn may_stand_in(row: &AttributeRow, value: &Value) -> bool
    ensures { result ≡ may_stand_in (Some row.now) value.now }
{
    is_single(&row.meta) && has_form(&row.meta, 0, value) && !is_first(row.origin, value)
}

/// Whether the attribute of a place begins on a new node with this value, which then has no key.
pub fn is_first_at(place: &Place, value: &Value) -> bool
    ensures { result ≡ is_first_at place.now value.now }
{
    match table_row(place) {
        Some(row) => is_first(row.origin, value),
        None => false,
    }
}

// Whether a value is the one with which an attribute begins.
fn is_first(origin: Origin, value: &Value) -> bool
    ensures { result ≡ is_first origin (tree value.now) }
{
    match origin {
        Origin::Stored(first) => is_value(first, value),
        Origin::Computed | Origin::StoredItems => false,
    }
}

fn is_value(first: FirstValue, value: &Value) -> bool
    ensures { result ≡ is_value first (tree value.now) }
{
    match first {
        FirstValue::Bool(truth) => is_truth(truth, value),
        FirstValue::Uint(number) => is_number(number, value),
        FirstValue::Null => is_null(value),
        FirstValue::EmptyText => is_empty_text(value),
        FirstValue::Country(a, b) => is_country(a, b, value),
        FirstValue::EmptyArray => is_empty_array(value),
    }
}

fn is_truth(truth: bool, value: &Value) -> bool
    ensures { result ≡ is_value (first.Bool truth) (tree value.now) }
{
    match value {
        Value::Bool(other) => is_same(truth, *other),
        _ => false,
    }
}

fn is_same(truth: bool, other: bool) -> bool
    ensures { result ≡ is_value (first.Bool truth) (trees.bool other) }
{
    if truth { other } else { !other }
}

fn is_number(number: u64, value: &Value) -> bool
    ensures { result ≡ is_value (first.Uint number) (tree value.now) }
{
    match value {
        Value::Uint(other) => *other == number,
        _ => false,
    }
}

fn is_empty_text(value: &Value) -> bool
    ensures { result ≡ is_value first.EmptyText (tree value.now) }
{
    match value {
        Value::Text(text) => text.as_slice().len() == 0,
        _ => false,
    }
}

fn is_country(a: u8, b: u8, value: &Value) -> bool
    ensures { result ≡ is_value (first.Country a b) (tree value.now) }
{
    match value {
        Value::Text(text) => are_letters(a, b, text.as_slice()),
        _ => false,
    }
}

fn are_letters(a: u8, b: u8, text: &[u8]) -> bool
    ensures { result ≡ bytes_eq text.now (a ∷ b ∷ []) }
{
    text == [a, b].as_slice()
}

fn is_empty_array(value: &Value) -> bool
    ensures { result ≡ is_value first.EmptyArray (tree value.now) }
{
    match value {
        Value::Array(members) => is_empty(members.as_slice()),
        _ => false,
    }
}

#[tactic(auto, using(crate::proofs::Elements::count_of_elements))]
fn is_empty(members: &[(Tag, Value)]) -> bool
    ensures { result ≡ is_value first.EmptyArray (trees.array (elements members.now)) }
{
    members.len() == 0
}

/// The items of a fabric as rows, None where the value is no such items.
pub(crate) fn items_in(
    alloc: Global,
    place: &Place,
    fabric: u8,
    meta: &Meta,
    value: &Value,
) -> Result<Option<KeptRows>, AllocError>
    requires { is_acl meta.now.kind ≡ false }
    ensures { IfOk result (λ rows. rows ≡ items_in place.now fabric meta.now (tree value.now)) }
{
    let Some(members) = array_in(value) else {
        return Ok(None);
    };
    let Some(rows) = each(alloc, members, |item| item_in(place, fabric, meta, item))? else {
        return Ok(None);
    };
    Ok(if_few(meta.limit, rows))
}

// As many rows as a fabric may have, unless there are none.
fn if_few(most: u16, rows: KeptRows) -> Option<KeptRows>
    ensures { result ≡ if_few most (if_some (Some rows)) }
{
    if rows.len() >= 1 && rows.len() <= most as usize {
        return Some(rows);
    }
    None
}

// An item of a fabric as a row.
fn item_in(place: &Place, fabric: u8, meta: &Meta, item: &Value) -> Result<Option<Row>, AllocError>
    requires { is_acl meta.now.kind ≡ false }
    ensures { IfOk result (λ row. row ≡ item_in place.now fabric meta.now (tree item.now)) }
{
    match item {
        Value::Struct(members) => if_item(place, fabric, meta, item, members.as_slice()),
        _ => Ok(None),
    }
}

// A structure of these members as a row, if it is an item of the fabric.
fn if_item(
    place: &Place,
    fabric: u8,
    meta: &Meta,
    item: &Value,
    members: &[(Tag, Value)],
) -> Result<Option<Row>, AllocError>
    requires row { is_acl meta.now.kind ≡ false }
    requires members { item.now ≡ values.Struct (elements members.now) }
    ensures { IfOk result (λ row. row ≡ item_in place.now fabric meta.now (tree item.now)) }
{
    if !has_form(meta, fabric, item) {
        return Ok(None);
    }
    Ok(Some(Row {
        place: *place,
        fabric,
        value: item.copy()?,
    }))
}
