//! The values behind an item: one that replaces what is there, or what is there with the items of a list.

ghost use Rattle.std.specs.Prelude.{◌≡◌, ◌++◌, ◌==◌, ◌∷◌, [], IfOk, OnOk, filter, length, map};
ghost use Rattle.mt_tlv.specs.View.{elements, tree};
ghost use Rattle.mt_tlv.specs.declared.value.Value.{Value};
ghost use Rattle.mt_model.specs.rows.Seen.{own_entries};
ghost use Rattle.mt_model.specs.declared.rows.place.Row.{Row};
ghost use Rattle.mt_meta.specs.Table.{fields_of};
ghost use Rattle.mt_meta.specs.Writable.{takes_of};
ghost use Rattle.mt_write.specs.Items.{kept_item};
ghost use Rattle.mt_write.specs.Latest.{entries_now, rows_now};
ghost use Rattle.mt_write.specs.Writing.{array_of, array_with, behind, elements_in, list_with, members_of, new_rows, new_value, own_values, rows_with, staying, with_items};

use crate::items::{ListItem, is_append, new_items};
use crate::latest::{latest_entries, latest_row};
use mt_meta::{Form, Meta, Takes, fields_of, has_type, is_within, takes};
use mt_model::{
    AclEntries, AclEntry, ExactCopy, Index, Listed, NodeStep, Place, Row, Rows, Sight, Status,
    Values, WriteItem,
};
use mt_tlv::{Members, Tag, Value};
use std::alloc::{AllocError, Global};

/// The rows of a fabric at a place behind an item, which finds there what the steps before it leave.
pub(crate) fn new_rows<S: Sight>(
    alloc: Global,
    sight: &S,
    steps: &[NodeStep],
    item: &WriteItem,
    place: &Place,
    meta: &Meta,
    fabric: u8,
) -> Result<Result<Values, Status>, AllocError>
    ensures { IfOk result (λ rows. rows ≡ new_rows meta.now (takes_of place.now) fabric item.now.path.index item.now.value
        (rows_now place.now fabric steps.now (own_values fabric (S.rows_of sight.now place.now)))) }
{
    match takes(place) {
        Some(Takes::Value(form)) => new_value(alloc, form, item.path.index, &item.value),
        Some(Takes::Items) => {
            let there = staying_rows(alloc, sight, steps, item.path.index, place, fabric)?;
            rows_with(alloc, meta, fabric, item.path.index, &item.value, there)
        },
        Some(Takes::Nothing) => Ok(Err(Status::InvalidDataType)),
        None => Ok(Err(Status::InvalidDataType)),
    }
}

// A value that is no list.
fn new_value(
    alloc: Global,
    form: Form,
    index: Index,
    value: &Value,
) -> Result<Result<Values, Status>, AllocError>
    ensures { IfOk result (λ rows. rows ≡ new_value form index value.now) }
{
    if is_append(index) || !has_type(form, value) {
        return Ok(Err(Status::InvalidDataType));
    }
    if !is_within(form, value) {
        return Ok(Err(Status::ConstraintError));
    }
    Ok(Ok(one(alloc, value.copy()?)?))
}

fn one(alloc: Global, value: Value) -> Result<Values, AllocError>
    ensures { IfOk result (λ values. values ≡ value ∷ []) }
{
    let mut values = Values::new(alloc);
    values.push(value)?;
    Ok(values)
}

// The rows that stay where one is appended; none where they are replaced.
fn staying_rows<S: Sight>(
    alloc: Global,
    sight: &S,
    steps: &[NodeStep],
    index: Index,
    place: &Place,
    fabric: u8,
) -> Result<Values, AllocError>
    ensures { IfOk result (λ there. there ≡ staying index (rows_now place.now fabric steps.now (own_values fabric (S.rows_of sight.now place.now)))) }
{
    if !is_append(index) {
        return Ok(Values::new(alloc));
    }
    rows_now(alloc, sight, steps, place, fabric)
}

fn rows_now<S: Sight>(
    alloc: Global,
    sight: &S,
    steps: &[NodeStep],
    place: &Place,
    fabric: u8,
) -> Result<Values, AllocError>
    ensures { IfOk result (λ rows. rows ≡ rows_now place.now fabric steps.now (own_values fabric (S.rows_of sight.now place.now))) }
{
    match latest_row(steps, place, fabric) {
        Some(values) => values.copy(),
        None => own_values(alloc, fabric, sight.rows_at(place)?),
    }
}

fn own_values(alloc: Global, fabric: u8, rows: Rows) -> Result<Values, AllocError>
    ensures { IfOk result (λ values. values ≡ own_values fabric rows) }
{
    values_of(alloc, own_rows(fabric, rows))
}

fn own_rows(fabric: u8, rows: Rows) -> Vec<Row>
    ensures { result.items ≡ filter (λ (row : Row). row.fabric == fabric) rows }
{
    let mut rows = rows.into_vec();
    rows.retain(|row| row.fabric == fabric);
    rows
}

fn values_of(alloc: Global, rows: Vec<Row>) -> Result<Values, AllocError>
    ensures { IfOk result (λ values. values ≡ map (λ (row : Row). row.value) rows.items) }
{
    let mut values = Values::new(alloc);
    for row in rows {
        values.push(row.into_value())?;
    }
    Ok(values)
}

// The items of a list of which these rows stay.
fn rows_with(
    alloc: Global,
    meta: &Meta,
    fabric: u8,
    index: Index,
    value: &Value,
    there: Values,
) -> Result<Result<Values, Status>, AllocError>
    ensures { IfOk result (λ rows. rows ≡ rows_with meta.now fabric index value.now there) }
{
    if meta.scoped {
        return list_with(alloc, meta, fabric, index, value, there);
    }
    let there = members_of(alloc, there);
    array_with(alloc, meta, fabric, index, value, there)
}

/// These items and the new ones behind them.
pub(crate) fn list_with<T: ListItem + Drop>(
    alloc: Global,
    meta: &Meta,
    fabric: u8,
    index: Index,
    value: &Value,
    there: Listed<T>,
) -> Result<Result<Listed<T>, Status>, AllocError>
    ensures { IfOk result (λ items. items ≡ list_with (T.kept_as (fields_of meta.now.kind) fabric) meta.now index value.now there) }
{
    let room = (meta.limit as usize).saturating_sub(there.len());
    let items = new_items(alloc, fields_of(meta.kind), fabric, room, index, value)?;
    behind(there, items)
}

fn behind<T: Drop>(
    there: Listed<T>,
    items: Result<Listed<T>, Status>,
) -> Result<Result<Listed<T>, Status>, AllocError>
    ensures { IfOk result (λ all. all ≡ behind there items) }
{
    match items {
        Ok(items) => Ok(Ok(appended(there, items)?)),
        Err(status) => Ok(Err(status)),
    }
}

fn appended<T: Drop>(there: Listed<T>, items: Listed<T>) -> Result<Listed<T>, AllocError>
    ensures { IfOk result (λ all. all ≡ there ++ items) }
{
    let mut all = there;
    for item in items.into_vec() {
        all.push(item)?;
    }
    Ok(all)
}

// The members of a list that is one row.
fn members_of(alloc: Global, rows: Values) -> Vec<(Tag, Value)>
    ensures { elements result.items ≡ members_of rows }
{
    let mut rows = rows.into_vec().into_iter();
    match rows.next() {
        Some(row) => elements_in(alloc, row),
        None => Vec::new(alloc),
    }
}

fn elements_in(alloc: Global, value: Value) -> Vec<(Tag, Value)>
    ensures { elements result.items ≡ elements_in value }
{
    match value {
        Value::Array(members) => members.into_vec(),
        _ => Vec::new(alloc),
    }
}

// These members and the new ones behind them, as one row.
#[tactic(auto, using(crate::proofs::Elements::count_in_elements))]
fn array_with(
    alloc: Global,
    meta: &Meta,
    fabric: u8,
    index: Index,
    value: &Value,
    there: Vec<(Tag, Value)>,
) -> Result<Result<Values, Status>, AllocError>
    ensures { IfOk result (λ rows. rows ≡ array_with (kept_item (fields_of meta.now.kind) fabric) meta.now index value.now (elements there.items)) }
{
    let room = (meta.limit as usize).saturating_sub(there.len());
    let items = new_items(alloc, fields_of(meta.kind), fabric, room, index, value)?;
    array_of(alloc, there, items)
}

fn array_of(
    alloc: Global,
    there: Vec<(Tag, Value)>,
    items: Result<Values, Status>,
) -> Result<Result<Values, Status>, AllocError>
    ensures { IfOk result (λ rows. rows ≡ array_of (elements there.items) items) }
{
    match items {
        Ok(items) => {
            let all = with_items(there, items)?;
            Ok(Ok(one(alloc, Value::Array(Members::from_vec(all)))?))
        },
        Err(status) => Ok(Err(status)),
    }
}

fn with_items(there: Vec<(Tag, Value)>, items: Values) -> Result<Vec<(Tag, Value)>, AllocError>
    ensures { IfOk result (λ all. elements all.items ≡ with_items (elements there.items) items) }
{
    let mut all = there;
    for item in items.into_vec() {
        all.push((Tag::Anonymous, item))?;
    }
    Ok(all)
}

/// The entries of a fabric that stay where one is appended; none where they are replaced.
pub(crate) fn staying_entries<S: Sight>(
    alloc: Global,
    sight: &S,
    steps: &[NodeStep],
    index: Index,
    fabric: u8,
) -> Result<AclEntries, AllocError>
    ensures { IfOk result (λ there. there ≡ staying index (entries_now fabric steps.now (own_entries fabric (S.all_entries sight.now)))) }
{
    if !is_append(index) {
        return Ok(AclEntries::new(alloc));
    }
    match latest_entries(steps, fabric) {
        Some(entries) => entries.copy(),
        None => copied(alloc, sight.entries(fabric)),
    }
}

fn copied(alloc: Global, entries: &[AclEntry]) -> Result<AclEntries, AllocError>
    ensures { IfOk result (λ copied. copied ≡ entries.now) }
{
    let mut copied = AclEntries::new(alloc);
    for entry in entries {
        copied.push(entry.copy()?)?;
    }
    Ok(copied)
}
