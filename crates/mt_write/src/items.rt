//! The items of a written list: as what they are kept, or which status refuses them.

ghost use Rattle.std.specs.Prelude.{◌≡◌, ◌++◌, ◌==◌, ℕ, List, Bool, IfOk, OnOk, Option, Some};
ghost use Rattle.std.specs.Option.{option_map};
ghost use Rattle.mt_tlv.specs.Tree.{Tree, none, more};
ghost use Rattle.mt_tlv.specs.declared.value.Tag.TheVariants.{Anonymous};
ghost use Rattle.mt_tlv.specs.View.{elements, tree};
ghost use Rattle.mt_model.specs.Trees.{field_in};
ghost use Rattle.mt_meta.specs.declared.rows.Field.{Field};
ghost use Rattle.mt_write.specs.Entries.{kept_entry};
ghost use Rattle.mt_meta.specs.Fields.{is_fabric_index};
ghost use Rattle.mt_write.specs.Items.{given_items, is_append, kept_each, kept_fields, kept_item, kept_value, new_items, tagged, with_room};

use crate::entries::keep_entry;
use mt_meta::{Field, Form, are_items, are_within, is_item};
use mt_model::{AclEntry, Index, Listed, Status, field, structure_of};
use mt_tlv::{Members, Tag, Value, values_are_trees};
use std::alloc::{AllocError, Global};

/// What the items of a list are kept as.
pub(crate) trait ListItem: Sized {
    /// What an item is kept as, by the fields of its kind and the writer's fabric; None where it
    /// breaks a rule.
    ghost kept_as: { List Field → ℕ → Tree → Option Self };

    /// What an item is kept as.
    fn keep(
        alloc: Global,
        fields: &[Field],
        fabric: u8,
        item: &Value,
    ) -> Result<Option<Self>, AllocError>
        ensures { IfOk result (λ kept. kept ≡ kept_as fields.now fabric (tree item.now)) };
}

impl ListItem for Value {
    ghost kept_as = { kept_item };

    fn keep(
        alloc: Global,
        fields: &[Field],
        fabric: u8,
        item: &Value,
    ) -> Result<Option<Value>, AllocError> {
        keep_item(alloc, fields, fabric, item)
    }
}

impl ListItem for AclEntry {
    ghost kept_as = { λ _. kept_entry };

    fn keep(
        alloc: Global,
        _fields: &[Field],
        fabric: u8,
        item: &Value,
    ) -> Result<Option<AclEntry>, AllocError> {
        keep_entry(alloc, fabric, item)
    }
}

fn keep_item(
    alloc: Global,
    fields: &[Field],
    fabric: u8,
    item: &Value,
) -> Result<Option<Value>, AllocError>
    ensures { IfOk result (λ kept. kept ≡ kept_item fields.now fabric (tree item.now)) }
{
    let Some(members) = structure_of(item) else {
        return Ok(None);
    };
    if !are_within(fields, members) {
        return Ok(None);
    }
    let kept = keep_fields(alloc, fabric, fields, members)?;
    Ok(Some(Value::Struct(Members::from_vec(kept))))
}

// The named fields alone.
fn keep_fields(
    alloc: Global,
    fabric: u8,
    fields: &[Field],
    members: &[(Tag, Value)],
) -> Result<Vec<(Tag, Value)>, AllocError>
    ensures { IfOk result (λ kept. kept.items ≡ kept_fields fabric fields.now (elements members.now)) }
{
    let mut kept = Vec::new(alloc);
    for row in fields {
        let value = keep_field(fabric, row, members)?;
        push_tagged(row.number, value, &mut kept)?;
    }
    Ok(kept)
}

fn push_tagged(
    number: u8,
    value: Option<Value>,
    kept: &mut Vec<(Tag, Value)>,
) -> Result<(), AllocError>
    ensures { OnOk result (kept.new.items ≡ kept.old.items ++ tagged number value) }
{
    if let Some(value) = value {
        kept.push((Tag::Context(number), value))?;
    }
    Ok(())
}

// Whose an item is is kept as the writer's fabric, whatever it says.
fn keep_field(
    fabric: u8,
    row: &Field,
    members: &[(Tag, Value)],
) -> Result<Option<Value>, AllocError>
    ensures { IfOk result (λ kept. kept ≡ kept_value fabric row.now.form (field_in row.now.number (elements members.now))) }
{
    if is_fabric_index(row.form) {
        return Ok(Some(Value::Uint(fabric as u64)));
    }
    values_are_trees();
    match field(members, row.number) {
        Some(value) => Ok(Some(value.copy()?)),
        None => Ok(None),
    }
}

fn is_fabric_index(form: Form) -> bool
    ensures { result ≡ is_fabric_index form }
{
    form == Form::FabricIndex
}

/// The new items of a list in which there is room for so many: one that is appended, or those of an
/// array. The types of all are asked before the limits of any.
pub(crate) fn new_items<T: ListItem + Drop>(
    alloc: Global,
    fields: &[Field],
    fabric: u8,
    room: usize,
    index: Index,
    value: &Value,
) -> Result<Result<Listed<T>, Status>, AllocError>
    ensures { IfOk result (λ items. items ≡ new_items (T.kept_as fields.now fabric) fields.now room (given_items index value.now)) }
{
    if is_append(index) {
        return appended(alloc, fields, fabric, room, value);
    }
    match value {
        Value::Array(items) => replaced(alloc, fields, fabric, room, items.as_slice()),
        _ => Ok(Err(Status::InvalidDataType)),
    }
}

pub(crate) fn is_append(index: Index) -> bool
    ensures { result ≡ is_append index }
{
    index == Index::Append
}

#[tactic(auto, unfolding(crate::specs::Items::kept_each))]
fn appended<T: ListItem + Drop>(
    alloc: Global,
    fields: &[Field],
    fabric: u8,
    room: usize,
    item: &Value,
) -> Result<Result<Listed<T>, Status>, AllocError>
    ensures { IfOk result (λ items. items ≡ new_items (T.kept_as fields.now fabric) fields.now room (Some (more Anonymous (tree item.now) none))) }
{
    if !is_item(fields, item) {
        return Ok(Err(Status::InvalidDataType));
    }
    match with_room(room, T::keep(alloc, fields, fabric, item)?) {
        Ok(kept) => {
            let mut items = Listed::new(alloc);
            items.push(kept)?;
            Ok(Ok(items))
        },
        Err(status) => Ok(Err(status)),
    }
}

fn replaced<T: ListItem + Drop>(
    alloc: Global,
    fields: &[Field],
    fabric: u8,
    room: usize,
    items: &[(Tag, Value)],
) -> Result<Result<Listed<T>, Status>, AllocError>
    ensures { IfOk result (λ kept. kept ≡ new_items (T.kept_as fields.now fabric) fields.now room (Some (elements items.now))) }
{
    if !are_items(fields, items) {
        return Ok(Err(Status::InvalidDataType));
    }
    keep_each(alloc, fields, fabric, room, items)
}

fn keep_each<T: ListItem + Drop>(
    alloc: Global,
    fields: &[Field],
    fabric: u8,
    room: usize,
    items: &[(Tag, Value)],
) -> Result<Result<Listed<T>, Status>, AllocError>
    ensures { IfOk result (λ kept. kept ≡ kept_each (T.kept_as fields.now fabric) room (elements items.now)) }
{
    let mut kept = Listed::new(alloc);
    let mut left = room;
    for item in items {
        match with_room(left, T::keep(alloc, fields, fabric, &item.1)?) {
            Ok(one) => kept.push(one)?,
            Err(status) => return Ok(Err(status)),
        }
        left = left.saturating_sub(1);
    }
    Ok(Ok(kept))
}

// An item breaks a limit, or finds no room.
fn with_room<T: Drop>(room: usize, kept: Option<T>) -> Result<T, Status>
    ensures { result ≡ with_room room kept }
{
    let Some(kept) = kept else {
        return Err(Status::ConstraintError);
    };
    if room == 0 {
        return Err(Status::ResourceExhausted);
    }
    Ok(kept)
}
