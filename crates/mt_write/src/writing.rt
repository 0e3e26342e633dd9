//! The answer to a request, item by item.

ghost use Rattle.std.specs.Prelude.{◌≡◌, ◌++◌, ◌∷◌, [], Ok, IfOk, OnOk};
ghost use Rattle.mt_meta.specs.Table.{fields_of};
ghost use Rattle.mt_model.specs.messages.Blocks.{place_named};
ghost use Rattle.mt_model.specs.rows.Seen.{own_entries, seen_as};
ghost use Rattle.mt_model.specs.messages.Status.{code_of};
ghost use Rattle.mt_write.specs.Entries.{kept_entry};
ghost use Rattle.mt_write.specs.Latest.{entries_now, rows_now};
ghost use Rattle.mt_write.specs.Writing.{entries_step, entries_written, fabric_of, is_entry_list, item_step, own_values, row_step, rows_written, status_item, told_index, told_path, with_all, with_item, with_step, write_answer, written_at};

use crate::opening::opened;
use crate::values::{list_with, new_rows, staying_entries};
use mt_meta::{Kind, Meta};
use mt_model::{
    AclEntries, Actor, Index, Item, Items, NodeStep, Path, Place, Sight, Status, Steps, Values,
    WriteItem, Writes,
};
use std::alloc::{AllocError, Global};

/// A change of the node: steps, one after the other.
pub type Change = Steps;

/// The answer to a write.
#[derive(Drop)]
pub struct Written {
    /// What the items make of the node, one step for each that is not refused, in their order. A step is
    /// `SetRow` or, for the access control list, `SetEntries`.
    pub rows: Change,
    /// The status of each item under its path, in their order.
    pub statuses: Items,
}

/// What a write is answered, item by item in their order, and the change that it makes. `timed` says
/// whether the request was timed.
///
/// The first of these refuses an item: the writer is not granted the privilege of the table, asked of the
/// entries of `sight`, which no item of the request changes; the endpoint, the cluster or the attribute is
/// not there; the attribute is not writable, or the path names an item by a number; it takes a timed
/// request; the item asks for another data version; the value has another type, the items of a list each
/// among it; and then, item by item of the list, that it breaks a limit, and that there is no room.
///
/// An item touches what is the writer's own, or nobody's. It finds the values that the items before it
/// leave. An array replaces the writer's items of a list, and a null list index appends one.
pub fn write<S: Sight>(
    alloc: Global,
    sight: &S,
    actor: &Actor,
    items: &Writes,
    timed: bool,
) -> Result<Written, AllocError>
    ensures exact { let seen = seen_as actor.now.fabric (S.rows_of sight.now) (S.versions sight.now) (S.all_entries sight.now) in
        IfOk result (λ written. written ≡ write_answer seen actor.now items.now timed) }
{
    let mut written = Written {
        rows: Change::new(alloc),
        statuses: Items::new(alloc),
    };
    for item in items.as_slice() {
        push_item(alloc, sight, actor, timed, item, &mut written)?;
    }
    Ok(written)
}

fn push_item<S: Sight>(
    alloc: Global,
    sight: &S,
    actor: &Actor,
    timed: bool,
    item: &WriteItem,
    written: &mut Written,
) -> Result<(), AllocError>
    ensures { let seen = seen_as actor.now.fabric (S.rows_of sight.now) (S.versions sight.now) (S.all_entries sight.now) in
        OnOk result (written.new ≡ with_item seen actor.now timed written.old item.now) }
{
    let step = item_step(alloc, sight, actor, timed, written.rows.as_slice(), item)?;
    push_step(&item.path, step, written)
}

// An item that is refused changes nothing.
fn push_step(
    path: &Path,
    step: Result<NodeStep, Status>,
    written: &mut Written,
) -> Result<(), AllocError>
    ensures { OnOk result (written.new ≡ with_step written.old path.now step) }
{
    match step {
        Ok(step) => {
            written.rows.push(step)?;
            push_status(path, Status::Success, &mut written.statuses)
        },
        Err(status) => push_status(path, status, &mut written.statuses),
    }
}

fn push_status(path: &Path, status: Status, statuses: &mut Items) -> Result<(), AllocError>
    ensures { OnOk result (statuses.new ≡ statuses.old ++ status_item path.now status ∷ []) }
{
    statuses.push(Item::Refused {
        path: told_path(path),
        code: status.code(),
    })
}

// A path as a status tells it: a number that names one item of a list is not told again.
fn told_path(path: &Path) -> Path
    ensures { result ≡ told_path path.now }
{
    Path {
        index: told_index(path.index),
        ..*path
    }
}

fn told_index(index: Index) -> Index
    ensures { result ≡ told_index index }
{
    match index {
        Index::At(_) => Index::Whole,
        Index::Whole | Index::Append => index,
    }
}

// The step that an item makes behind these, or the status that refuses it.
fn item_step<S: Sight>(
    alloc: Global,
    sight: &S,
    actor: &Actor,
    timed: bool,
    steps: &[NodeStep],
    item: &WriteItem,
) -> Result<Result<NodeStep, Status>, AllocError>
    ensures { let seen = seen_as actor.now.fabric (S.rows_of sight.now) (S.versions sight.now) (S.all_entries sight.now) in
        IfOk result (λ step. step ≡ item_step seen actor.now timed steps.now item.now (place_named item.now.path)) }
{
    let Some(place) = item.path.place() else {
        return Ok(Err(Status::InvalidAction));
    };
    match opened(sight, actor, timed, item, &place) {
        Ok(meta) => write_at(alloc, sight, actor, steps, item, &place, &meta),
        Err(status) => Ok(Err(status)),
    }
}

// The step of an item that gets to its attribute.
fn write_at<S: Sight>(
    alloc: Global,
    sight: &S,
    actor: &Actor,
    steps: &[NodeStep],
    item: &WriteItem,
    place: &Place,
    meta: &Meta,
) -> Result<Result<NodeStep, Status>, AllocError>
    ensures { let seen = seen_as actor.now.fabric (S.rows_of sight.now) (S.versions sight.now) (S.all_entries sight.now) in
        IfOk result (λ step. step ≡ written_at seen actor.now steps.now item.now place.now (Ok meta.now)) }
{
    if is_entry_list(meta.kind) {
        return write_entries(alloc, sight, steps, item, meta, actor.fabric);
    }
    let fabric = fabric_of(actor, meta);
    write_rows(alloc, sight, steps, item, place, meta, fabric)
}

fn is_entry_list(kind: Kind) -> bool
    ensures { result ≡ is_entry_list kind }
{
    kind == Kind::Acl
}

// The writer's fabric where the attribute is scoped, and nobody otherwise.
fn fabric_of(actor: &Actor, meta: &Meta) -> u8
    ensures { result ≡ fabric_of actor.now meta.now }
{
    if meta.scoped {
        return actor.fabric;
    }
    0
}

fn write_rows<S: Sight>(
    alloc: Global,
    sight: &S,
    steps: &[NodeStep],
    item: &WriteItem,
    place: &Place,
    meta: &Meta,
    fabric: u8,
) -> Result<Result<NodeStep, Status>, AllocError>
    ensures { IfOk result (λ step. step ≡ rows_written item.now place.now meta.now fabric
        (rows_now place.now fabric steps.now (own_values fabric (S.rows_of sight.now place.now)))) }
{
    let rows = new_rows(alloc, sight, steps, item, place, meta, fabric)?;
    Ok(row_step(place, fabric, rows))
}

fn row_step(place: &Place, fabric: u8, rows: Result<Values, Status>) -> Result<NodeStep, Status>
    ensures { result ≡ row_step place.now fabric rows }
{
    match rows {
        Ok(values) => Ok(NodeStep::SetRow {
            place: *place,
            fabric,
            values,
        }),
        Err(status) => Err(status),
    }
}

fn write_entries<S: Sight>(
    alloc: Global,
    sight: &S,
    steps: &[NodeStep],
    item: &WriteItem,
    meta: &Meta,
    fabric: u8,
) -> Result<Result<NodeStep, Status>, AllocError>
    ensures { IfOk result (λ step. step ≡ entries_written item.now meta.now fabric
        (entries_now fabric steps.now (own_entries fabric (S.all_entries sight.now)))) }
{
    let there = staying_entries(alloc, sight, steps, item.path.index, fabric)?;
    let entries = list_with(alloc, meta, fabric, item.path.index, &item.value, there)?;
    Ok(entries_step(fabric, entries))
}

fn entries_step(fabric: u8, entries: Result<AclEntries, Status>) -> Result<NodeStep, Status>
    ensures { result ≡ entries_step fabric entries }
{
    match entries {
        Ok(entries) => Ok(NodeStep::SetEntries { fabric, entries }),
        Err(status) => Err(status),
    }
}
