//! Fields that are passed over, since nothing reads them: a list that is misspelt is one.

ghost use Rattle.std.specs.Prelude.{◌≡◌, IfOk, bytes_eq, filter, map, string_bytes};
ghost use Rattle.serde_json.specs.View.{members_view, view};
ghost use Rattle.mt_check.specs.Passing.{is_known, is_other, names_of, others};

use crate::forms::Field;
use crate::places::{counted, is_number, rows_of};
use crate::tables::{
    csr_fields, entry_fields, fabric_fields, join_fields, object_fields, owner_fields, root_fields,
    session_fields, target_fields,
};
use serde_json::{Map, Value};
use std::alloc::{AllocError, Global};

/// A field that is passed over. Counts are from 1, and 0 where it is not inside of one.
#[derive(Drop)]
pub struct Passed {
    /// The list in which it is; None where it is in the object itself.
    pub list: Option<&'static str>,
    pub row: u64,
    pub entry: u64,
    pub target: u64,
    pub name: String,
}

// Where rows are.
#[derive(Clone, Copy)]
struct Spot {
    list: Option<&'static str>,
    row: u64,
    entry: u64,
    target: u64,
}

/// The fields of an object that are passed over, and those of its rows and of all inside of them.
pub(crate) fn passed_in(alloc: Global, object: &Value) -> Result<Vec<Passed>, AllocError> {
    let mut found = Vec::new(alloc);
    let spot = Spot {
        list: None,
        row: 0,
        entry: 0,
        target: 0,
    };
    note(alloc, &mut found, spot, object_fields(), object)?;
    for (at, row) in rows_of(object, "fabrics").iter().enumerate() {
        note_fabric(alloc, &mut found, counted(at), row)?;
    }
    for (at, row) in rows_of(object, "sessions").iter().enumerate() {
        note_session(alloc, &mut found, counted(at), row)?;
    }
    note_rows(alloc, &mut found, "roots", root_fields(), object)?;
    note_rows(alloc, &mut found, "csrs", csr_fields(), object)?;
    note_rows(alloc, &mut found, "joins", join_fields(), object)?;
    Ok(found)
}

fn spot_of(list: &'static str, row: u64) -> Spot {
    Spot {
        list: Some(list),
        row,
        entry: 0,
        target: 0,
    }
}

// Adds those of the rows of a list.
fn note_rows(
    alloc: Global,
    found: &mut Vec<Passed>,
    list: &'static str,
    fields: &'static [Field],
    object: &Value,
) -> Result<(), AllocError> {
    for (at, row) in rows_of(object, list).iter().enumerate() {
        note(alloc, found, spot_of(list, counted(at)), fields, row)?;
    }
    Ok(())
}

// Adds those of a fabric, of its entries and of their targets.
fn note_fabric(
    alloc: Global,
    found: &mut Vec<Passed>,
    number: u64,
    row: &Value,
) -> Result<(), AllocError> {
    let spot = spot_of("fabrics", number);
    note(alloc, found, spot, fabric_fields(), row)?;
    for (at, entry) in rows_of(row, "acl").iter().enumerate() {
        let mut spot = spot;
        spot.entry = counted(at);
        note(alloc, found, spot, entry_fields(), entry)?;
        note_targets(alloc, found, spot, entry)?;
    }
    Ok(())
}

fn note_targets(
    alloc: Global,
    found: &mut Vec<Passed>,
    spot: Spot,
    entry: &Value,
) -> Result<(), AllocError> {
    for (at, target) in rows_of(entry, "targets").iter().enumerate() {
        let mut spot = spot;
        spot.target = counted(at);
        note(alloc, found, spot, target_fields(), target)?;
    }
    Ok(())
}

// Adds those of a session. On PASE the fields of CASE are passed over, too.
fn note_session(
    alloc: Global,
    found: &mut Vec<Passed>,
    number: u64,
    row: &Value,
) -> Result<(), AllocError> {
    let is_pase = is_number(row, "mode", 1);
    for name in others(alloc, session_fields(), row)? {
        if is_pase || !knows(owner_fields(), name.as_str()) {
            found.push(passed_at(spot_of("sessions", number), name))?;
        }
    }
    Ok(())
}

// Adds those of an object.
fn note(
    alloc: Global,
    found: &mut Vec<Passed>,
    spot: Spot,
    fields: &[Field],
    object: &Value,
) -> Result<(), AllocError> {
    for name in others(alloc, fields, object)? {
        found.push(passed_at(spot, name))?;
    }
    Ok(())
}

fn passed_at(spot: Spot, name: String) -> Passed {
    Passed {
        list: spot.list,
        row: spot.row,
        entry: spot.entry,
        target: spot.target,
        name,
    }
}

// The names of an object that are none of the fields'.
fn others(alloc: Global, fields: &[Field], object: &Value) -> Result<Vec<String>, AllocError>
    ensures { IfOk result (λ names. map string_bytes names.items ≡ others fields.now (view object.now)) }
{
    match object.as_object() {
        Some(members) => others_of(alloc, fields, members),
        None => Ok(Vec::new(alloc)),
    }
}

fn others_of(
    alloc: Global,
    fields: &[Field],
    members: &Map<String, Value>,
) -> Result<Vec<String>, AllocError>
    ensures { IfOk result (λ names. map string_bytes names.items ≡ filter (is_other fields.now) (names_of (members_view members.now.entries))) }
{
    let mut names = Vec::new(alloc);
    for (name, _) in members.iter() {
        if !knows(fields, name.as_str()) {
            names.push(String::from_str(alloc, name.as_str())?)?;
        }
    }
    Ok(names)
}

// Whether one of the fields is called so.
fn knows(fields: &[Field], name: &str) -> bool
    ensures { result ≡ is_known fields.now name.now }
{
    fields.iter().any(|field| is_called(field, name))
}

fn is_called(field: &Field, name: &str) -> bool
    ensures { result ≡ bytes_eq field.now.name.now name.now }
{
    field.name == name
}
