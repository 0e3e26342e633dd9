//! The first place of a list that is wrong. First comes the first row one of whose own fields is wrong; where there is
//! none, what stands inside of the rows; and then rows that do not go together.

ghost use Rattle.std.specs.Prelude.{◌≡◌, ◌+◌, position};
ghost use Rattle.std.specs.List.{list_any};
ghost use Rattle.std.specs.Option.{option_map};
ghost use Rattle.serde_json.specs.View.{view};
ghost use Rattle.mt_check.specs.Forms.{is_misfit};

use crate::clashes::{clash_of_fabrics, clash_of_sessions};
use crate::forms::{Field, Form, first_misfit, fits, misfit, number};
use crate::tables::{
    csr_fields, entry_fields, fabric_fields, join_fields, object_fields, owner_fields, root_fields,
    session_fields, target_fields,
};
use mt_config::ConfigField;
use mt_model::limits::NETWORK_ID_BYTES;
use serde_json::Value;

/// What is wrong at a place.
#[derive(Clone, Copy, Debug, PartialEq, Eq)]
pub enum Breach {
    /// It is not there.
    Missing,
    /// It is not of this form.
    Form(Form),
    /// It is no object.
    NoObject,
    /// A group is to administer.
    GroupAdministers,
    /// A target names neither a cluster nor an endpoint nor a device type, or names the last two.
    EmptyTarget,
    DoubleTarget,
    /// It has the root key and fabric id, the label, or the boot and session of this row.
    SameIdentity(u64),
    SameLabel(u64),
    SameSession(u64),
    /// It is the fourth session of CASE of one fabric in one boot, or the fifth of PASE.
    FourthCase,
    FifthPase,
}

/// A place of a list, and what is wrong there. Counts are from 1, and 0 where the place is not inside of one.
#[derive(Clone, Copy, Debug, PartialEq, Eq)]
pub struct Place {
    pub row: u64,
    /// The entry of the row's `acl`.
    pub entry: u64,
    /// None where the row or the entry itself is meant.
    pub field: Option<&'static str>,
    /// The item of the list that the field is.
    pub item: u64,
    /// The field of that item.
    pub inner: Option<&'static str>,
    pub breach: Breach,
}

/// The first place of the list of this name that is wrong; None where this finds none.
pub(crate) fn place_in(list: ConfigField, object: &Value) -> Option<Place> {
    if let Some(breach) = breach_of_list(object_fields(), list.name(), object) {
        return Some(place_at(0, None, breach));
    }
    let rows = rows_of(object, list.name());
    match list {
        ConfigField::Size | ConfigField::Json => None,
        ConfigField::Fabrics => place_in_fabrics(rows),
        ConfigField::Sessions => place_in_sessions(rows),
        ConfigField::Roots => first_place(root_fields(), rows),
        ConfigField::Csrs => first_place(csr_fields(), rows),
        ConfigField::Joins => first_place(join_fields(), rows),
        ConfigField::Reachable => place_in_networks(rows),
    }
}

// What is wrong with a list as a whole.
fn breach_of_list(fields: &'static [Field], name: &str, object: &Value) -> Option<Breach> {
    let field = misfit(fields, object)?;
    if field.name == name {
        return Some(Breach::Form(field.form));
    }
    // The one before it in the table is wrong, too.
    let field = fields.iter().find(|field| field.name == name)?;
    let value = object.get(name)?;
    if fits(field.form, value) {
        return None;
    }
    Some(Breach::Form(field.form))
}

/// The items of the list of this name; none where there is no such list.
pub(crate) fn rows_of<'v>(object: &'v Value, name: &str) -> &'v [Value] {
    let Some(value) = object.get(name) else {
        return &[];
    };
    match value.as_array() {
        Some(rows) => rows.as_slice(),
        None => &[],
    }
}

pub(crate) fn place_at(row: u64, field: Option<&'static str>, breach: Breach) -> Place
    ensures row { result.row ≡ row }
    ensures breach { result.breach ≡ breach }
{
    Place {
        row,
        entry: 0,
        field,
        item: 0,
        inner: None,
        breach,
    }
}

// The place of the first row that has not its fields in their form.
fn first_place(fields: &'static [Field], rows: &[Value]) -> Option<Place>
    ensures row { option_map (λ (place : Place). place.row) result
        ≡ option_map (λ at. at + 1) (position (λ row. list_any (is_misfit (view row)) fields.now) rows.now) }
{
    let at = first_misfit(fields, rows)?;
    Some(place_of(at as u64 + 1, fields, &rows[at]))
}

// The first of the fields that a row has not in their form.
fn place_of(number: u64, fields: &'static [Field], row: &Value) -> Place
    ensures row { result.row ≡ number }
{
    if !row.is_object() {
        return place_at(number, None, Breach::NoObject);
    }
    match misfit(fields, row) {
        Some(field) => place_at(number, Some(field.name), breach_at(field, row)),
        None => place_at(number, None, Breach::NoObject),
    }
}

// What is wrong with a field.
fn breach_at(field: &Field, row: &Value) -> Breach {
    match row.get(field.name) {
        Some(_) => Breach::Form(field.form),
        None => Breach::Missing,
    }
}

fn place_in_networks(rows: &[Value]) -> Option<Place> {
    let form = Form::Bytes {
        least: 1,
        most: NETWORK_ID_BYTES,
    };
    let at = rows.iter().position(|row| !fits(form, row))?;
    Some(place_at(counted(at), None, Breach::Form(form)))
}

/// The number of what has this place.
pub(crate) fn counted(at: usize) -> u64 {
    (at as u64).saturating_add(1)
}

fn place_in_fabrics(rows: &[Value]) -> Option<Place> {
    if let Some(place) = first_place(fabric_fields(), rows) {
        return Some(place);
    }
    for (at, row) in rows.iter().enumerate() {
        if let Some(place) = place_in_entries(counted(at), row) {
            return Some(place);
        }
    }
    clash_of_fabrics(rows)
}

// The first entry of a fabric that is wrong.
fn place_in_entries(row: u64, fabric: &Value) -> Option<Place> {
    let entries = rows_of(fabric, "acl");
    for (at, entry) in entries.iter().enumerate() {
        if let Some(found) = place_in_entry(entry) {
            return Some(Place {
                row,
                entry: counted(at),
                field: found.field,
                item: found.item,
                inner: found.inner,
                breach: found.breach,
            });
        }
    }
    None
}

// What is wrong with an entry.
fn place_in_entry(entry: &Value) -> Option<Place> {
    if !entry.is_object() || misfit(entry_fields(), entry).is_some() {
        return Some(place_of(0, entry_fields(), entry));
    }
    let is_group = is_number(entry, "mode", 3);
    if is_group && is_number(entry, "privilege", 5) {
        return Some(place_at(0, Some("privilege"), Breach::GroupAdministers));
    }
    let form = if is_group {
        Form::GroupSubject
    } else {
        Form::CaseSubject
    };
    match place_of_item("subjects", form, rows_of(entry, "subjects")) {
        Some(place) => Some(place),
        None => place_in_targets(rows_of(entry, "targets")),
    }
}

/// Whether the field of this name is this number.
pub(crate) fn is_number(row: &Value, name: &str, wanted: u64) -> bool {
    match row.get(name) {
        Some(value) => number(u64::MAX, value) == Some(wanted),
        None => false,
    }
}

// The first item of a field's list that has another form.
fn place_of_item(name: &'static str, form: Form, items: &[Value]) -> Option<Place> {
    let at = items.iter().position(|item| !fits(form, item))?;
    Some(item_place(name, counted(at), None, Breach::Form(form)))
}

fn item_place(name: &'static str, item: u64, inner: Option<&'static str>, breach: Breach) -> Place {
    Place {
        row: 0,
        entry: 0,
        field: Some(name),
        item,
        inner,
        breach,
    }
}

fn place_in_targets(targets: &[Value]) -> Option<Place> {
    for (at, target) in targets.iter().enumerate() {
        if let Some((inner, breach)) = breach_of_target(target) {
            return Some(item_place("targets", counted(at), inner, breach));
        }
    }
    None
}

fn breach_of_target(target: &Value) -> Option<(Option<&'static str>, Breach)> {
    if !target.is_object() {
        return Some((None, Breach::NoObject));
    }
    if let Some(field) = misfit(target_fields(), target) {
        return Some((Some(field.name), Breach::Form(field.form)));
    }
    let endpoint = names(target, "endpoint");
    let device = names(target, "device");
    if endpoint && device {
        return Some((None, Breach::DoubleTarget));
    }
    if endpoint || device || names(target, "cluster") {
        return None;
    }
    Some((None, Breach::EmptyTarget))
}

// Whether a target names something in this field.
fn names(target: &Value, field: &str) -> bool {
    match target.get(field) {
        Some(value) => !value.is_null(),
        None => false,
    }
}

fn place_in_sessions(rows: &[Value]) -> Option<Place> {
    if let Some(place) = first_place(session_fields(), rows) {
        return Some(place);
    }
    for (at, row) in rows.iter().enumerate() {
        if let Some(place) = place_in_session(counted(at), row) {
            return Some(place);
        }
    }
    clash_of_sessions(rows)
}

// What is wrong with a session beside the fields that each has.
fn place_in_session(number: u64, row: &Value) -> Option<Place> {
    if is_number(row, "mode", 2) && misfit(owner_fields(), row).is_some() {
        return Some(place_of(number, owner_fields(), row));
    }
    let found = place_of_item("cats", Form::Cat, rows_of(row, "cats"))?;
    Some(Place {
        row: number,
        entry: 0,
        field: found.field,
        item: found.item,
        inner: None,
        breach: found.breach,
    })
}
