//! Rows that are right by themselves and do not go together.

use crate::forms::number;
use crate::places::{Breach, Place, counted, is_number, place_at};
use mt_model::limits::{CASE_SESSIONS, PASE_SESSIONS};
use serde_json::Value;

/// The first fabric that has the identity or the label of one before it.
pub(crate) fn clash_of_fabrics(rows: &[Value]) -> Option<Place> {
    for (at, row) in rows.iter().enumerate() {
        let Some(before) = rows.get(..at) else {
            return None;
        };
        if let Some(first) = before
            .iter()
            .position(|other| have_one_identity(other, row))
        {
            let breach = Breach::SameIdentity(counted(first));
            return Some(place_at(counted(at), Some("root_key"), breach));
        }
        if let Some(first) = before.iter().position(|other| have_one_label(other, row)) {
            let breach = Breach::SameLabel(counted(first));
            return Some(place_at(counted(at), Some("label"), breach));
        }
    }
    None
}

fn have_one_identity(a: &Value, b: &Value) -> bool {
    have_one_text(a, b, "root_key") && have_one_text(a, b, "fabric_id")
}

// Whether two rows have the same hex digits in a field, in either case.
fn have_one_text(a: &Value, b: &Value, name: &str) -> bool {
    match (text_of(a, name), text_of(b, name)) {
        (Some(a), Some(b)) => a.as_bytes().eq_ignore_ascii_case(b.as_bytes()),
        _ => false,
    }
}

fn have_one_label(a: &Value, b: &Value) -> bool {
    match (text_of(a, "label"), text_of(b, "label")) {
        (Some(a), Some(b)) => !a.is_empty() && a == b,
        _ => false,
    }
}

fn text_of<'v>(row: &'v Value, name: &str) -> Option<&'v str> {
    row.get(name)?.as_str()
}

/// The first session that has the boot and the id of one before it, or of which there is one too many.
pub(crate) fn clash_of_sessions(rows: &[Value]) -> Option<Place> {
    for (at, row) in rows.iter().enumerate() {
        let Some(before) = rows.get(..at) else {
            return None;
        };
        if let Some(first) = before.iter().position(|other| have_one_session(other, row)) {
            let breach = Breach::SameSession(counted(first));
            return Some(place_at(counted(at), Some("session"), breach));
        }
        if let Some(breach) = one_too_many(before, row) {
            return Some(place_at(counted(at), None, breach));
        }
    }
    None
}

fn have_one_session(a: &Value, b: &Value) -> bool {
    have_one_number(a, b, "boot") && have_one_number(a, b, "session")
}

fn have_one_number(a: &Value, b: &Value, name: &str) -> bool {
    match (number_of(a, name), number_of(b, name)) {
        (Some(a), Some(b)) => a == b,
        _ => false,
    }
}

fn number_of(row: &Value, name: &str) -> Option<u64> {
    number(u64::MAX, row.get(name)?)
}

// Whether there is no room for a session behind those before it.
fn one_too_many(before: &[Value], row: &Value) -> Option<Breach> {
    if is_number(row, "mode", 1) {
        let others = before.iter().filter(|other| are_both_pase(other, row));
        return (others.count() >= PASE_SESSIONS).then_some(Breach::FifthPase);
    }
    let others = before.iter().filter(|other| have_one_fabric(other, row));
    (others.count() >= CASE_SESSIONS).then_some(Breach::FourthCase)
}

fn are_both_pase(a: &Value, b: &Value) -> bool {
    is_number(a, "mode", 1) && have_one_number(a, b, "boot")
}

fn have_one_fabric(a: &Value, b: &Value) -> bool {
    is_number(a, "mode", 2) && have_one_number(a, b, "boot") && have_one_identity(a, b)
}
