//! The stored rows of a case's node: those with which a node begins, and what these words on it say, each of which
//! may be left out:
//!
//! - `window:N`: a commissioning window is open, 1 an enhanced one, 2 a basic one. An administrator of fabric 1 opened
//!   it, and it ends at 180005 ms;
//! - `sets:SETS`: the group key sets of fabric 1 with `,` between them, each as ID/START/START/START: its id, and from
//!   when each of its keys is used. The first key is 16 bytes 0e, the second 16 bytes 0f, the third 16 bytes 10;
//! - `map:ITEMS`: the items of its GroupKeyMap with `,` between them, each as GROUP/SET;
//! - `sets-of-2:SETS`, `map-of-2:ITEMS`: those of fabric 2.

ghost use Rattle.std.specs.Prelude.{◌≡◌, true};
ghost use Rattle.mt_admin.specs.Windows.{window_at};
ghost use Rattle.mt_model.specs.rows.Stored.{is_stored_place};

use crate::words::{number, said};
use cases_page::number as number_at;
use mt_meta::clusters::administrator_commissioning::{
    ADMIN_FABRIC_INDEX, ADMIN_VENDOR_ID, WINDOW_END, WINDOW_STATUS,
};
use mt_meta::clusters::group_key_management::{
    EPOCH_KEYS, EPOCH_START_TIMES, GROUP_ID, GROUP_KEY_MAP, GROUP_KEY_SET_ID, KEY_SET_ID,
    SECURITY_POLICY,
};
use mt_meta::clusters::{ADMINISTRATOR_COMMISSIONING, GROUP_KEY_MANAGEMENT};
use mt_meta::first_rows;
use mt_model::{Place, StoredRows, Values, key_sets};
use mt_tlv::{Bytes, Members, Tag, Value};
use std::alloc::{AllocError, Global};
use std::io;

/// The rows of these words.
pub(crate) fn rows(alloc: Global, state: &str) -> io::Result<StoredRows> {
    let mut rows = first_rows(alloc)?;
    if let Some(window) = number(state, "window") {
        set_window(alloc, &mut rows, u64::from(window))?;
    }
    if let Some(sets) = said(state, "sets") {
        set_sets(alloc, &mut rows, 1, sets)?;
    }
    if let Some(items) = said(state, "map") {
        set_map(alloc, &mut rows, 1, items)?;
    }
    if let Some(sets) = said(state, "sets-of-2") {
        set_sets(alloc, &mut rows, 2, sets)?;
    }
    if let Some(items) = said(state, "map-of-2") {
        set_map(alloc, &mut rows, 2, items)?;
    }
    Ok(rows)
}

// The window.

fn set_window(alloc: Global, rows: &mut StoredRows, status: u64) -> Result<(), AllocError> {
    set_number(alloc, rows, WINDOW_STATUS, status)?;
    set_number(alloc, rows, ADMIN_FABRIC_INDEX, 1)?;
    set_number(alloc, rows, ADMIN_VENDOR_ID, 0xfff1)?;
    set_number(alloc, rows, WINDOW_END, 180_005)
}

fn set_number(
    alloc: Global,
    rows: &mut StoredRows,
    attribute: u32,
    number: u64,
) -> Result<(), AllocError>
    requires { is_stored_place (window_at attribute) ≡ true }
{
    let place = Place {
        endpoint: 0,
        cluster: ADMINISTRATOR_COMMISSIONING,
        leaf: attribute,
    };
    let mut values = Values::new(alloc);
    values.push(Value::Uint(number))?;
    set(alloc, rows, &place, 0, values)
}

// The rows of this fabric at this place are these.
fn set(
    alloc: Global,
    rows: &mut StoredRows,
    place: &Place,
    fabric: u8,
    values: Values,
) -> Result<(), AllocError>
    requires { is_stored_place place.now ≡ true }
{
    let Some(needed) = rows.others_at(place, fabric).checked_add(values.len()) else {
        return Err(AllocError);
    };
    let room = Vec::with_capacity(alloc, needed)?;
    rows.set(place, fabric, values, room);
    Ok(())
}

// Group keys.

fn set_sets(alloc: Global, rows: &mut StoredRows, fabric: u8, words: &str) -> io::Result<()> {
    let mut values = Values::new(alloc);
    for word in words.split(',') {
        let words: Vec<&str> = word.split('/').collect(alloc)?;
        values.push(key_set(alloc, fabric, &words)?)?;
    }
    set(alloc, rows, &key_sets(), fabric, values)?;
    Ok(())
}

const KEY_BYTES: [u8; 3] = [0x0e, 0x0f, 0x10];

// The words of a key set are its id and the starts of its keys.
fn key_set(alloc: Global, fabric: u8, words: &[&str]) -> Result<Value, AllocError> {
    let mut members = vec![in alloc;
        (Tag::Context(KEY_SET_ID), Value::Uint(number_at(words, 0))),
        (Tag::Context(SECURITY_POLICY), Value::Uint(0)),
    ]?;
    for i in 0..3 {
        let (key, start) = if i + 1 < words.len() {
            let key = Bytes::from_slice(alloc, &[KEY_BYTES[i]; 16])?;
            (Value::Octets(key), Value::Uint(number_at(words, i + 1)))
        } else {
            (Value::Null, Value::Null)
        };
        members.push((Tag::Context(EPOCH_KEYS[i]), key))?;
        members.push((Tag::Context(EPOCH_START_TIMES[i]), start))?;
    }
    members.push((Tag::Context(FABRIC_INDEX), Value::Uint(u64::from(fabric))))?;
    Ok(Value::Struct(Members::from_vec(members)))
}

// The field that names the fabric whose an item is.
const FABRIC_INDEX: u8 = 254;

fn set_map(alloc: Global, rows: &mut StoredRows, fabric: u8, words: &str) -> io::Result<()> {
    let mut values = Values::new(alloc);
    for word in words.split(',') {
        let words: Vec<&str> = word.split('/').collect(alloc)?;
        values.push(map_item(alloc, fabric, &words)?)?;
    }
    let place = Place {
        endpoint: 0,
        cluster: GROUP_KEY_MANAGEMENT,
        leaf: GROUP_KEY_MAP,
    };
    set(alloc, rows, &place, fabric, values)?;
    Ok(())
}

// The words of an item are a group and its key set.
fn map_item(alloc: Global, fabric: u8, words: &[&str]) -> Result<Value, AllocError> {
    let members = vec![in alloc;
        (Tag::Context(GROUP_ID), Value::Uint(number_at(words, 0))),
        (
            Tag::Context(GROUP_KEY_SET_ID),
            Value::Uint(number_at(words, 1))
        ),
        (Tag::Context(FABRIC_INDEX), Value::Uint(u64::from(fabric))),
    ]?;
    Ok(Value::Struct(Members::from_vec(members)))
}
