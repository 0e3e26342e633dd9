//! What a node regains of what is kept, where it loses its power.

use crate::maps::add_value;
use cases_page::Page;
use mt_durable::{Durable, Entry};
use mt_lasting::durable_of;
use mt_model::Config;
use mt_regained::{next_boot, rolled_map, state_from};
use mt_tlv::Value;
use std::alloc::{AllocError, Global};

// The keys of how often the node has started, and of the fail-safe.
const BOOT: u8 = 1;

const FAILSAFE: u8 = 8;

// No node starts more often.
const LAST_BOOT: u32 = 0x8000_0000;

/// Adds whether the map is read back, what is taken back of it, and how the next boot begins.
pub(crate) fn add_regained(
    alloc: Global,
    page: &mut Page,
    config: &Config,
    ceiling: u64,
    kept: &Durable,
) -> Result<(), AllocError> {
    page.line(reading(is_read_back(alloc, ceiling, kept)?));
    let Some(rolled) = rolled_map(alloc, kept)? else {
        page.line("not rolled");
        return Ok(());
    };
    add_rollback(alloc, page, kept, &rolled)?;
    add_boot(alloc, page, config, ceiling, &rolled)
}

fn reading(is_read: bool) -> &'static str {
    if is_read {
        "read back"
    } else {
        "not read back"
    }
}

// Whether the state that a map stands for has that map.
fn is_read_back(alloc: Global, ceiling: u64, kept: &Durable) -> Result<bool, AllocError> {
    let Some(state) = state_from(alloc, kept)? else {
        return Ok(false);
    };
    let again = durable_of(alloc, &state, ceiling)?;
    Ok(is_same_map(kept, &again))
}

// What is taken back where the fail-safe is armed, key by key.
fn add_rollback(
    alloc: Global,
    page: &mut Page,
    kept: &Durable,
    rolled: &Durable,
) -> Result<(), AllocError> {
    if kept.get(&[FAILSAFE]).is_none() {
        if is_same_map(kept, rolled) {
            page.line("rolled as it is");
        }
        return Ok(());
    }
    let mut all = kept.copy()?;
    all.merge(rolled.copy()?.into_change())?;
    for entry in all.as_slice() {
        let key = entry.key.as_slice();
        add_difference(alloc, page, key, kept.get(key), rolled.get(key))?;
    }
    Ok(())
}

// A key that has another value, has come or has gone; nothing where it is as it was.
fn add_difference(
    alloc: Global,
    page: &mut Page,
    key: &[u8],
    before: Option<&Value>,
    behind: Option<&Value>,
) -> Result<(), AllocError> {
    if is_same(before, behind) {
        return Ok(());
    }
    page.add("R ");
    page.add_hex(key);
    if let Some(value) = behind {
        add_value(alloc, page, value)?;
    }
    page.end_line();
    Ok(())
}

// The number of the next boot and of its sessions, and whether it keeps what was rolled back.
fn add_boot(
    alloc: Global,
    page: &mut Page,
    config: &Config,
    ceiling: u64,
    rolled: &Durable,
) -> Result<(), AllocError> {
    let Some(next) = next_boot(alloc, config, rolled)? else {
        page.line("no boot");
        return Ok(());
    };
    if next.armed.is_some() || next.boot > LAST_BOOT {
        page.line("no boot of a node");
        return Ok(());
    }
    page.add("boot ");
    page.add_number(next.boot as u64);
    page.add(" sessions ");
    page.add_number(next.sessions.as_slice().len() as u64);
    page.end_line();
    let begun = durable_of(alloc, &next, ceiling)?;
    page.line(beginning(goes_on(rolled, &begun) && goes_on(&begun, rolled)));
    Ok(())
}

fn beginning(is_that: bool) -> &'static str {
    if is_that {
        "its map is that"
    } else {
        "its map is another"
    }
}

// Whether another map has all that a map has, but for the number of the boot.
fn goes_on(map: &Durable, other: &Durable) -> bool {
    map.as_slice()
        .iter()
        .all(|entry| is_of_boot(entry) || has_entry(other, entry))
}

fn is_of_boot(entry: &Entry) -> bool {
    entry.key.as_slice() == [BOOT].as_slice()
}

/// Whether two maps have the same.
pub(crate) fn is_same_map(map: &Durable, other: &Durable) -> bool {
    is_within(map, other) && is_within(other, map)
}

// Whether another map has all that a map has.
fn is_within(map: &Durable, other: &Durable) -> bool {
    map.as_slice().iter().all(|entry| has_entry(other, entry))
}

fn has_entry(map: &Durable, entry: &Entry) -> bool {
    is_same(entry.value.as_ref(), map.get(entry.key.as_slice()))
}

fn is_same(value: Option<&Value>, other: Option<&Value>) -> bool {
    match (value, other) {
        (Some(value), Some(other)) => value.equals(other),
        (None, None) => true,
        _ => false,
    }
}
