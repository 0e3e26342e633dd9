//! What a map of durable state keeps, read key by key.

ghost use Rattle.std.specs.Prelude.{◌≡◌, ◌++◌, IfOk, Ok};
ghost use Rattle.mt_tlv.specs.View.{tree};
ghost use Rattle.mt_grammar.specs.Decoding.{kept_in, nothing, with_boot, with_ceiling, with_entries, with_entry, with_fabric, with_failsafe, with_items, with_items_in, with_networks, with_roots, with_rows, with_single, with_value};
ghost use Rattle.mt_grammar.specs.Fields.{number_in};
ghost use Rattle.mt_grammar.specs.Values.{armed_in, fabric_in, greatest_boot, greatest_ceiling, networks_in, roots_in};

use crate::entries::entries_in;
use crate::fabrics::fabric_in;
use crate::failsafe::armed_in;
use crate::fields::number_in;
use crate::keys::{Key, key_in};
use crate::networks::{networks_in, roots_in};
use crate::rows::{has_items, is_acl, items_in, may_stand};
use mt_durable::{Durable, Entry};
use mt_meta::{Meta, find_data};
use mt_model::{AclEntries, Armed, Fabrics, Listed, Networks, Place, Roots, Row};
use mt_tlv::Value;
use std::alloc::{AllocError, Global};

/// The greatest number of starts that is kept.
const GREATEST_BOOT: u64 = 0x8000_0000;

/// The greatest ceiling that is kept.
const GREATEST_CEILING: u64 = 0x4000_0000_0000_0000;

/// Rows in the order of their keys: those that are no items by place, then items by fabric and place.
pub type KeptRows = Listed<Row>;

/// What a map keeps.
#[derive(Drop)]
pub struct MapContents {
    /// How often the node has started.
    pub boot: Option<u64>,
    /// Below which the numbers of events are set aside.
    pub ceiling: Option<u64>,
    pub rows: KeptRows,
    pub entries: AclEntries,
    pub fabrics: Fabrics,
    pub roots: Roots,
    pub networks: Networks,
    /// The fail-safe, of which nothing is kept that a recovery does not need: its times, the root and the signing
    /// request are none.
    pub failsafe: Option<Armed>,
}

/// What a map keeps, None where a key or what stands under it has no form.
pub fn kept_in(alloc: Global, map: &Durable) -> Result<Option<MapContents>, AllocError>
    ensures { IfOk result (λ kept. kept ≡ kept_in map.now) }
{
    kept_of(alloc, map.as_slice())
}

fn kept_of(alloc: Global, entries: &[Entry]) -> Result<Option<MapContents>, AllocError>
    ensures { IfOk result (λ kept. kept ≡ kept_in entries.now) }
{
    let mut kept = nothing(alloc);
    for entry in entries {
        let Some(next) = with_entry(alloc, kept, entry)? else {
            return Ok(None);
        };
        kept = next;
    }
    Ok(Some(kept))
}

fn nothing(alloc: Global) -> MapContents
    ensures { result ≡ nothing }
{
    MapContents {
        boot: None,
        ceiling: None,
        rows: KeptRows::new(alloc),
        entries: AclEntries::new(alloc),
        fabrics: Fabrics::new(alloc),
        roots: Roots::new(alloc),
        networks: Networks::new(alloc),
        failsafe: None,
    }
}

// With what stands under one key more.
fn with_entry(
    alloc: Global,
    kept: MapContents,
    entry: &Entry,
) -> Result<Option<MapContents>, AllocError>
    ensures { IfOk result (λ next. next ≡ with_entry kept entry.now) }
{
    let Some(key) = key_in(entry.key.as_slice()) else {
        return Ok(None);
    };
    let Some(value) = &entry.value else {
        return Ok(None);
    };
    with_value(alloc, kept, value, key)
}

fn with_value(
    alloc: Global,
    kept: MapContents,
    value: &Value,
    key: Key,
) -> Result<Option<MapContents>, AllocError>
    ensures { IfOk result (λ next. next ≡ with_value kept value.now key) }
{
    match key {
        Key::Boot => Ok(with_boot(kept, value)),
        Key::Ceiling => Ok(with_ceiling(kept, value)),
        Key::Single { place } => with_single(kept, &place, value),
        Key::Items { fabric, place } => with_items(alloc, kept, fabric, &place, value),
        Key::Fabric { index } => with_fabric(kept, index, value),
        Key::Roots => with_roots(alloc, kept, value),
        Key::Networks => with_networks(alloc, kept, value),
        Key::Failsafe => with_failsafe(alloc, kept, value),
    }
}

fn with_boot(kept: MapContents, value: &Value) -> Option<MapContents>
    ensures { result ≡ with_boot kept (number_in greatest_boot (tree value.now)) }
{
    let boot = number_in(GREATEST_BOOT, value)?;
    Some(MapContents {
        boot: Some(boot),
        ..kept
    })
}

fn with_ceiling(kept: MapContents, value: &Value) -> Option<MapContents>
    ensures { result ≡ with_ceiling kept (number_in greatest_ceiling (tree value.now)) }
{
    let ceiling = number_in(GREATEST_CEILING, value)?;
    Some(MapContents {
        ceiling: Some(ceiling),
        ..kept
    })
}

fn with_single(
    kept: MapContents,
    place: &Place,
    value: &Value,
) -> Result<Option<MapContents>, AllocError>
    ensures { IfOk result (λ next. next ≡ with_single kept place.now value.now) }
{
    if !may_stand(place, value) {
        return Ok(None);
    }
    let mut rows = kept.rows;
    rows.push(Row {
        place: *place,
        fabric: 0,
        value: value.copy()?,
    })?;
    Ok(Some(MapContents { rows, ..kept }))
}

fn with_items(
    alloc: Global,
    kept: MapContents,
    fabric: u8,
    place: &Place,
    value: &Value,
) -> Result<Option<MapContents>, AllocError>
    ensures { IfOk result (λ next. next ≡ with_items kept fabric place.now (tree value.now)) }
{
    match find_data(place) {
        Ok(meta) => with_items_in(alloc, kept, fabric, place, value, &meta),
        Err(_) => Ok(None),
    }
}

fn with_items_in(
    alloc: Global,
    kept: MapContents,
    fabric: u8,
    place: &Place,
    value: &Value,
    meta: &Meta,
) -> Result<Option<MapContents>, AllocError>
    ensures { IfOk result (λ next. next ≡ with_items_in kept fabric place.now (tree value.now) (Ok meta.now)) }
{
    if !has_items(meta) {
        return Ok(None);
    }
    if is_acl(meta.kind) {
        return with_entries(kept, entries_in(alloc, fabric, value)?);
    }
    with_rows(kept, items_in(alloc, place, fabric, meta, value)?)
}

fn with_entries(
    kept: MapContents,
    entries: Option<AclEntries>,
) -> Result<Option<MapContents>, AllocError>
    ensures { IfOk result (λ next. next ≡ with_entries kept entries) }
{
    let Some(entries) = entries else {
        return Ok(None);
    };
    let entries = joined_entries(kept.entries, entries)?;
    Ok(Some(MapContents { entries, ..kept }))
}

fn joined_entries(front: AclEntries, back: AclEntries) -> Result<AclEntries, AllocError>
    ensures { IfOk result (λ all. all ≡ front ++ back) }
{
    let mut all = front;
    for entry in back.into_vec() {
        all.push(entry)?;
    }
    Ok(all)
}

fn with_rows(kept: MapContents, rows: Option<KeptRows>) -> Result<Option<MapContents>, AllocError>
    ensures { IfOk result (λ next. next ≡ with_rows kept rows) }
{
    let Some(rows) = rows else {
        return Ok(None);
    };
    let rows = joined_rows(kept.rows, rows)?;
    Ok(Some(MapContents { rows, ..kept }))
}

fn joined_rows(front: KeptRows, back: KeptRows) -> Result<KeptRows, AllocError>
    ensures { IfOk result (λ all. all ≡ front ++ back) }
{
    let mut all = front;
    for row in back.into_vec() {
        all.push(row)?;
    }
    Ok(all)
}

fn with_fabric(
    kept: MapContents,
    index: u8,
    value: &Value,
) -> Result<Option<MapContents>, AllocError>
    ensures { IfOk result (λ next. next ≡ with_fabric kept (fabric_in index (tree value.now))) }
{
    let Some(fabric) = fabric_in(index, value)? else {
        return Ok(None);
    };
    let mut fabrics = kept.fabrics;
    fabrics.push(fabric)?;
    Ok(Some(MapContents { fabrics, ..kept }))
}

fn with_roots(
    alloc: Global,
    kept: MapContents,
    value: &Value,
) -> Result<Option<MapContents>, AllocError>
    ensures { IfOk result (λ next. next ≡ with_roots kept (roots_in (tree value.now))) }
{
    match roots_in(alloc, value)? {
        Some(roots) => Ok(Some(MapContents { roots, ..kept })),
        None => Ok(None),
    }
}

fn with_networks(
    alloc: Global,
    kept: MapContents,
    value: &Value,
) -> Result<Option<MapContents>, AllocError>
    ensures { IfOk result (λ next. next ≡ with_networks kept (networks_in (tree value.now))) }
{
    match networks_in(alloc, value)? {
        Some(networks) => Ok(Some(MapContents { networks, ..kept })),
        None => Ok(None),
    }
}

fn with_failsafe(
    alloc: Global,
    kept: MapContents,
    value: &Value,
) -> Result<Option<MapContents>, AllocError>
    ensures { IfOk result (λ next. next ≡ with_failsafe kept (armed_in (tree value.now))) }
{
    match armed_in(alloc, value)? {
        Some(armed) => Ok(Some(MapContents {
            failsafe: Some(armed),
            ..kept
        })),
        None => Ok(None),
    }
}
