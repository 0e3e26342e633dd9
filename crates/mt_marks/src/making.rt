//! The mark of an event, made of the node's state and of the events that are remembered.

ghost use Rattle.std.specs.Prelude.{◌≡◌, ◌==◌, ◌++◌, IfOk, IsTrue, OnOk, filter, map, not, option_copied};
ghost use Rattle.std.specs.List.{list_all};
ghost use Rattle.std.specs.Option.{option_map};
ghost use Rattle.mt_model.specs.rows.Order.{are_ascending};
ghost use Rattle.mt_model.specs.rows.Stored.{is_stored_place};
ghost use Rattle.mt_model.specs.tables.Known.{bare_armed, bare_network};
ghost use Rattle.mt_model.specs.declared.rows.place.Row.{Row};
ghost use Rattle.mt_model.specs.declared.tables.access.AclEntry.{AclEntry};
ghost use Rattle.mt_events.specs.Rings.{ring_of};
ghost use Rattle.mt_runs.specs.mt_machine.State.{IsValid};
ghost use Rattle.mt_marks.specs.Seen.{described, mark_before, other_owners, other_rows, seen_in};

use crate::laws::rows_stand_at_stored_places;
use crate::mark::{Descriptor, Descriptors, Mark, Owners, Recent, SeenRows};
use mt_events::{Numbers, Rings};
use mt_model::{
    AclEntry, Armed, Event, ExactCopy, Fabric, Listed, Network, Networks, NodeState, Row,
    StoredRows, sees, stored_places,
};
use mt_tlv::Bytes;
use std::alloc::{AllocError, Global};

/// The mark of an event that a fabric sees: the event, with what is public to the fabric of this state, which is valid, and
/// of the events that are remembered. No secret of another's is in it.
pub fn public_mark(
    alloc: Global,
    fabric: u8,
    event: &Event,
    state: &NodeState,
    rings: &Rings,
    numbers: Numbers,
) -> Result<Mark, AllocError>
    requires { IsValid state.now }
    ensures { IfOk result (λ mark. seen_in mark ≡ mark_before fabric event.now state.now (record { rings = rings.now; numbers = numbers })) }
{
    rows_stand_at_stored_places();
    Ok(Mark {
        event: event.copy()?,
        rows: rows_of_others(alloc, fabric, &state.rows)?,
        owners: owners_of_others(alloc, fabric, state.entries.as_slice())?,
        fabrics: descriptors(alloc, state.fabrics.as_slice())?,
        roots: state.roots.copy()?,
        networks: bare_networks(alloc, state.networks.as_slice())?,
        failsafe: bare_failsafe(alloc, &state.armed)?,
        versions: state.versions.copy()?,
        changes: state.changes.copy()?,
        events: shared_events(alloc, rings)?,
        next: numbers.next,
        boot: state.boot,
        now: state.clock,
    })
}

// The rows that are not the fabric's own, as it sees them.
fn rows_of_others(alloc: Global, fabric: u8, rows: &StoredRows) -> Result<SeenRows, AllocError>
    requires ascending { IsTrue (are_ascending rows.now) }
    requires stored { IsTrue (list_all (λ (row : Row). is_stored_place row.place) rows.now) }
    ensures { IfOk result (λ seen. seen ≡ other_rows fabric rows.now) }
{
    rows_stand_at_stored_places();
    let mut seen = Vec::new(alloc);
    for place in stored_places() {
        push_others(alloc, fabric, rows.at(place), &mut seen)?;
    }
    Ok(SeenRows::from_vec(seen))
}

fn push_others(
    alloc: Global,
    fabric: u8,
    rows: &[Row],
    seen: &mut Vec<Row>,
) -> Result<(), AllocError>
    ensures { OnOk result (seen.new.items ≡ seen.old.items ++ other_rows fabric rows.now) }
{
    for row in rows {
        if row.fabric != fabric || row.fabric == 0 {
            seen.push(sees(alloc, fabric, row)?)?;
        }
    }
    Ok(())
}

// Whose the entries of others are.
fn owners_of_others(alloc: Global, fabric: u8, entries: &[AclEntry]) -> Result<Owners, AllocError>
    ensures { IfOk result (λ owners. owners ≡ other_owners fabric entries.now) }
{
    let mut owners = Vec::new(alloc);
    for entry in entries {
        if entry.fabric != fabric {
            owners.push(entry.fabric)?;
        }
    }
    Ok(Owners::from_vec(owners))
}

fn descriptors(alloc: Global, fabrics: &[Fabric]) -> Result<Descriptors, AllocError>
    ensures { IfOk result (λ descriptors. descriptors ≡ map described fabrics.now) }
{
    let mut descriptors = Vec::with_capacity(alloc, fabrics.len())?;
    for fabric in fabrics {
        descriptors.push(descriptor(fabric)?)?;
    }
    Ok(Descriptors::from_vec(descriptors))
}

fn descriptor(fabric: &Fabric) -> Result<Descriptor, AllocError>
    ensures { IfOk result (λ descriptor. descriptor ≡ described fabric.now) }
{
    Ok(Descriptor {
        index: fabric.index,
        root_key: fabric.credentials.root_key.copy()?,
        vendor: fabric.vendor,
        fabric_id: fabric.credentials.fabric_id,
        node_id: fabric.credentials.node_id,
        label: fabric.label.copy()?,
    })
}

fn bare_networks(alloc: Global, networks: &[Network]) -> Result<Networks, AllocError>
    ensures { IfOk result (λ bare. bare ≡ map bare_network networks.now) }
{
    let mut bare = Vec::with_capacity(alloc, networks.len())?;
    for network in networks {
        bare.push(bare_network(alloc, network)?)?;
    }
    Ok(Networks::from_vec(bare))
}

fn bare_network(alloc: Global, network: &Network) -> Result<Network, AllocError>
    ensures { IfOk result (λ bare. bare ≡ bare_network network.now) }
{
    Ok(Network {
        id: network.id.copy()?,
        secret: Bytes::new(alloc),
        connected: network.connected,
    })
}

fn bare_failsafe(alloc: Global, armed: &Option<Armed>) -> Result<Option<Armed>, AllocError>
    ensures { IfOk result (λ bare. bare ≡ option_map bare_armed armed.now) }
{
    match armed {
        Some(armed) => Ok(Some(bare_armed(alloc, armed)?)),
        None => Ok(None),
    }
}

// The fail-safe without what an expiry gives back.
fn bare_armed(alloc: Global, armed: &Armed) -> Result<Armed, AllocError>
    ensures { IfOk result (λ bare. bare ≡ bare_armed armed.now) }
{
    Ok(Armed {
        owner: armed.owner,
        context: armed.context,
        until: armed.until,
        limit: armed.limit,
        added: armed.added,
        updated: armed.updated,
        root: copy_of(&armed.root)?,
        csr: copy_of(&armed.csr)?,
        saved_credentials: None,
        saved_networks: Networks::new(alloc),
    })
}

fn copy_of<T: ExactCopy>(value: &Option<T>) -> Result<Option<T>, AllocError>
    ensures { IfOk result (λ copied. copied ≡ value.now) }
{
    match value {
        Some(value) => Ok(Some(value.copy()?)),
        None => Ok(None),
    }
}

// The events that all may see.
fn shared_events(alloc: Global, rings: &Rings) -> Result<Recent, AllocError>
    ensures { IfOk result (λ shared. shared ≡ ring_of 0 rings.now) }
{
    let mut shared = Vec::new(alloc);
    'events: while let Some(event) = rings.shared_at(shared.len()) {
        shared.push(event.copy()?)?;
    }
    Ok(Recent::from_vec(shared))
}
