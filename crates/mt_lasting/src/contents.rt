//! What a node keeps of its state, as a map.

ghost use Rattle.std.specs.Prelude.{◌≡◌, IfOk, OnOk, ◌++◌};
ghost use Rattle.std.specs.List.{flat_map};
ghost use Rattle.mt_machine.specs.State.{IsValid};
ghost use Rattle.mt_lasting.specs.Contents.{durable, entry_at, entry_if};

use crate::keys::{all_keys, key_bytes};
use crate::laws::maps_are_maps;
use crate::values::value_at;
use mt_durable::{Change, Durable, Entry, changes_lead_on};
use mt_grammar::Key;
use mt_model::NodeState;
use std::alloc::{AllocError, Global};

/// The durable map of a state, where this ceiling of event numbers is set aside.
pub fn durable_of(alloc: Global, state: &NodeState, ceiling: u64) -> Result<Durable, AllocError>
    requires { IsValid state.now }
    ensures { IfOk result (λ map. map ≡ durable state.now ceiling) }
{
    maps_are_maps();
    changes_lead_on();
    let entries = entries(alloc, state, ceiling)?;
    let mut map = Durable::new(alloc);
    map.merge(Change::from_vec(entries))?;
    Ok(map)
}

fn entries(alloc: Global, state: &NodeState, ceiling: u64) -> Result<Vec<Entry>, AllocError>
    requires { IsValid state.now }
    ensures { IfOk result (λ entries. entries.items ≡ durable state.now ceiling) }
{
    let keys = all_keys(alloc)?;
    let mut entries = Vec::new(alloc);
    for key in &keys {
        push_entry(alloc, key, state, ceiling, &mut entries)?;
    }
    Ok(entries)
}

fn push_entry(
    alloc: Global,
    key: &Key,
    state: &NodeState,
    ceiling: u64,
    entries: &mut Vec<Entry>,
) -> Result<(), AllocError>
    requires { IsValid state.now }
    ensures { OnOk result (entries.new.items ≡ entries.old.items ++ entry_at state.now ceiling key.now) }
{
    let Some(value) = value_at(alloc, key, state, ceiling)? else {
        return Ok(());
    };
    entries.push(Entry {
        key: key_bytes(alloc, key)?,
        value: Some(value),
    })?;
    Ok(())
}
