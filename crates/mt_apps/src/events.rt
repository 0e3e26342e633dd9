//! Access Control: the events of its list.

ghost use Rattle.std.specs.Prelude.{◌≡◌, ◌≤◌, ◌++◌, ◌∷◌, [], IfOk, OnOk, drop, length, map, min};
ghost use Rattle.mt_tlv.specs.View.{tree};
ghost use Rattle.mt_model.specs.rows.Same.{is_same_entry};
ghost use Rattle.mt_apps.specs.EntryEvents.{entry_changed_value, entry_event, entry_events, events_between, if_changed, node_field, passcode_field};

use crate::access_control::entry_value;
use crate::lists::FABRIC_INDEX;
use mt_meta::clusters::ACCESS_CONTROL;
use mt_meta::clusters::access_control::ACCESS_CONTROL_ENTRY_CHANGED;
use mt_model::{AclEntry, Actor, Auth, NodeStep, Place, Steps, what_is_told_the_same_is};
use mt_tlv::{Members, Tag, Value};
use std::alloc::{AllocError, Global};

const CHANGED: u64 = 0;

const ADDED: u64 = 1;

const REMOVED: u64 = 2;

/// The events of steps that set the entries of the actor's fabric, one after the other, where it has these entries
/// before them. Each step compares, by position, what was there with what is there: an entry that is another is
/// changed, one more is added, and one less is removed.
pub fn entry_events(
    alloc: Global,
    actor: &Actor,
    entries: &[AclEntry],
    steps: &[NodeStep],
) -> Result<Steps, AllocError>
    ensures { IfOk result (λ events. events ≡ entry_events actor.now entries.now steps.now) }
{
    let mut events = Steps::new(alloc);
    let mut before = entries;
    for step in steps {
        if let NodeStep::SetEntries { entries: new, .. } = step {
            push_events_between(alloc, actor, before, new.as_slice(), &mut events)?;
            before = new.as_slice();
        }
    }
    Ok(events)
}

/// Appends the events between two lists of entries of the actor's fabric, compared by position: what was there, and what is.
pub fn push_events_between(
    alloc: Global,
    actor: &Actor,
    entries: &[AclEntry],
    others: &[AclEntry],
    events: &mut Steps,
) -> Result<(), AllocError>
    ensures { OnOk result (events.new ≡ events.old ++ events_between actor.now entries.now others.now) }
{
    let both = entries.len().min(others.len());
    push_changes(alloc, actor, both, entries, others, events)?;
    push_rest(alloc, actor, &entries[both..], &others[both..], events)
}

// The events between two lists of which one is empty.
fn push_rest(
    alloc: Global,
    actor: &Actor,
    entries: &[AclEntry],
    others: &[AclEntry],
    events: &mut Steps,
) -> Result<(), AllocError>
    requires { min (length entries.now) (length others.now) ≡ 0 }
    ensures { OnOk result (events.new ≡ events.old ++ events_between actor.now entries.now others.now) }
{
    push_each(alloc, actor, ADDED, others, events)?;
    push_each(alloc, actor, REMOVED, entries, events)
}

// The events where there is an entry in both, as far as a place.
fn push_changes(
    alloc: Global,
    actor: &Actor,
    both: usize,
    entries: &[AclEntry],
    others: &[AclEntry],
    events: &mut Steps,
) -> Result<(), AllocError>
    requires entries { both ≤ length entries.now }
    requires others { both ≤ length others.now }
    ensures { OnOk result (events.new ++ events_between actor.now (drop both entries.now) (drop both others.now) ≡ events.old ++ events_between actor.now entries.now others.now) }
{
    for i in 0..both {
        push_if_changed(alloc, actor, &entries[i], &others[i], events)?;
    }
    Ok(())
}

fn push_if_changed(
    alloc: Global,
    actor: &Actor,
    old: &AclEntry,
    new: &AclEntry,
    events: &mut Steps,
) -> Result<(), AllocError>
    ensures { OnOk result (events.new ≡ events.old ++ if_changed actor.now old.now new.now) }
{
    if is_same(old, new) {
        return Ok(());
    }
    push_event(alloc, actor, CHANGED, new, events)
}

fn is_same(entry: &AclEntry, other: &AclEntry) -> bool
    ensures { result ≡ is_same_entry entry.now other.now }
{
    what_is_told_the_same_is();
    entry.equals(other)
}

fn push_each(
    alloc: Global,
    actor: &Actor,
    change: u64,
    entries: &[AclEntry],
    events: &mut Steps,
) -> Result<(), AllocError>
    ensures { OnOk result (events.new ≡ events.old ++ map (entry_event actor.now change) entries.now) }
{
    for entry in entries {
        push_event(alloc, actor, change, entry, events)?;
    }
    Ok(())
}

fn push_event(
    alloc: Global,
    actor: &Actor,
    change: u64,
    entry: &AclEntry,
    events: &mut Steps,
) -> Result<(), AllocError>
    ensures { OnOk result (events.new ≡ events.old ++ entry_event actor.now change entry.now ∷ []) }
{
    events.push(entry_event(alloc, actor, change, entry)?)
}

#[tactic(auto, unfolding(crate::specs::EntryEvents::entry_event))]
fn entry_event(
    alloc: Global,
    actor: &Actor,
    change: u64,
    entry: &AclEntry,
) -> Result<NodeStep, AllocError>
    ensures { IfOk result (λ step. step ≡ entry_event actor.now change entry.now) }
{
    Ok(NodeStep::Emit {
        place: Place {
            endpoint: 0,
            cluster: ACCESS_CONTROL,
            leaf: ACCESS_CONTROL_ENTRY_CHANGED,
        },
        priority: 1,
        fabric: actor.fabric,
        value: entry_changed_value(alloc, actor, change, entry)?,
    })
}

// Who changed the entry, how, and the entry.
fn entry_changed_value(
    alloc: Global,
    actor: &Actor,
    change: u64,
    entry: &AclEntry,
) -> Result<Value, AllocError>
    ensures { IfOk result (λ value. value ≡ entry_changed_value actor.now change entry.now) }
{
    let entry = entry_value(alloc, entry)?;
    let fields = vec![in alloc;
        (Tag::Context(1), node_field(actor)),
        (Tag::Context(2), passcode_field(actor.auth)),
        (Tag::Context(3), Value::Uint(change)),
        (Tag::Context(4), entry),
        (Tag::Context(FABRIC_INDEX), Value::Uint(actor.fabric as u64)),
    ]?;
    Ok(Value::Struct(Members::from_vec(fields)))
}

// The node that changed the entry, over CASE.
fn node_field(actor: &Actor) -> Value
    ensures { tree result ≡ node_field actor.now.auth actor.now.node }
{
    match actor.auth {
        Auth::Case => Value::Uint(actor.node),
        _ => Value::Null,
    }
}

// The passcode's number, over PASE.
fn passcode_field(auth: Auth) -> Value
    ensures { tree result ≡ passcode_field auth }
{
    match auth {
        Auth::Pase => Value::Uint(0),
        _ => Value::Null,
    }
}
