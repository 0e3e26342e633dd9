//! What the steps of an answer make of the state. Planning takes the room, and putting in place takes no memory. No
//! other file knows how a step changes rows, entries, versions and change numbers.

ghost use Rattle.std.specs.Prelude.{◌≡◌, ◌+◌, ◌≤◌, ◌≢◌, [], true, IfOk, IfSome, IsTrue, Option, length, map, vec_capacity, vec_len};
ghost use Rattle.std.specs.List.{list_all, list_any, sum_by};
ghost use Rattle.std.specs.Option.{option_and_then};
ghost use Rattle.mt_model.specs.texts.Config.{ascend_from};
ghost use Rattle.mt_model.specs.declared.tables.access.Actor.{Actor};
ghost use Rattle.mt_model.specs.declared.node.state.NodeState.{NodeState};
ghost use Rattle.mt_machine.specs.Changes.{changed_at, is_within, noted_all, version_after};
ghost use Rattle.mt_machine.specs.Effects.{after, after_all, is_setting_step, sets_values};
ghost use Rattle.mt_machine.specs.State.{IsValid};
ghost use Rattle.mt_machine.specs.Step.{at_time};
ghost use Rattle.mt_machine.specs.Taking.{may_take_all};
ghost use Rattle.mt_subs.specs.Changes.{IsChanges, newest_of};
ghost use Rattle.mt_node.specs.Plan.{HaveRoom, IsMade, IsReady, IsRoomFor, applied, entries_in, needed, rows_behind};

use crate::behind::made_whole;
use crate::differences::differing;
use crate::lasting::{change_set, no_change};
use crate::node::Node;
use crate::outcome::{Outcome, OutcomeParts};
use crate::rooms::rooms;
use crate::telling::events_in;
use mt_machine::{actions_set_values, actions_tell_their_own};
use mt_model::{
    AclEntries, AclEntry, Actor, ChangeNumbers, Effect, NodeState, NodeStep, Place, Places, Row,
    SessionIds, Steps, StoredRows, Version, Versions, set_entries, set_entries_stand_in_order,
};
use mt_regained::only_what_lasts_changes;
use mt_subs::Changes;
use std::alloc::{AllocError, Global};
use std::mem::replace;

/// The outcome of an answer to whoever is taken as asking, whose steps the state takes. One that makes no step takes
/// no memory, and steps that set values are made in place; for others the state behind is made whole.
pub(crate) fn outcome(
    alloc: Global,
    node: &Node,
    asking: Option<Actor>,
    answered: Effect,
    now: u64,
) -> Result<Outcome, AllocError>
    requires { may_take_all asking answered.steps (at_time now node.now.state) ≡ true }
    ensures { IfOk result (IsMade node.now.state asking answered now) }
{
    actions_set_values();
    if answered.steps.is_empty() {
        return Ok(unchanged(alloc, asking, answered, now));
    }
    if set_values(answered.steps.as_slice()) {
        return made_in_place(alloc, node, asking, answered, now);
    }
    made_whole(node, asking, answered, now)
}

// Whether steps do no more than set values.
fn set_values(steps: &[NodeStep]) -> bool
    ensures { result ≡ list_all sets_values steps.now }
{
    steps.iter().all(|step| sets_values(step))
}

fn sets_values(step: &NodeStep) -> bool
    ensures { result ≡ sets_values step.now }
{
    match step {
        NodeStep::SetRow { .. } => true,
        NodeStep::SetEntries { .. } => true,
        NodeStep::Emit { .. } => true,
        _ => false,
    }
}

// The outcome of steps that set values: they are made as the outcome is put in place, in room that it brings.
fn made_in_place(
    alloc: Global,
    node: &Node,
    asking: Option<Actor>,
    answered: Effect,
    now: u64,
) -> Result<Outcome, AllocError>
    requires steps { list_all is_setting_step answered.steps ≡ true }
    requires taken { may_take_all asking answered.steps (at_time now node.now.state) ≡ true }
    ensures { IfOk result (IsMade node.now.state asking answered now) }
{
    actions_set_values();
    actions_tell_their_own();
    only_what_lasts_changes();
    let steps = answered.steps.as_slice();
    let told = events_in(alloc, steps)?;
    let change = change_set(node, steps)?;
    let places = differing(alloc, node, steps)?;
    let rows_rooms = rooms(alloc, &node.state.rows, steps)?;
    let Some(entries) = entries_needed(&node.state.entries, steps) else {
        return Err(AllocError);
    };
    Ok(Outcome {
        reply: answered.reply,
        session: session_of(asking),
        closed: SessionIds::new(alloc),
        gone: None,
        told,
        change,
        behind: None,
        steps: answered.steps,
        places,
        rows_rooms,
        entries_room: Vec::with_capacity(alloc, entries)?,
        clock: now,
    })
}

/// The outcome of an answer that makes no step: the time alone is new.
pub(crate) fn unchanged(alloc: Global, asking: Option<Actor>, answered: Effect, now: u64) -> Outcome
    requires { answered.steps ≡ [] }
    ensures { (s : NodeState) → IsMade s asking answered now result }
{
    actions_set_values();
    actions_tell_their_own();
    only_what_lasts_changes();
    Outcome {
        reply: answered.reply,
        session: session_of(asking),
        closed: SessionIds::new(alloc),
        gone: None,
        told: Steps::new(alloc),
        change: no_change(alloc),
        behind: None,
        steps: answered.steps,
        places: Places::new(alloc),
        rows_rooms: Vec::new(alloc),
        entries_room: Vec::new(alloc),
        clock: now,
    }
}

pub(crate) fn session_of(asking: Option<Actor>) -> Option<u16>
    ensures { result ≡ option_and_then (λ (actor : Actor). actor.session) asking }
{
    match asking {
        Some(actor) => actor.session,
        None => None,
    }
}

// For how many entries there is to be room, None where they are past counting.
fn entries_needed(entries: &AclEntries, steps: &[NodeStep]) -> Option<usize>
    ensures { IfSome result (λ room. room ≡ length entries.now + sum_by entries_in steps.now) }
{
    let mut needed = entries.len();
    for step in steps {
        needed = needed.checked_add(entries_in(step))?;
    }
    Some(needed)
}

fn entries_in(step: &NodeStep) -> usize
    ensures { result ≡ entries_in step.now }
{
    match step {
        NodeStep::SetEntries { entries, .. } => entries.len(),
        _ => 0,
    }
}

/// Makes of the state what an outcome makes of it, and gives the events that this tells. It takes no memory, and cannot fail.
pub(crate) fn apply(alloc: Global, state: &mut NodeState, outcome: Outcome) -> Steps
    requires ready { IsReady state.old outcome }
    requires valid { IsValid state.old }
    ensures state { state.new ≡ applied outcome state.old }
    ensures told { result ≡ outcome.told }
{
    let OutcomeParts {
        told,
        behind,
        steps,
        places,
        rows_rooms,
        entries_room,
        clock,
    } = outcome.into_parts();
    match behind {
        Some(behind) => *state = Box::into_inner(behind),
        None => {
            state.clock = clock;
            make(alloc, state, steps, rows_rooms, entries_room);
            settle(alloc, state, places.as_slice());
        },
    }
    told
}

// Makes the steps, of which those on entries want these in the room that is there for them. Where there is no step, nothing is moved.
fn make(
    alloc: Global,
    state: &mut NodeState,
    steps: Steps,
    rows_rooms: Vec<Vec<Row>>,
    entries_room: Vec<AclEntry>,
)
    requires steps { list_all is_setting_step steps ≡ true }
    requires ascending { IsTrue (ascend_from 0 state.old.entries) }
    requires rows { HaveRoom state.old.rows steps rows_rooms.items }
    requires no_entries { entries_room.items ≡ [] }
    requires entries { needed entries_in (length state.old.entries) steps ≤ vec_capacity entries_room }
    ensures made { (asking : Option Actor) → state.new ≡ after_all asking steps state.old }
    ensures kept { state.new ≡ record state.old { rows = state.new.rows; entries = state.new.entries } }
{
    if steps.is_empty() {
        return;
    }
    let entries = replace(&mut state.entries, AclEntries::new(alloc));
    let mut entries = moved(entries.into_vec(), entries_room);
    make_steps(steps, rows_rooms, &mut state.rows, &mut entries);
    state.entries = AclEntries::from_vec(entries);
}

// The entries, in the room that is there for them.
fn moved(entries: Vec<AclEntry>, room: Vec<AclEntry>) -> Vec<AclEntry>
    requires empty { room.items ≡ [] }
    requires room { vec_len entries ≤ vec_capacity room }
    ensures items { result.items ≡ entries.items }
    ensures capacity { vec_capacity room ≤ vec_capacity result }
{
    let mut entries = entries;
    let mut room = room;
    room.append(&mut entries).unwrap();
    room
}

// Makes each step in its room.
fn make_steps(
    steps: Steps,
    rows_rooms: Vec<Vec<Row>>,
    rows: &mut StoredRows,
    entries: &mut Vec<AclEntry>,
)
    requires steps { list_all is_setting_step steps ≡ true }
    requires entries_ascend { IsTrue (ascend_from 0 entries.old.items) }
    requires rows { HaveRoom rows.old steps rows_rooms.items }
    requires entries { vec_len entries.old + sum_by entries_in steps ≤ vec_capacity entries.old }
    ensures made { (asking : Option Actor) (s : NodeState) → after_all asking steps (record s { rows = rows.old; entries = entries.old.items }) ≡ record s { rows = rows.new; entries = entries.new.items } }
{
    let mut rooms = rows_rooms.into_iter();
    for step in steps.into_vec() {
        // There is a room for each step.
        let Some(room) = rooms.next() else {
            return;
        };
        make_step(step, room, rows, entries);
    }
}

fn make_step(step: NodeStep, room: Vec<Row>, rows: &mut StoredRows, entries: &mut Vec<AclEntry>)
    requires setting { is_setting_step step ≡ true }
    requires entries_ascend { IsTrue (ascend_from 0 entries.old.items) }
    requires rows { IsRoomFor rows.old step room }
    requires entries { vec_len entries.old + entries_in step ≤ vec_capacity entries.old }
    ensures rows { rows.new ≡ rows_behind step rows.old }
    ensures entries_ascend { IsTrue (ascend_from 0 entries.new.items) }
    ensures entries { vec_len entries.new ≤ vec_len entries.old + entries_in step }
    ensures entries_capacity { vec_capacity entries.new ≡ vec_capacity entries.old }
    ensures made { (asking : Option Actor) (s : NodeState) → after asking step (record s { rows = rows.old; entries = entries.old.items }) ≡ record s { rows = rows.new; entries = entries.new.items } }
{
    set_entries_stand_in_order();
    match step {
        NodeStep::SetRow {
            place,
            fabric,
            values,
        } => rows.set(&place, fabric, values, room),
        NodeStep::SetEntries {
            fabric,
            entries: new,
        } => set_entries(entries, fabric, new),
        NodeStep::PutNetwork { .. } => {},
        NodeStep::RemoveNetwork { .. } => {},
        NodeStep::ConnectNetwork { .. } => {},
        NodeStep::MoveNetwork { .. } => {},
        NodeStep::Arm { .. } => {},
        NodeStep::Renew { .. } => {},
        NodeStep::Expire => {},
        NodeStep::Complete => {},
        NodeStep::AddRoot { .. } => {},
        NodeStep::Csr { .. } => {},
        NodeStep::AddFabric { .. } => {},
        NodeStep::UpdateFabric { .. } => {},
        NodeStep::RemoveFabric { .. } => {},
        NodeStep::Label { .. } => {},
        NodeStep::Emit { .. } => {},
    }
}

// Gives the next version to each cluster of these places, and notes that each attribute has changed. Where there is
// none, nothing is gone over.
pub(crate) fn settle(alloc: Global, state: &mut NodeState, places: &[Place])
    requires stand { IsChanges state.old.changes }
    requires newest { newest_of state.old.changes ≤ state.old.changed }
    ensures { state.new ≡ changed_at places.now state.old state.old }
{
    actions_set_values();
    if places.is_empty() {
        return;
    }
    raise(alloc, state, places);
}

fn raise(alloc: Global, state: &mut NodeState, places: &[Place])
    requires some { length places.now ≢ 0 }
    requires stand { IsChanges state.old.changes }
    requires newest { newest_of state.old.changes ≤ state.old.changed }
    ensures { state.new ≡ changed_at places.now state.old state.old }
{
    let number = state.changed.saturating_add(1);
    let versions = replace(&mut state.versions, Versions::new(alloc));
    let changes = replace(&mut state.changes, ChangeNumbers::new(alloc));
    state.versions = Versions::from_vec(raised(versions.into_vec(), places));
    state.changes = noted_all(changes, places, number);
    state.changed = number;
}

// The versions, in the same memory, of which those of the clusters of these places are the next.
fn raised(versions: Vec<Version>, places: &[Place]) -> Vec<Version>
    ensures { result.items ≡ map (version_after places.now) versions.items }
{
    let mut versions = versions;
    for version in versions.iter_mut() {
        *version = version_after(*version, places);
    }
    versions
}

fn version_after(version: Version, places: &[Place]) -> Version
    ensures { result ≡ version_after places.now version }
{
    if has_place_of(&version, places) {
        return Version {
            version: version.version.wrapping_add(1),
            ..version
        };
    }
    version
}

fn has_place_of(version: &Version, places: &[Place]) -> bool
    ensures { result ≡ list_any (is_within version.now) places.now }
{
    places.iter().any(|place| place.endpoint == version.endpoint
        && place.cluster == version.cluster)
}

// The changes, in the same memory, with each of these places noted as the change of this number.
fn noted_all(numbers: ChangeNumbers, places: &[Place], number: u64) -> ChangeNumbers
    requires stand { IsChanges numbers }
    requires newest { newest_of numbers ≤ number }
    ensures { result ≡ noted_all places.now number numbers }
{
    let mut changes = Changes::from_numbers(numbers);
    for place in places {
        let _ = changes.note(place, number);
    }
    changes.into_numbers()
}
