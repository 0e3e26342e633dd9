//! What commands come to.

ghost use Rattle.std.specs.Prelude.{◌≡◌, ◌∷◌, [], IfOk, option_and_then, option_copied, option_map, unwrap_or};
ghost use Rattle.mt_tlv.specs.Tree.{more, none, structure};
ghost use Rattle.mt_tlv.specs.View.{elements, tree};
ghost use Rattle.mt_tlv.specs.declared.value.Tag.TheVariants.{Context};
ghost use Rattle.mt_meta.specs.Given.{field_of};
ghost use Rattle.mt_model.specs.Trees.{structure_in};
ghost use Rattle.mt_model.specs.tables.KeySets.{number_at};
ghost use Rattle.mt_model.specs.declared.node.action.NodeStep.TheVariants.{SetRow};
ghost use Rattle.mt_groupkeys.specs.Commands.{invoked, key_map, of_fabric, read_ids, read_set, remove_set, responded_with, set_in, told, told_members, write_set};
ghost use Rattle.mt_groupkeys.specs.Sets.{kept_set, own_rows, set_0, values_of};

use crate::sets::{has_starts, id_of, ids, is_there, kept_set, put_in, set_of, told_set, without};
use mt_meta::clusters::GROUP_KEY_MANAGEMENT;
use mt_meta::clusters::group_key_management::{
    GROUP_KEY_MAP, GROUP_KEY_SET_ID, KEY_SET_ID, KEY_SET_READ, KEY_SET_READ_ALL_INDICES,
    KEY_SET_READ_ALL_INDICES_RESPONSE, KEY_SET_READ_RESPONSE, KEY_SET_REMOVE, KEY_SET_WRITE,
};
use mt_meta::number_of;
use mt_model::limits::KEY_SETS;
use mt_model::{
    Actor, Effect, NodeStep, Place, Reply, Row, Status, Steps, Values, View, field, is_key_set,
    key_sets, structure_of,
};
use mt_tlv::{Members, Tag, Value};
use std::alloc::{AllocError, Global};

/// What a command of Group Key Management comes to: the reply, and the steps that it makes of the node (Matter
/// Core Specification, chapter 11, Group Key Management Cluster). It is asked of the key sets of the actor's
/// fabric; whoever has none is refused with UNSUPPORTED_ACCESS. Any other command is answered with
/// UNSUPPORTED_COMMAND.
///
/// Whether the actor may invoke it, and what its fields must be, is asked before; what a key set has to be is
/// asked here.
pub fn invoke(
    alloc: Global,
    view: &View,
    actor: &Actor,
    command: &Place,
    fields: &Value,
) -> Result<Effect, AllocError>
    ensures { IfOk result (λ effect. effect ≡ invoked (own_rows actor.now.fabric view.now) actor.now command.now fields.now) }
{
    if actor.fabric == 0 {
        return Ok(Effect::refused_at(alloc, command, Status::UnsupportedAccess));
    }
    of_fabric(alloc, view, actor.fabric, command, fields)
}

fn of_fabric(
    alloc: Global,
    view: &View,
    fabric: u8,
    command: &Place,
    fields: &Value,
) -> Result<Effect, AllocError>
    ensures { IfOk result (λ effect. effect ≡ of_fabric (own_rows fabric view.now) fabric command.now fields.now) }
{
    let sets = view.rows.of(&key_sets(), fabric);
    match command.leaf {
        KEY_SET_WRITE => write_set(alloc, sets, fabric, command, set_given(fields)),
        KEY_SET_READ => read_set(alloc, sets, command, number_of(fields, 0)),
        KEY_SET_REMOVE => {
            let items = view.rows.of(&key_map(), fabric);
            remove_set(alloc, sets, items, fabric, command, number_of(fields, 0))
        },
        KEY_SET_READ_ALL_INDICES => read_ids(alloc, sets, command),
        _ => Ok(Effect::refused_at(alloc, command, Status::UnsupportedCommand)),
    }
}

// GroupKeyMap.
fn key_map() -> Place
    ensures { result ≡ key_map }
{
    Place {
        endpoint: 0,
        cluster: GROUP_KEY_MANAGEMENT,
        leaf: GROUP_KEY_MAP,
    }
}

// KeySetWrite: 0 a key set.

// The members of the key set in the fields.
fn set_given(fields: &Value) -> Option<&[(Tag, Value)]>
    ensures { option_map (λ members. elements members.now) result ≡ option_and_then structure_in (field_of 0 fields.now) }
{
    let members = structure_of(fields)?;
    structure_of(field(members, 0)?)
}

fn write_set(
    alloc: Global,
    sets: &[Row],
    fabric: u8,
    command: &Place,
    members: Option<&[(Tag, Value)]>,
) -> Result<Effect, AllocError>
    ensures { IfOk result (λ effect. effect ≡ write_set (values_of sets.now) fabric command.now (option_map (λ members. elements members.now) members.entry)) }
{
    match members {
        Some(members) if is_key_set(members) && has_starts(members) => {
            set_in(alloc, sets, fabric, command, members)
        },
        _ => Ok(Effect::refused_at(alloc, command, Status::InvalidCommand)),
    }
}

// The set is put in the place of the one with its id, or last, where there is room.
fn set_in(
    alloc: Global,
    sets: &[Row],
    fabric: u8,
    command: &Place,
    members: &[(Tag, Value)],
) -> Result<Effect, AllocError>
    ensures { let es = elements members.now in
        IfOk result (λ effect. effect ≡ set_in (values_of sets.now) fabric command.now (unwrap_or (number_at 0 es) 0) (kept_set fabric es)) }
{
    let id = id_of(members);
    if !is_there(id, sets) && KEY_SETS <= sets.len() {
        return Ok(Effect::refused_at(alloc, command, Status::ResourceExhausted));
    }
    let set = kept_set(alloc, fabric, members)?;
    let values = put_in(alloc, id, set, sets)?;
    let mut steps = Steps::new(alloc);
    steps.push(rows_set(key_sets(), fabric, values))?;
    Ok(Effect::answered_with(command, Status::Success, steps))
}

// The rows of the fabric at this place have these values.
fn rows_set(place: Place, fabric: u8, values: Values) -> NodeStep
    ensures { result ≡ SetRow place fabric values }
{
    NodeStep::SetRow {
        place,
        fabric,
        values,
    }
}

// KeySetRead: 0 an id.

fn read_set(alloc: Global, sets: &[Row], command: &Place, id: u64) -> Result<Effect, AllocError>
    ensures { IfOk result (λ effect. effect ≡ read_set (values_of sets.now) command.now id) }
{
    if id == 0 {
        return set_told(alloc, command, set_0(alloc)?);
    }
    told(alloc, command, set_of(id, sets))
}

// Set 0, which is always there, as it is told: with policy 0 and start 0.
fn set_0(alloc: Global) -> Result<Vec<(Tag, Value)>, AllocError>
    ensures { IfOk result (λ told. elements told.items ≡ set_0) }
{
    let told = vec![in alloc;
        (Tag::Context(0), Value::Uint(0)),
        (Tag::Context(1), Value::Uint(0)),
        (Tag::Context(2), Value::Null),
        (Tag::Context(3), Value::Uint(0)),
        (Tag::Context(4), Value::Null),
        (Tag::Context(5), Value::Null),
        (Tag::Context(6), Value::Null),
        (Tag::Context(7), Value::Null),
    ]?;
    Ok(told)
}

fn told(alloc: Global, command: &Place, set: Option<&Value>) -> Result<Effect, AllocError>
    ensures { IfOk result (λ effect. effect ≡ told command.now (option_copied set.entry)) }
{
    match set {
        Some(set) => set_told(alloc, command, told_members(alloc, set)?),
        None => Ok(Effect::refused_at(alloc, command, Status::NotFound)),
    }
}

fn told_members(alloc: Global, set: &Value) -> Result<Vec<(Tag, Value)>, AllocError>
    ensures { IfOk result (λ told. elements told.items ≡ told_members (structure_in (tree set.now))) }
{
    match structure_of(set) {
        Some(members) => told_set(alloc, members),
        None => Ok(Vec::new(alloc)),
    }
}

// KeySetReadResponse: 0 the set.
fn set_told(
    alloc: Global,
    command: &Place,
    members: Vec<(Tag, Value)>,
) -> Result<Effect, AllocError>
    ensures { IfOk result (λ effect. effect ≡ responded_with command.now 2 (more (Context 0) (structure (elements members.items)) none)) }
{
    let set = Value::Struct(Members::from_vec(members));
    responded_with(alloc, command, KEY_SET_READ_RESPONSE, set)
}

// KeySetRemove: 0 an id. The set goes, and so do the items of GroupKeyMap that name it.
fn remove_set(
    alloc: Global,
    sets: &[Row],
    items: &[Row],
    fabric: u8,
    command: &Place,
    id: u64,
) -> Result<Effect, AllocError>
    ensures { IfOk result (λ effect. effect ≡ remove_set (values_of sets.now) (values_of items.now) fabric command.now id) }
{
    if id == 0 {
        return Ok(Effect::refused_at(alloc, command, Status::InvalidCommand));
    }
    if !is_there(id, sets) {
        return Ok(Effect::refused_at(alloc, command, Status::NotFound));
    }
    let sets = without(alloc, KEY_SET_ID, id, sets)?;
    let items = without(alloc, GROUP_KEY_SET_ID, id, items)?;
    let mut steps = Steps::new(alloc);
    steps.push(rows_set(key_sets(), fabric, sets))?;
    steps.push(rows_set(key_map(), fabric, items))?;
    Ok(Effect::answered_with(command, Status::Success, steps))
}

// KeySetReadAllIndices: it has no fields. It is answered with 0 the ids.
fn read_ids(alloc: Global, sets: &[Row], command: &Place) -> Result<Effect, AllocError>
    ensures { IfOk result (λ effect. effect ≡ read_ids (values_of sets.now) command.now) }
{
    let ids = ids(alloc, sets)?;
    responded_with(alloc, command, KEY_SET_READ_ALL_INDICES_RESPONSE, ids)
}

// The response of this number, with one field.
fn responded_with(
    alloc: Global,
    command: &Place,
    response: u32,
    value: Value,
) -> Result<Effect, AllocError>
    ensures { IfOk result (λ effect. effect ≡ responded_with command.now response (more (Context 0) (tree value) none)) }
{
    let fields = vec![in alloc; (Tag::Context(0), value)]?;
    Ok(Effect {
        reply: Reply::Invoked {
            command: Place {
                leaf: response,
                ..*command
            },
            fields: Value::Struct(Members::from_vec(fields)),
        },
        steps: Steps::new(alloc),
    })
}
