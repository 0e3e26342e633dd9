//! Network Commissioning: its commands.

ghost use Rattle.std.specs.Prelude.{◌≡◌, ◌∷◌, ◌++◌, bytes_eq, map, length, position, IfOk, OnOk, Ok, Err, option_copied, option_map};
ghost use Rattle.std.specs.List.{list_any};
ghost use Rattle.mt_model.specs.tables.Known.{bare_armed, bare_network, known_in};
ghost use Rattle.mt_model.specs.texts.Config.{has_up_to};
ghost use Rattle.mt_failsafe.specs.Calls.{is_armed_by};
ghost use Rattle.mt_commission.specs.Answers.{responded_with};
ghost use Rattle.mt_commission.specs.NetworkCommissioning.{add_or_update_network, breadcrumb_steps, config_effect, config_fields, connect_fields, connect_network, connecting, found_place, has_id, id_value, if_place, last_steps, network_commissioning_effect, place_among, putting, put_place, remove_network, reorder_network, status_value};
ghost use Rattle.mt_commission.specs.declared.codes.NetworkStatus.TheVariants.{Success};

use crate::answers::{responded_with, set_breadcrumb, set_value};
use crate::codes::NetworkStatus;
use mt_failsafe::is_armed_by;
use mt_meta::clusters::NETWORK_COMMISSIONING;
use mt_meta::clusters::network_commissioning::{
    ADD_OR_UPDATE_WIFI_NETWORK, CONNECT_NETWORK, CONNECT_NETWORK_RESPONSE, LAST_NETWORK_ID,
    LAST_NETWORKING_STATUS, NETWORK_CONFIG_RESPONSE, REMOVE_NETWORK, REORDER_NETWORK,
};
use mt_meta::{given_number, number_of, octets_of};
use mt_model::limits::{NETWORK_ID_BYTES, NETWORK_SECRET_BYTES, NETWORKS};
use mt_model::{Actor, Armed, Effect, Network, NodeStep, Place, Roots, Status, Steps, View};
use mt_tlv::{Bytes, Tag, Value};
use std::alloc::{AllocError, Global};

/// What a command comes to, where these networks are within reach.
pub(crate) fn network_commissioning_effect(
    alloc: Global,
    view: &View,
    reachable: &Roots,
    actor: &Actor,
    command: &Place,
    fields: &Value,
) -> Result<Effect, AllocError>
    ensures { IfOk result (λ effect. effect ≡ network_commissioning_effect (known_in actor.now.fabric view.now) reachable.now actor.now command.now fields.now) }
{
    let networks = view.networks.as_slice();
    let owner = is_owner(actor.fabric, view.armed);
    match command.leaf {
        ADD_OR_UPDATE_WIFI_NETWORK if owner => {
            add_or_update_network(alloc, networks, command, fields)
        },
        REMOVE_NETWORK if owner => remove_network(alloc, networks, command, fields),
        CONNECT_NETWORK if owner => connect_network(alloc, networks, reachable, command, fields),
        REORDER_NETWORK if owner => reorder_network(alloc, networks, command, fields),
        ADD_OR_UPDATE_WIFI_NETWORK | REMOVE_NETWORK | CONNECT_NETWORK | REORDER_NETWORK => {
            Ok(Effect::refused_at(alloc, command, Status::FailsafeRequired))
        },
        _ => Ok(Effect::refused_at(alloc, command, Status::UnsupportedCommand)),
    }
}

// Whether this fabric has armed the fail-safe, which is known to all.
fn is_owner(fabric: u8, armed: Option<&Armed>) -> bool
    ensures { result ≡ is_armed_by fabric (option_map bare_armed (option_copied armed.entry)) }
{
    is_armed_by(fabric, armed)
}

fn add_or_update_network(
    alloc: Global,
    networks: &[Network],
    command: &Place,
    fields: &Value,
) -> Result<Effect, AllocError>
    ensures { IfOk result (λ effect. effect ≡ add_or_update_network (map bare_network networks.now) command.now fields.now) }
{
    let id = octets_of(fields, 0);
    let secret = octets_of(fields, 1);
    match putting(networks, id, secret) {
        Ok(place) => {
            let step = NodeStep::PutNetwork {
                id: Bytes::from_slice(alloc, id)?,
                secret: Bytes::from_slice(alloc, secret)?,
            };
            let breadcrumb = given_number(fields, 2);
            configured(alloc, command, id, breadcrumb, step, place)
        },
        Err(status) => config_refused(alloc, command, id, status),
    }
}

fn remove_network(
    alloc: Global,
    networks: &[Network],
    command: &Place,
    fields: &Value,
) -> Result<Effect, AllocError>
    ensures { IfOk result (λ effect. effect ≡ remove_network (map bare_network networks.now) command.now fields.now) }
{
    let id = octets_of(fields, 0);
    match found_place(networks, id) {
        Ok(place) => {
            let step = NodeStep::RemoveNetwork {
                id: Bytes::from_slice(alloc, id)?,
            };
            let breadcrumb = given_number(fields, 1);
            configured(alloc, command, id, breadcrumb, step, place)
        },
        Err(status) => config_refused(alloc, command, id, status),
    }
}

fn connect_network(
    alloc: Global,
    networks: &[Network],
    reachable: &Roots,
    command: &Place,
    fields: &Value,
) -> Result<Effect, AllocError>
    ensures { IfOk result (λ effect. effect ≡ connect_network (map bare_network networks.now) reachable.now command.now fields.now) }
{
    let id = octets_of(fields, 0);
    match connecting(networks, reachable.as_slice(), id) {
        Ok(_) => {
            let step = NodeStep::ConnectNetwork {
                id: Bytes::from_slice(alloc, id)?,
            };
            let breadcrumb = given_number(fields, 1);
            let steps = done_steps(alloc, id, breadcrumb, step)?;
            connect_effect(alloc, command, NetworkStatus::Success, steps)
        },
        Err(status) => {
            let steps = last_steps(alloc, status, id)?;
            connect_effect(alloc, command, status, steps)
        },
    }
}

fn reorder_network(
    alloc: Global,
    networks: &[Network],
    command: &Place,
    fields: &Value,
) -> Result<Effect, AllocError>
    ensures { IfOk result (λ effect. effect ≡ reorder_network (map bare_network networks.now) command.now fields.now) }
{
    let id = octets_of(fields, 0);
    match moving(networks, id, number_of(fields, 1)) {
        Ok(index) => {
            let step = NodeStep::MoveNetwork {
                id: Bytes::from_slice(alloc, id)?,
                index,
            };
            let breadcrumb = given_number(fields, 2);
            configured(alloc, command, id, breadcrumb, step, index as u64)
        },
        Err(status) => config_refused(alloc, command, id, status),
    }
}

// Where a network is put, or what stands in its way.
fn putting(networks: &[Network], id: &[u8], secret: &[u8]) -> Result<u64, NetworkStatus>
    ensures { result ≡ putting (map bare_network networks.now) id.now secret.now }
{
    if !is_id(id) || NETWORK_SECRET_BYTES < secret.len() {
        return Err(NetworkStatus::OutOfRange);
    }
    put_place(networks.len(), place_among(networks, id))
}

// The place of a network that is there, or that of a new one behind the others, of which there are so many.
fn put_place(count: usize, place: Option<usize>) -> Result<u64, NetworkStatus>
    ensures { result ≡ put_place count place }
{
    match place {
        Some(place) => Ok(place as u64),
        None if count < NETWORKS => Ok(count as u64),
        None => Err(NetworkStatus::BoundsExceeded),
    }
}

// Where a network stands.
fn found_place(networks: &[Network], id: &[u8]) -> Result<u64, NetworkStatus>
    ensures { result ≡ found_place (map bare_network networks.now) id.now }
{
    match place_among(networks, id) {
        Some(place) => Ok(place as u64),
        None => Err(NetworkStatus::NetworkIdNotFound),
    }
}

// Where a network stands that is within reach.
fn connecting(networks: &[Network], reachable: &[Bytes], id: &[u8]) -> Result<u64, NetworkStatus>
    ensures { result ≡ connecting (map bare_network networks.now) reachable.now id.now }
{
    let place = found_place(networks, id)?;
    if !is_reachable(reachable, id) {
        return Err(NetworkStatus::OtherConnectionFailure);
    }
    Ok(place)
}

// Where a network is moved that is there.
fn moving(networks: &[Network], id: &[u8], index: u64) -> Result<u8, NetworkStatus>
    ensures { result ≡ if_place (length networks.now) index (found_place (map bare_network networks.now) id.now) }
{
    found_place(networks, id)?;
    if index < networks.len() as u64 && index < NETWORKS as u64 {
        return Ok(index as u8);
    }
    Err(NetworkStatus::OutOfRange)
}

// The first network of this id, which is found without the secrets.
#[tactic(auto, using(crate::proofs::Places::bare_place))]
fn place_among(networks: &[Network], id: &[u8]) -> Option<usize>
    ensures { result ≡ place_among (map bare_network networks.now) id.now }
{
    first_with(networks, id)
}

fn first_with(networks: &[Network], id: &[u8]) -> Option<usize>
    ensures { result ≡ position (has_id id.now) networks.now }
{
    networks.iter().position(|network| has_id(id, network))
}

/// Whether a network has this id, which names it.
pub fn has_id(id: &[u8], network: &Network) -> bool
    ensures { result ≡ has_id id.now network.now }
{
    is_same(network.id.as_slice(), id)
}

fn is_reachable(reachable: &[Bytes], id: &[u8]) -> bool
    ensures { result ≡ list_any (bytes_eq id.now) reachable.now }
{
    reachable.iter().any(|other| is_same(id, other.as_slice()))
}

fn is_same(bytes: &[u8], other: &[u8]) -> bool
    ensures { result ≡ bytes_eq bytes.now other.now }
{
    bytes == other
}

fn is_id(id: &[u8]) -> bool
    ensures { result ≡ has_up_to 32 id.now }
{
    1 <= id.len() && id.len() <= NETWORK_ID_BYTES
}

// NetworkConfigResponse of a command that succeeds with this step, and with the place of the network.
fn configured(
    alloc: Global,
    command: &Place,
    id: &[u8],
    breadcrumb: Option<u64>,
    step: NodeStep,
    place: u64,
) -> Result<Effect, AllocError>
    ensures { IfOk result (λ effect. effect ≡ config_effect command.now id.now breadcrumb step (Ok place)) }
{
    let steps = done_steps(alloc, id, breadcrumb, step)?;
    let fields = vec![in alloc;
        (Tag::Context(0), status_value(NetworkStatus::Success)),
        (Tag::Context(2), Value::Uint(place)),
    ]?;
    Ok(responded_with(command, NETWORK_CONFIG_RESPONSE, fields, steps))
}

// NetworkConfigResponse of a command that is refused.
fn config_refused(
    alloc: Global,
    command: &Place,
    id: &[u8],
    status: NetworkStatus,
) -> Result<Effect, AllocError>
    ensures { IfOk result (λ effect. effect ≡ responded_with command.now 5 (config_fields (Err status)) (last_steps status id.now)) }
{
    let steps = last_steps(alloc, status, id)?;
    let fields = vec![in alloc; (Tag::Context(0), status_value(status))]?;
    Ok(responded_with(command, NETWORK_CONFIG_RESPONSE, fields, steps))
}

// ConnectNetworkResponse, whose error value is null.
fn connect_effect(
    alloc: Global,
    command: &Place,
    status: NetworkStatus,
    steps: Steps,
) -> Result<Effect, AllocError>
    ensures { IfOk result (λ effect. effect ≡ responded_with command.now 7 (connect_fields status) steps) }
{
    let fields = vec![in alloc;
        (Tag::Context(0), status_value(status)),
        (Tag::Context(2), Value::Null),
    ]?;
    Ok(responded_with(command, CONNECT_NETWORK_RESPONSE, fields, steps))
}

fn status_value(status: NetworkStatus) -> Value
    ensures { result ≡ status_value status }
{
    Value::Uint(status.number() as u64)
}

// The steps of a command that succeeds with this one.
fn done_steps(
    alloc: Global,
    id: &[u8],
    breadcrumb: Option<u64>,
    step: NodeStep,
) -> Result<Steps, AllocError>
    ensures { IfOk result (λ steps. steps ≡ step ∷ last_steps Success id.now ++ breadcrumb_steps breadcrumb) }
{
    let mut steps = Steps::new(alloc);
    steps.push(step)?;
    push_last(alloc, &mut steps, NetworkStatus::Success, id)?;
    if let Some(breadcrumb) = breadcrumb {
        steps.push(set_breadcrumb(alloc, breadcrumb)?)?;
    }
    Ok(steps)
}

// The steps that each command makes: its status and its id are the last.
fn last_steps(alloc: Global, status: NetworkStatus, id: &[u8]) -> Result<Steps, AllocError>
    ensures { IfOk result (λ steps. steps ≡ last_steps status id.now) }
{
    let mut steps = Steps::new(alloc);
    push_last(alloc, &mut steps, status, id)?;
    Ok(steps)
}

fn push_last(
    alloc: Global,
    steps: &mut Steps,
    status: NetworkStatus,
    id: &[u8],
) -> Result<(), AllocError>
    ensures { OnOk result (steps.new ≡ steps.old ++ last_steps status id.now) }
{
    let id = id_value(alloc, id)?;
    let status = status_value(status);
    steps.push(set_value(alloc, NETWORK_COMMISSIONING, LAST_NETWORKING_STATUS, status)?)?;
    steps.push(set_value(alloc, NETWORK_COMMISSIONING, LAST_NETWORK_ID, id)?)?;
    Ok(())
}

// An id, and null where it has not its length.
fn id_value(alloc: Global, id: &[u8]) -> Result<Value, AllocError>
    ensures { IfOk result (λ value. value ≡ id_value id.now) }
{
    if !is_id(id) {
        return Ok(Value::Null);
    }
    Ok(Value::Octets(Bytes::from_slice(alloc, id)?))
}
