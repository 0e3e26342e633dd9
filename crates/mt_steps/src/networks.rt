//! What steps make of the networks.

ghost use Rattle.std.specs.Prelude.{◌≡◌, IfOk, OnErr, OnOk, filter, map};
ghost use Rattle.std.specs.List.{list_any};
ghost use Rattle.mt_commission.specs.NetworkCommissioning.{has_id};
ghost use Rattle.mt_machine.specs.Effects.{connected_to, moved_to, others_than, with_network, with_new, with_secret};

use mt_commission::has_id;
use mt_model::limits::NETWORKS;
use mt_model::{ExactCopy, Network, Networks};
use mt_tlv::Bytes;
use std::alloc::{AllocError, Global};

/// The network of this id has this secret; a new one stands last, where there is room for it.
pub(crate) fn put_network(
    alloc: Global,
    id: Bytes,
    secret: Bytes,
    networks: &mut Networks,
) -> Result<(), AllocError>
    ensures networks { OnOk result (networks.new ≡ with_network id secret networks.old) }
    ensures kept { OnErr result (networks.new ≡ networks.old) }
{
    if is_among(id.as_slice(), networks.as_slice()) {
        *networks = with_secrets(alloc, id.as_slice(), secret.as_slice(), networks.as_slice())?;
        return Ok(());
    }
    put_new(id, secret, networks)
}

fn put_new(id: Bytes, secret: Bytes, networks: &mut Networks) -> Result<(), AllocError>
    ensures networks { OnOk result (networks.new ≡ with_new id secret networks.old) }
    ensures kept { OnErr result (networks.new ≡ networks.old) }
{
    if networks.len() >= NETWORKS {
        return Ok(());
    }
    networks.push(Network {
        id,
        secret,
        connected: false,
    })
}

fn is_among(id: &[u8], networks: &[Network]) -> bool
    ensures { result ≡ list_any (has_id id.now) networks.now }
{
    networks.iter().any(|network| has_id(id, network))
}

fn with_secrets(
    alloc: Global,
    id: &[u8],
    secret: &[u8],
    networks: &[Network],
) -> Result<Networks, AllocError>
    ensures { IfOk result (λ behind. behind ≡ map (with_secret id.now secret.now) networks.now) }
{
    let mut behind = Networks::new(alloc);
    for network in networks {
        behind.push(with_secret(alloc, id, secret, network)?)?;
    }
    Ok(behind)
}

fn with_secret(
    alloc: Global,
    id: &[u8],
    secret: &[u8],
    network: &Network,
) -> Result<Network, AllocError>
    ensures { IfOk result (λ behind. behind ≡ with_secret id.now secret.now network.now) }
{
    if !has_id(id, network) {
        return network.copy();
    }
    Ok(Network {
        id: network.id.copy()?,
        secret: Bytes::from_slice(alloc, secret)?,
        connected: network.connected,
    })
}

/// The network of this id goes.
pub(crate) fn remove_network(
    alloc: Global,
    id: &Bytes,
    networks: &mut Networks,
) -> Result<(), AllocError>
    ensures networks { OnOk result (networks.new ≡ others_than id.now networks.old) }
    ensures kept { OnErr result (networks.new ≡ networks.old) }
{
    *networks = others_than(alloc, id.as_slice(), networks.as_slice())?;
    Ok(())
}

fn others_than(alloc: Global, id: &[u8], networks: &[Network]) -> Result<Networks, AllocError>
    ensures { IfOk result (λ others. others ≡ others_than id.now networks.now) }
{
    let mut others = Networks::new(alloc);
    for network in networks {
        if !has_id(id, network) {
            others.push(network.copy()?)?;
        }
    }
    Ok(others)
}

/// The network of this id is connected, and no other.
pub(crate) fn connect_network(
    alloc: Global,
    id: &Bytes,
    networks: &mut Networks,
) -> Result<(), AllocError>
    ensures networks { OnOk result (networks.new ≡ map (connected_to id.now) networks.old) }
    ensures kept { OnErr result (networks.new ≡ networks.old) }
{
    *networks = connected_to(alloc, id.as_slice(), networks.as_slice())?;
    Ok(())
}

fn connected_to(alloc: Global, id: &[u8], networks: &[Network]) -> Result<Networks, AllocError>
    ensures { IfOk result (λ behind. behind ≡ map (connected_to id.now) networks.now) }
{
    let mut behind = Networks::new(alloc);
    for network in networks {
        behind.push(Network {
            id: network.id.copy()?,
            secret: network.secret.copy()?,
            connected: has_id(id, network),
        })?;
    }
    Ok(behind)
}

/// The network of this id stands at this place among the networks, from 0, or last where there are fewer.
pub(crate) fn move_network(
    alloc: Global,
    id: &Bytes,
    index: u8,
    networks: &mut Networks,
) -> Result<(), AllocError>
    ensures networks { OnOk result (networks.new ≡ moved_to id.now index networks.old) }
    ensures kept { OnErr result (networks.new ≡ networks.old) }
{
    let mut behind = others_than(alloc, id.as_slice(), networks.as_slice())?.into_vec();
    let mut moved = with_id(alloc, id.as_slice(), networks.as_slice())?.into_vec();
    let place = usize::from(index).min(behind.len());
    let mut rest = behind.split_off(place)?;
    behind.append(&mut moved)?;
    behind.append(&mut rest)?;
    *networks = Networks::from_vec(behind);
    Ok(())
}

fn with_id(alloc: Global, id: &[u8], networks: &[Network]) -> Result<Networks, AllocError>
    ensures { IfOk result (λ found. found ≡ filter (has_id id.now) networks.now) }
{
    let mut found = Networks::new(alloc);
    for network in networks {
        if has_id(id, network) {
            found.push(network.copy()?)?;
        }
    }
    Ok(found)
}
