//! Root certificates and networks as they are kept.

ghost use Rattle.std.specs.Prelude.{◌≡◌, IfOk};
ghost use Rattle.mt_tlv.specs.View.{elements, tree};
ghost use Rattle.mt_grammar.specs.Fields.{all_in};
ghost use Rattle.mt_grammar.specs.Values.{network_in, network_of, networks_in, roots_in};

use crate::fields::{array_in, fields_in, if_some, octets_at, octets_in, truth_at};
use mt_model::{Network, Networks, Roots};
use mt_rules::each;
use mt_tlv::{Tag, Value};
use std::alloc::{AllocError, Global};

/// The root certificates that a value is, None where it is none.
pub(crate) fn roots_in(alloc: Global, value: &Value) -> Result<Option<Roots>, AllocError>
    ensures { IfOk result (λ roots. roots ≡ roots_in (tree value.now)) }
{
    let Some(members) = array_in(value) else {
        return Ok(None);
    };
    let Some(roots) = each(alloc, members, octets_in)? else {
        return Ok(None);
    };
    Ok(if_some(roots))
}

/// The networks that a value is, None where it is none or there are none.
pub(crate) fn networks_in(alloc: Global, value: &Value) -> Result<Option<Networks>, AllocError>
    ensures { IfOk result (λ networks. networks ≡ networks_in (tree value.now)) }
{
    let Some(networks) = all_networks_in(alloc, value)? else {
        return Ok(None);
    };
    Ok(if_some(networks))
}

/// The networks that a value is, of which there may be none. None where it is no networks.
pub(crate) fn all_networks_in(alloc: Global, value: &Value) -> Result<Option<Networks>, AllocError>
    ensures { IfOk result (λ networks. networks ≡ all_in network_in (tree value.now)) }
{
    match array_in(value) {
        Some(members) => each(alloc, members, network_in),
        None => Ok(None),
    }
}

fn network_in(value: &Value) -> Result<Option<Network>, AllocError>
    ensures { IfOk result (λ network. network ≡ network_in (tree value.now)) }
{
    match fields_in(&[0, 1, 2], value) {
        Some(members) => network_of(members),
        None => Ok(None),
    }
}

fn network_of(members: &[(Tag, Value)]) -> Result<Option<Network>, AllocError>
    ensures { IfOk result (λ network. network ≡ network_of (elements members.now)) }
{
    let Some(id) = octets_at(members, 0)? else {
        return Ok(None);
    };
    let Some(secret) = octets_at(members, 1)? else {
        return Ok(None);
    };
    let Some(connected) = truth_at(members, 2) else {
        return Ok(None);
    };
    Ok(Some(Network {
        id,
        secret,
        connected,
    }))
}
