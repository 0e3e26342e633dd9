//! The fail-safe as it is kept.

ghost use Rattle.std.specs.Prelude.{◌≡◌, IfOk, option_and_then};
ghost use Rattle.mt_tlv.specs.View.{elements, tree};
ghost use Rattle.mt_model.specs.Trees.{field_in};
ghost use Rattle.mt_grammar.specs.Fields.{all_in};
ghost use Rattle.mt_grammar.specs.Values.{armed_in, armed_of, if_so, network_in, saved_in};

use crate::fabrics::saved_in;
use crate::fields::{fields_in, index_at, truth_at};
use crate::networks::all_networks_in;
use mt_model::{Armed, Credentials, Networks, field};
use mt_tlv::{Tag, Value};
use std::alloc::{AllocError, Global};

/// The fail-safe that a value is, None where it is none.
pub(crate) fn armed_in(alloc: Global, value: &Value) -> Result<Option<Armed>, AllocError>
    ensures { IfOk result (λ armed. armed ≡ armed_in (tree value.now)) }
{
    match fields_in(&[0, 1, 2, 3, 4, 5], value) {
        Some(members) => armed_of(alloc, members),
        None => Ok(None),
    }
}

fn armed_of(alloc: Global, members: &[(Tag, Value)]) -> Result<Option<Armed>, AllocError>
    ensures { IfOk result (λ armed. armed ≡ armed_of (elements members.now)) }
{
    let Some(owner) = index_at(members, 0) else {
        return Ok(None);
    };
    let Some(context) = index_at(members, 1) else {
        return Ok(None);
    };
    let Some(added) = truth_at(members, 2) else {
        return Ok(None);
    };
    let Some(updated) = truth_at(members, 3) else {
        return Ok(None);
    };
    let Some(saved_credentials) = saved_at(members)? else {
        return Ok(None);
    };
    let Some(saved_networks) = networks_at(alloc, members)? else {
        return Ok(None);
    };
    Ok(Some(Armed {
        owner,
        context,
        until: 0,
        limit: 0,
        added: if_so(added, context),
        updated: if_so(updated, context),
        root: None,
        csr: None,
        saved_credentials,
        saved_networks,
    }))
}

fn if_so(so: bool, fabric: u8) -> Option<u8>
    ensures { result ≡ if_so so fabric }
{
    if so { Some(fabric) } else { None }
}

fn saved_at(members: &[(Tag, Value)]) -> Result<Option<Option<Credentials>>, AllocError>
    ensures { IfOk result (λ saved. saved ≡ option_and_then saved_in (field_in 4 (elements members.now))) }
{
    match field(members, 4) {
        Some(value) => saved_in(value),
        None => Ok(None),
    }
}

fn networks_at(alloc: Global, members: &[(Tag, Value)]) -> Result<Option<Networks>, AllocError>
    ensures { IfOk result (λ networks. networks ≡ option_and_then (all_in network_in) (field_in 5 (elements members.now))) }
{
    match field(members, 5) {
        Some(value) => all_networks_in(alloc, value),
        None => Ok(None),
    }
}
