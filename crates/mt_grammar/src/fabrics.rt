//! Fabrics and their credentials as they are kept.

ghost use Rattle.std.specs.Prelude.{◌≡◌, ◌∷◌, [], IfOk, Some, option_and_then, option_map};
ghost use Rattle.mt_tlv.specs.View.{elements, tree};
ghost use Rattle.mt_grammar.specs.Fields.{fields_in};
ghost use Rattle.mt_grammar.specs.Values.{credentials_of, fabric_in, fabric_of, saved_in};

use crate::fields::{fields_in, is_null, octets_at, short_at, text_at, unsigned_at};
use mt_model::{Credentials, Fabric};
use mt_tlv::{Tag, Value};
use std::alloc::AllocError;

/// The fabric of this index that a value is, None where it is none.
pub(crate) fn fabric_in(index: u8, value: &Value) -> Result<Option<Fabric>, AllocError>
    ensures { IfOk result (λ fabric. fabric ≡ fabric_in index (tree value.now)) }
{
    match fields_in(&[0, 1, 2, 3, 4, 5, 6, 7, 8], value) {
        Some(members) => fabric_of(index, members),
        None => Ok(None),
    }
}

fn fabric_of(index: u8, members: &[(Tag, Value)]) -> Result<Option<Fabric>, AllocError>
    ensures { IfOk result (λ fabric. fabric ≡ fabric_of index (elements members.now)) }
{
    let Some(credentials) = credentials_of(members)? else {
        return Ok(None);
    };
    let Some(vendor) = short_at(members, 7) else {
        return Ok(None);
    };
    let Some(label) = text_at(members, 8)? else {
        return Ok(None);
    };
    Ok(Some(Fabric {
        index,
        credentials,
        vendor,
        label,
    }))
}

fn credentials_of(members: &[(Tag, Value)]) -> Result<Option<Credentials>, AllocError>
    ensures { IfOk result (λ credentials. credentials ≡ credentials_of (elements members.now)) }
{
    let Some(root) = octets_at(members, 0)? else {
        return Ok(None);
    };
    let Some(root_key) = octets_at(members, 1)? else {
        return Ok(None);
    };
    let Some(fabric_id) = unsigned_at(members, 2) else {
        return Ok(None);
    };
    let Some(node_id) = unsigned_at(members, 3) else {
        return Ok(None);
    };
    let Some(noc) = octets_at(members, 4)? else {
        return Ok(None);
    };
    let Some(icac) = octets_at(members, 5)? else {
        return Ok(None);
    };
    let Some(ipk) = octets_at(members, 6)? else {
        return Ok(None);
    };
    Ok(Some(Credentials {
        root,
        root_key,
        fabric_id,
        node_id,
        noc,
        icac,
        ipk,
    }))
}

/// Credentials that may be missing, which null says. None where the value is neither.
pub(crate) fn saved_in(value: &Value) -> Result<Option<Option<Credentials>>, AllocError>
    ensures { IfOk result (λ saved. saved ≡ saved_in (tree value.now)) }
{
    if is_null(value) {
        return Ok(Some(None));
    }
    given_in(value)
}

fn given_in(value: &Value) -> Result<Option<Option<Credentials>>, AllocError>
    ensures { IfOk result (λ saved. saved ≡ option_map Some (option_and_then credentials_of (fields_in (0 ∷ 1 ∷ 2 ∷ 3 ∷ 4 ∷ 5 ∷ 6 ∷ []) (tree value.now)))) }
{
    let Some(members) = fields_in(&[0, 1, 2, 3, 4, 5, 6], value) else {
        return Ok(None);
    };
    let Some(credentials) = credentials_of(members)? else {
        return Ok(None);
    };
    Ok(Some(Some(credentials)))
}
