//! Structures of what is kept: fabrics, networks, the fail-safe.

ghost use Rattle.std.specs.Prelude.{◌≡◌, IfOk};
ghost use Rattle.mt_tlv.specs.Tree.{none};
ghost use Rattle.mt_tlv.specs.View.{elements, tree, value_of};
ghost use Rattle.mt_lasting.specs.Values.{credential_fields, fabric_value, failsafe_value, network_tree, saved_tree};

use crate::arrays::array_members;
use mt_model::{Armed, Credentials, Fabric, Network};
use mt_tlv::{Members, Tag, Value};
use std::alloc::{AllocError, Global};

/// A fabric: 0 to 6 its credentials, 7 vendor, 8 label.
pub(crate) fn fabric_value(alloc: Global, fabric: &Fabric) -> Result<Value, AllocError>
    ensures { IfOk result (λ value. value ≡ fabric_value fabric.now) }
{
    let credentials = &fabric.credentials;
    let members = vec![in alloc;
        (Tag::Context(0), Value::Octets(credentials.root.copy()?)),
        (Tag::Context(1), Value::Octets(credentials.root_key.copy()?)),
        (Tag::Context(2), Value::Uint(credentials.fabric_id)),
        (Tag::Context(3), Value::Uint(credentials.node_id)),
        (Tag::Context(4), Value::Octets(credentials.noc.copy()?)),
        (Tag::Context(5), Value::Octets(credentials.icac.copy()?)),
        (Tag::Context(6), Value::Octets(credentials.ipk.copy()?)),
        (Tag::Context(7), Value::Uint(fabric.vendor as u64)),
        (Tag::Context(8), Value::Text(fabric.label.copy()?)),
    ]?;
    Ok(Value::Struct(Members::from_vec(members)))
}

// Saved credentials, with the fields that they have in a fabric; null where there are none.
fn saved_value(alloc: Global, saved: &Option<Credentials>) -> Result<Value, AllocError>
    ensures { IfOk result (λ value. tree value ≡ saved_tree saved.now) }
{
    match saved {
        Some(credentials) => credentials_value(alloc, credentials),
        None => Ok(Value::Null),
    }
}

// 0 root, 1 root key, 2 fabric id, 3 node id, 4 NOC, 5 ICAC, 6 IPK.
fn credentials_value(alloc: Global, credentials: &Credentials) -> Result<Value, AllocError>
    ensures { IfOk result (λ value. tree value ≡ saved_tree (Some credentials.now)) }
{
    let members = vec![in alloc;
        (Tag::Context(0), Value::Octets(credentials.root.copy()?)),
        (Tag::Context(1), Value::Octets(credentials.root_key.copy()?)),
        (Tag::Context(2), Value::Uint(credentials.fabric_id)),
        (Tag::Context(3), Value::Uint(credentials.node_id)),
        (Tag::Context(4), Value::Octets(credentials.noc.copy()?)),
        (Tag::Context(5), Value::Octets(credentials.icac.copy()?)),
        (Tag::Context(6), Value::Octets(credentials.ipk.copy()?)),
    ]?;
    Ok(Value::Struct(Members::from_vec(members)))
}

/// A network: 0 id, 1 secret, 2 whether it is connected.
pub(crate) fn network_value(alloc: Global, network: &Network) -> Result<Value, AllocError>
    ensures { IfOk result (λ value. value ≡ value_of (network_tree network.now)) }
{
    let members = vec![in alloc;
        (Tag::Context(0), Value::Octets(network.id.copy()?)),
        (Tag::Context(1), Value::Octets(network.secret.copy()?)),
        (Tag::Context(2), Value::Bool(network.connected)),
    ]?;
    Ok(Value::Struct(Members::from_vec(members)))
}

/// The fail-safe: 0 owner, 1 context, 2 whether it was added, 3 whether it was updated, 4 saved credentials, 5 saved
/// networks.
pub(crate) fn failsafe_value(alloc: Global, armed: &Armed) -> Result<Value, AllocError>
    ensures { IfOk result (λ value. value ≡ failsafe_value armed.now) }
{
    let networks = array_members(alloc, armed.saved_networks.as_slice())?;
    let members = vec![in alloc;
        (Tag::Context(0), Value::Uint(armed.owner as u64)),
        (Tag::Context(1), Value::Uint(armed.context as u64)),
        (Tag::Context(2), Value::Bool(armed.added.is_some())),
        (Tag::Context(3), Value::Bool(armed.updated.is_some())),
        (
            Tag::Context(4),
            saved_value(alloc, &armed.saved_credentials)?
        ),
        (Tag::Context(5), Value::Array(networks)),
    ]?;
    Ok(Value::Struct(Members::from_vec(members)))
}
