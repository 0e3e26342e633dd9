//! What is looked up in the fabrics of the table, by its calls and by those who are lent the fabrics alone.

ghost use Rattle.std.specs.Prelude.{◌≡◌, ◌+◌, ◌<◌, ◌≤◌, true, bytes_eq, length};
ghost use Rattle.std.specs.List.{list_any};
ghost use Rattle.mt_model.specs.rows.Order.{fabrics_ascend};
ghost use Rattle.mt_fabrics.specs.Places.{IsPlace};
ghost use Rattle.mt_fabrics.specs.Table.{has_label, has_others_identity, has_others_label, index_by, least_unused};
ghost use Rattle.mt_model.specs.texts.Config.{has_identity};

use mt_model::{Credentials, Fabric};

// Where the fabric with an index stands, None where no fabric has it.
#[tactic(auto, using(crate::proofs::Walks::used_at))]
pub(crate) fn place_of(fabrics: &[Fabric], index: u8) -> Option<usize>
    requires { fabrics_ascend fabrics.now ≡ true }
    ensures { IsPlace index fabrics.now result }
{
    for (place, fabric) in fabrics.iter().enumerate() {
        if fabric.index == index {
            return Some(place);
        }
    }
    None
}

/// The least index from 1 that no fabric has, where there are fewer than 16: the one under which the next joins.
#[tactic(auto, using(crate::proofs::Walks::unused_at))]
pub fn least_unused(fabrics: &[Fabric]) -> u8
    requires { length fabrics.now < 16 }
    ensures least { result ≡ least_unused fabrics.now }
    ensures from_one { 1 ≤ result }
    ensures within { result ≤ length fabrics.now + 1 }
{
    let mut index: u8 = 1;
    for fabric in fabrics {
        if fabric.index != index {
            return index;
        }
        index += 1;
    }
    index
}

// The index of the fabric with an identity.
pub(crate) fn index_by(fabrics: &[Fabric], root_key: &[u8], fabric_id: u64) -> Option<u8>
    ensures { result ≡ index_by root_key.now fabric_id fabrics.now }
{
    for fabric in fabrics {
        if fabric.has_identity(root_key, fabric_id) {
            return Some(fabric.index);
        }
    }
    None
}

/// Whether a fabric has this identity, the public key of its root and its id.
pub fn is_identity_used(fabrics: &[Fabric], root_key: &[u8], fabric_id: u64) -> bool
    ensures { result ≡ list_any (has_identity root_key.now fabric_id) fabrics.now }
{
    fabrics
        .iter()
        .any(|fabric| fabric.has_identity(root_key, fabric_id))
}

// Whether a fabric of another index has the identity of these credentials.
pub(crate) fn is_identity_of_another(fabrics: &[Fabric], index: u8, given: &Credentials) -> bool
    ensures { result ≡ list_any (has_others_identity index given.now) fabrics.now }
{
    fabrics
        .iter()
        .any(|fabric| has_others_identity(index, given, fabric))
}

// Whether a fabric has this label, which is not empty.
pub(crate) fn is_label_used(fabrics: &[Fabric], label: &[u8]) -> bool
    ensures { result ≡ list_any (has_label label.now) fabrics.now }
{
    fabrics.iter().any(|fabric| has_label(label, fabric))
}

/// Whether a fabric of another index has this label, which is not empty.
pub fn is_label_of_another(fabrics: &[Fabric], index: u8, label: &[u8]) -> bool
    ensures { result ≡ list_any (has_others_label index label.now) fabrics.now }
{
    fabrics
        .iter()
        .any(|fabric| has_others_label(index, label, fabric))
}

fn has_others_identity(index: u8, given: &Credentials, fabric: &Fabric) -> bool
    ensures { result ≡ has_others_identity index given.now fabric.now }
{
    fabric.index != index && fabric.has_identity(given.root_key.as_slice(), given.fabric_id)
}

fn has_others_label(index: u8, label: &[u8], fabric: &Fabric) -> bool
    ensures { result ≡ has_others_label index label.now fabric.now }
{
    fabric.index != index && has_label(label, fabric)
}

fn has_label(label: &[u8], fabric: &Fabric) -> bool
    ensures { result ≡ has_label label.now fabric.now }
{
    1 <= label.len() && is_same(label, fabric.label.as_slice())
}

fn is_same(bytes: &[u8], other: &[u8]) -> bool
    ensures { result ≡ bytes_eq bytes.now other.now }
{
    bytes == other
}
