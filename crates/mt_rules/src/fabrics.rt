//! Fabrics: their credentials and labels.

ghost use Rattle.std.specs.Prelude.{◌≡◌, bytes_eq};
ghost use Rattle.std.specs.List.{list_all, list_any};
ghost use Rattle.mt_model.specs.texts.Config.{are_credentials, are_fabrics, are_numbered_from, has_up_to, have_one_identity, have_one_label, is_certificate, is_fabric, is_intermediate, is_label, none_alike};

use mt_model::limits::{CERTIFICATE_BYTES, FABRICS, IPK_BYTES, LABEL_BYTES, ROOT_KEY_BYTES};
use mt_model::{Credentials, Fabric, is_operational, is_utf8};
use mt_tlv::Bytes;

/// Whether these may be the fabrics of a new node.
#[tactic(auto, unfolding(mt_model::specs::texts::Config::are_fabrics))]
pub fn are_fabrics(fabrics: &[Fabric]) -> bool
    ensures { result ≡ are_fabrics fabrics.now }
{
    fabrics.len() <= FABRICS
        && are_numbered(fabrics)
        && are_all_fabrics(fabrics)
        && identities_differ(fabrics)
        && labels_differ(fabrics)
}

#[tactic(auto, using(crate::proofs::Walks::numbered_at))]
fn are_numbered(fabrics: &[Fabric]) -> bool
    ensures { result ≡ are_numbered_from 1 fabrics.now }
{
    for (place, fabric) in fabrics.iter().enumerate() {
        if fabric.index as usize != place + 1 {
            return false;
        }
    }
    true
}

/// Whether each may be a fabric: its credentials have their form, and its label is text that fits.
pub fn are_all_fabrics(fabrics: &[Fabric]) -> bool
    ensures { result ≡ list_all is_fabric fabrics.now }
{
    fabrics.iter().all(|fabric| is_fabric(fabric))
}

fn is_fabric(fabric: &Fabric) -> bool
    ensures { result ≡ is_fabric fabric.now }
{
    are_credentials(&fabric.credentials)
        && is_label(fabric.label.as_slice())
        && fabric.vendor <= u16::MAX
}

/// Whether credentials have their lengths, and an operational node id.
pub fn are_credentials(given: &Credentials) -> bool
    ensures { result ≡ are_credentials given.now }
{
    is_certificate(given.root.as_slice())
        && given.root_key.as_slice().len() == ROOT_KEY_BYTES
        && given.fabric_id <= u64::MAX
        && is_operational(given.node_id)
        && is_certificate(given.noc.as_slice())
        && is_intermediate(given.icac.as_slice())
        && given.ipk.as_slice().len() == IPK_BYTES
}

/// Whether there are some bytes, and at most so many.
pub fn has_up_to(most: usize, bytes: &[u8]) -> bool
    ensures { result ≡ has_up_to most bytes.now }
{
    1 <= bytes.len() && bytes.len() <= most
}

/// Whether bytes have the length of a certificate.
pub fn is_certificate(bytes: &[u8]) -> bool
    ensures { result ≡ is_certificate bytes.now }
{
    has_up_to(CERTIFICATE_BYTES, bytes)
}

pub(crate) fn is_intermediate(bytes: &[u8]) -> bool
    ensures { result ≡ is_intermediate bytes.now }
{
    bytes.len() <= CERTIFICATE_BYTES
}

fn is_label(bytes: &[u8]) -> bool
    ensures { result ≡ is_label bytes.now }
{
    bytes.len() <= LABEL_BYTES && is_utf8(bytes)
}

/// Whether no two fabrics have one root key and fabric id.
#[tactic(auto, using(crate::proofs::Walks::apart_at))]
pub fn identities_differ(fabrics: &[Fabric]) -> bool
    ensures { result ≡ none_alike have_one_identity fabrics.now }
{
    for (place, fabric) in fabrics.iter().enumerate() {
        if any_has_identity(fabric, &fabrics[place + 1..]) {
            return false;
        }
    }
    true
}

fn any_has_identity(fabric: &Fabric, others: &[Fabric]) -> bool
    ensures { result ≡ list_any (have_one_identity fabric.now) others.now }
{
    others.iter().any(|other| have_one_identity(fabric, other))
}

fn have_one_identity(a: &Fabric, b: &Fabric) -> bool
    ensures { result ≡ have_one_identity a.now b.now }
{
    are_equal(&a.credentials.root_key, &b.credentials.root_key)
        && a.credentials.fabric_id == b.credentials.fabric_id
}

/// Whether bytes are the same.
pub fn are_equal(a: &Bytes, b: &Bytes) -> bool
    ensures { result ≡ bytes_eq a.now b.now }
{
    a.equals(b)
}

/// Whether no two fabrics have one label, unless it is empty.
#[tactic(auto, using(crate::proofs::Walks::apart_at))]
pub fn labels_differ(fabrics: &[Fabric]) -> bool
    ensures { result ≡ none_alike have_one_label fabrics.now }
{
    for (place, fabric) in fabrics.iter().enumerate() {
        if any_has_label(fabric, &fabrics[place + 1..]) {
            return false;
        }
    }
    true
}

fn any_has_label(fabric: &Fabric, others: &[Fabric]) -> bool
    ensures { result ≡ list_any (have_one_label fabric.now) others.now }
{
    others.iter().any(|other| have_one_label(fabric, other))
}

fn have_one_label(a: &Fabric, b: &Fabric) -> bool
    ensures { result ≡ have_one_label a.now b.now }
{
    1 <= a.label.as_slice().len() && are_equal(&a.label, &b.label)
}
