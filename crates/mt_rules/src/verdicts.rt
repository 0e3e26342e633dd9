//! Verdicts on certificates, and networks in reach.

ghost use Rattle.std.specs.Prelude.{◌≡◌};
ghost use Rattle.std.specs.List.{list_all};
ghost use Rattle.mt_model.specs.texts.Config.{are_csrs, are_joins, are_network_ids, are_roots, has_up_to, is_csr, is_join, is_root};

use crate::fabrics::{has_up_to, is_certificate, is_intermediate};
use mt_model::limits::{
    ELEMENTS_BYTES, NETWORK_ID_BYTES, NETWORKS, NONCE_BYTES, ROOT_KEY_BYTES, SIGNATURE_BYTES,
    VERDICTS,
};
use mt_model::{CsrRow, JoinRow, RootRow};
use mt_tlv::Bytes;

/// Whether these may be the verdicts on root certificates.
#[tactic(auto, unfolding(mt_model::specs::texts::Config::are_roots))]
pub fn are_roots(rows: &[RootRow]) -> bool
    ensures { result ≡ are_roots rows.now }
{
    rows.len() <= VERDICTS && are_all_roots(rows)
}

fn are_all_roots(rows: &[RootRow]) -> bool
    ensures { result ≡ list_all is_root rows.now }
{
    rows.iter().all(|row| is_root(row))
}

fn is_root(row: &RootRow) -> bool
    ensures { result ≡ is_root row.now }
{
    is_certificate(row.cert.as_slice()) && row.key.as_slice().len() == ROOT_KEY_BYTES
}

/// Whether these may be the answers to requests for certificate signing requests.
#[tactic(auto, unfolding(mt_model::specs::texts::Config::are_csrs))]
pub fn are_csrs(rows: &[CsrRow]) -> bool
    ensures { result ≡ are_csrs rows.now }
{
    rows.len() <= VERDICTS && are_all_csrs(rows)
}

fn are_all_csrs(rows: &[CsrRow]) -> bool
    ensures { result ≡ list_all is_csr rows.now }
{
    rows.iter().all(|row| is_csr(row))
}

fn is_csr(row: &CsrRow) -> bool
    ensures { result ≡ is_csr row.now }
{
    row.nonce.as_slice().len() == NONCE_BYTES
        && has_up_to(ELEMENTS_BYTES, row.elements.as_slice())
        && row.signature.as_slice().len() == SIGNATURE_BYTES
}

/// Whether these may be the verdicts on chains of certificates.
#[tactic(auto, unfolding(mt_model::specs::texts::Config::are_joins))]
pub fn are_joins(rows: &[JoinRow]) -> bool
    ensures { result ≡ are_joins rows.now }
{
    rows.len() <= VERDICTS && are_all_joins(rows)
}

fn are_all_joins(rows: &[JoinRow]) -> bool
    ensures { result ≡ list_all is_join rows.now }
{
    rows.iter().all(|row| is_join(row))
}

fn is_join(row: &JoinRow) -> bool
    ensures { result ≡ is_join row.now }
{
    is_certificate(row.root.as_slice())
        && is_certificate(row.noc.as_slice())
        && is_intermediate(row.icac.as_slice())
        && row.nonce.as_slice().len() == NONCE_BYTES
        && row.fabric_id <= u64::MAX
}

/// Whether these may be the ids of reachable networks.
#[tactic(auto, unfolding(mt_model::specs::texts::Config::are_network_ids))]
pub fn are_network_ids(ids: &[Bytes]) -> bool
    ensures { result ≡ are_network_ids ids.now }
{
    ids.len() <= NETWORKS && are_all_ids(ids)
}

fn are_all_ids(ids: &[Bytes]) -> bool
    ensures { result ≡ list_all (has_up_to NETWORK_ID_BYTES) ids.now }
{
    ids.iter()
        .all(|id| has_up_to(NETWORK_ID_BYTES, id.as_slice()))
}
