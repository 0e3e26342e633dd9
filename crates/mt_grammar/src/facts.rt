//! What holds between the keys of what is kept.

ghost use Rattle.std.specs.Prelude.{◌≡◌, Some, bytes_eq, count_by};
ghost use Rattle.std.specs.List.{list_all, list_any};
ghost use Rattle.mt_fabrics.specs.Table.{is_used};
ghost use Rattle.mt_failsafe.specs.Facts.{is_updated_in};
ghost use Rattle.mt_model.specs.texts.Config.{is_certificate, none_alike};
ghost use Rattle.mt_grammar.specs.Facts.{are_entries, are_fabrics, are_networks, are_roots, are_rows, are_saved, commissioning_facts, fabric_facts, facts_hold, has_numbers, is_added, is_failsafe, is_for_known, is_idle, is_row_of, is_updated, most_idle};
ghost use Rattle.mt_model.specs.tables.Holding.{have_one_id, is_fabric_with, is_network, is_root_of, saves_identity};

use crate::kept::MapContents;
use mt_model::limits::{NETWORK_ID_BYTES, NETWORK_SECRET_BYTES, NETWORKS};
use mt_model::{AclEntry, Armed, Credentials, Fabric, Network, Row};
use mt_rules::{
    are_all_entries, are_all_fabrics, are_all_owned, are_credentials, are_equal, are_few,
    has_up_to, identities_differ, is_certificate, labels_differ,
};
use mt_tlv::Bytes;

/// Whether what holds between the keys of a valid state holds of what is kept.
pub fn facts_hold(kept: &MapContents) -> bool
    ensures { result ≡ facts_hold kept.now }
{
    has_numbers(kept) && fabric_facts(kept) && commissioning_facts(kept)
}

fn fabric_facts(kept: &MapContents) -> bool
    ensures { result ≡ fabric_facts kept.now }
{
    let fabrics = kept.fabrics.as_slice();
    are_fabrics(fabrics)
        && are_rows(fabrics, kept.rows.as_slice())
        && are_entries(fabrics, kept.entries.as_slice())
}

fn commissioning_facts(kept: &MapContents) -> bool
    ensures { result ≡ commissioning_facts kept.now }
{
    let fabrics = kept.fabrics.as_slice();
    let roots = kept.roots.as_slice();
    let networks = kept.networks.as_slice();
    are_roots(fabrics, &kept.failsafe, roots)
        && are_networks(networks)
        && is_failsafe(fabrics, &kept.failsafe)
}

fn has_numbers(kept: &MapContents) -> bool
    ensures { result ≡ has_numbers kept.now }
{
    kept.boot.is_some() && kept.ceiling.is_some()
}

// Fabrics.

fn are_fabrics(fabrics: &[Fabric]) -> bool
    ensures { result ≡ are_fabrics fabrics.now }
{
    are_all_fabrics(fabrics) && identities_differ(fabrics) && labels_differ(fabrics)
}

// Whether the index is that of a fabric of the table.
fn is_used(index: u8, fabrics: &[Fabric]) -> bool
    ensures { result ≡ is_used index fabrics.now }
{
    fabrics.iter().any(|fabric| fabric.index == index)
}

// Rows and entries.

fn are_rows(fabrics: &[Fabric], rows: &[Row]) -> bool
    ensures { result ≡ are_rows fabrics.now rows.now }
{
    rows.iter().all(|row| is_row_of(fabrics, row))
}

fn is_row_of(fabrics: &[Fabric], row: &Row) -> bool
    ensures { result ≡ is_row_of fabrics.now row.now }
{
    row.fabric == 0 || is_used(row.fabric, fabrics)
}

fn are_entries(fabrics: &[Fabric], entries: &[AclEntry]) -> bool
    ensures { result ≡ are_entries fabrics.now entries.now }
{
    are_all_entries(entries) && are_all_owned(fabrics, entries) && are_few(fabrics, entries)
}

// Roots.

#[tactic(auto, unfolding(crate::specs::Facts::are_roots))]
fn are_roots(fabrics: &[Fabric], armed: &Option<Armed>, roots: &[Bytes]) -> bool
    ensures { result ≡ are_roots fabrics.now armed.now roots.now }
{
    are_certificates(roots) && roots_differ(roots) && count_idle(fabrics, roots) <= most_idle(armed)
}

fn are_certificates(roots: &[Bytes]) -> bool
    ensures { result ≡ list_all is_certificate roots.now }
{
    roots.iter().all(|root| is_certificate(root.as_slice()))
}

#[tactic(auto, using(crate::proofs::Walks::apart_at))]
fn roots_differ(roots: &[Bytes]) -> bool
    ensures { result ≡ none_alike bytes_eq roots.now }
{
    for (place, root) in roots.iter().enumerate() {
        if any_is(root, &roots[place + 1..]) {
            return false;
        }
    }
    true
}

fn any_is(root: &Bytes, roots: &[Bytes]) -> bool
    ensures { result ≡ list_any (bytes_eq root.now) roots.now }
{
    roots.iter().any(|other| are_equal(root, other))
}

// How many roots no fabric uses.
fn count_idle(fabrics: &[Fabric], roots: &[Bytes]) -> usize
    ensures { result ≡ count_by (is_idle fabrics.now) roots.now }
{
    roots.iter().filter(|root| is_idle(fabrics, *root)).count()
}

fn is_idle(fabrics: &[Fabric], root: &Bytes) -> bool
    ensures { result ≡ is_idle fabrics.now root.now }
{
    !any_uses(root, fabrics)
}

fn any_uses(root: &Bytes, fabrics: &[Fabric]) -> bool
    ensures { result ≡ list_any (is_root_of root.now) fabrics.now }
{
    fabrics
        .iter()
        .any(|fabric| are_equal(&fabric.credentials.root, root))
}

// Commissioning has been given one root at most.
fn most_idle(armed: &Option<Armed>) -> usize
    ensures { result ≡ most_idle armed.now }
{
    match armed {
        Some(_) => 1,
        None => 0,
    }
}

// Networks.

#[tactic(auto, unfolding(crate::specs::Facts::are_networks))]
fn are_networks(networks: &[Network]) -> bool
    ensures { result ≡ are_networks networks.now }
{
    networks.len() <= NETWORKS && are_all_networks(networks) && ids_differ(networks)
}

fn are_all_networks(networks: &[Network]) -> bool
    ensures { result ≡ list_all is_network networks.now }
{
    networks.iter().all(|network| is_network(network))
}

fn is_network(network: &Network) -> bool
    ensures { result ≡ is_network network.now }
{
    has_up_to(NETWORK_ID_BYTES, network.id.as_slice())
        && network.secret.as_slice().len() <= NETWORK_SECRET_BYTES
}

#[tactic(auto, using(crate::proofs::Walks::apart_at))]
fn ids_differ(networks: &[Network]) -> bool
    ensures { result ≡ none_alike have_one_id networks.now }
{
    for (place, network) in networks.iter().enumerate() {
        if any_has_id(network, &networks[place + 1..]) {
            return false;
        }
    }
    true
}

fn any_has_id(network: &Network, others: &[Network]) -> bool
    ensures { result ≡ list_any (have_one_id network.now) others.now }
{
    others.iter().any(|other| are_equal(&network.id, &other.id))
}

// The fail-safe.

#[tactic(auto, unfolding(crate::specs::Facts::is_failsafe))]
fn is_failsafe(fabrics: &[Fabric], armed: &Option<Armed>) -> bool
    ensures { result ≡ is_failsafe fabrics.now armed.now }
{
    match armed {
        Some(armed) => {
            is_for_known(fabrics, armed)
                && is_added(fabrics, armed)
                && is_updated(fabrics, armed)
                && are_saved(&armed.saved_credentials)
                && are_networks(armed.saved_networks.as_slice())
        },
        None => true,
    }
}

// Whether the fabric for which commissioning goes on is none or of the table.
fn is_for_known(fabrics: &[Fabric], armed: &Armed) -> bool
    ensures { result ≡ is_for_known fabrics.now armed.now }
{
    armed.context == 0 || is_used(armed.context, fabrics)
}

fn is_added(fabrics: &[Fabric], armed: &Armed) -> bool
    ensures { result ≡ is_added fabrics.now armed.now }
{
    match armed.added {
        Some(fabric) => armed.context == fabric && is_used(fabric, fabrics),
        None => armed.context == armed.owner,
    }
}

fn is_updated(fabrics: &[Fabric], armed: &Armed) -> bool
    ensures { result ≡ is_updated fabrics.now armed.now }
{
    match armed.updated {
        Some(fabric) => is_updated_to(fabrics, armed, fabric),
        None => !armed.saved_credentials.is_some(),
    }
}

fn is_updated_to(fabrics: &[Fabric], armed: &Armed, fabric: u8) -> bool
    ensures { result ≡ is_updated_in (saves_identity fabrics.now) armed.now armed.now.added (Some fabric) }
{
    match armed.added {
        Some(_) => false,
        None => {
            armed.owner == fabric
                && armed.context == fabric
                && saves_identity(fabrics, fabric, &armed.saved_credentials)
        },
    }
}

fn saves_identity(fabrics: &[Fabric], index: u8, saved: &Option<Credentials>) -> bool
    ensures { result ≡ saves_identity fabrics.now index saved.now }
{
    match saved {
        Some(saved) => any_has(index, saved, fabrics),
        None => false,
    }
}

fn any_has(index: u8, saved: &Credentials, fabrics: &[Fabric]) -> bool
    ensures { result ≡ list_any (is_fabric_with index saved.now) fabrics.now }
{
    fabrics
        .iter()
        .any(|fabric| is_fabric_with(index, saved, fabric))
}

// Whether a fabric has this index, and the identity of these credentials.
fn is_fabric_with(index: u8, saved: &Credentials, fabric: &Fabric) -> bool
    ensures { result ≡ is_fabric_with index saved.now fabric.now }
{
    fabric.index == index && fabric.has_identity(saved.root_key.as_slice(), saved.fabric_id)
}

fn are_saved(saved: &Option<Credentials>) -> bool
    ensures { result ≡ are_saved saved.now }
{
    match saved {
        Some(saved) => are_credentials(saved),
        None => true,
    }
}
