//! Entries of access control, and whose they are.

ghost use Rattle.std.specs.Prelude.{◌≡◌, count_by, nat_le};
ghost use Rattle.std.specs.List.{list_all, list_any};
ghost use Rattle.mt_model.specs.texts.Config.{are_entries, is_entry, is_of};

use mt_acl::valid;
use mt_model::limits::ENTRIES;
use mt_model::{AclEntry, Fabric, entries_ascend_from};

/// Whether these may be the access control entries of these fabrics.
#[tactic(auto, unfolding(mt_model::specs::texts::Config::are_entries))]
pub fn are_entries(fabrics: &[Fabric], entries: &[AclEntry]) -> bool
    ensures { result ≡ are_entries fabrics.now entries.now }
{
    are_all_entries(entries)
        && are_all_owned(fabrics, entries)
        && are_few(fabrics, entries)
        && entries_ascend_from(0, entries)
}

/// Whether each entry is valid.
pub fn are_all_entries(entries: &[AclEntry]) -> bool
    ensures { result ≡ list_all is_entry entries.now }
{
    entries.iter().all(|entry| is_entry(entry))
}

fn is_entry(entry: &AclEntry) -> bool
    ensures { result ≡ is_entry entry.now }
{
    valid(entry).is_ok()
}

/// Whether each entry is of one of these fabrics.
pub fn are_all_owned(fabrics: &[Fabric], entries: &[AclEntry]) -> bool
    ensures { result ≡ list_all (λ entry. list_any (λ fabric. is_of fabric entry) fabrics.now) entries.now }
{
    entries.iter().all(|entry| is_owned(fabrics, entry))
}

fn is_owned(fabrics: &[Fabric], entry: &AclEntry) -> bool
    ensures { result ≡ list_any (λ fabric. is_of fabric entry.now) fabrics.now }
{
    fabrics.iter().any(|fabric| is_of(fabric, entry))
}

fn is_of(fabric: &Fabric, entry: &AclEntry) -> bool
    ensures { result ≡ is_of fabric.now entry.now }
{
    entry.fabric == fabric.index
}

/// Whether no fabric has more entries than it may.
pub fn are_few(fabrics: &[Fabric], entries: &[AclEntry]) -> bool
    ensures { result ≡ list_all (λ fabric. nat_le (count_by (is_of fabric) entries.now) ENTRIES) fabrics.now }
{
    fabrics.iter().all(|fabric| has_few(fabric, entries))
}

fn has_few(fabric: &Fabric, entries: &[AclEntry]) -> bool
    ensures { result ≡ nat_le (count_by (is_of fabric.now) entries.now) ENTRIES }
{
    entries.iter().filter(|entry| is_of(fabric, *entry)).count() <= ENTRIES
}
