//! Access control entries as they are written.

ghost use Rattle.std.specs.Prelude.{◌≡◌, IfOk, Some, option_and_then};
ghost use Rattle.mt_tlv.specs.Scalars.{unsigned_in};
ghost use Rattle.mt_tlv.specs.View.{elements, tree};
ghost use Rattle.mt_model.specs.tables.Entries.{entry_of, list_in};
ghost use Rattle.mt_model.specs.Trees.{field_in};
ghost use Rattle.mt_model.specs.texts.Config.{is_entry};
ghost use Rattle.mt_meta.specs.Targets.{target_in};
ghost use Rattle.mt_write.specs.Entries.{kept_entry, valid_entry};

use mt_acl::valid;
use mt_meta::clusters::access_control::{SUBJECTS, TARGETS};
use mt_meta::target_of;
use mt_model::{AclEntry, Subjects, Targets, field, structure_of, unsigned_of};
use mt_rules::{each, mode_in, privilege_in};
use mt_tlv::{Tag, Value};
use std::alloc::{AllocError, Global};

/// The entry of this fabric that an item is kept as, None where it breaks a rule.
pub(crate) fn keep_entry(
    alloc: Global,
    fabric: u8,
    item: &Value,
) -> Result<Option<AclEntry>, AllocError>
    ensures { IfOk result (λ kept. kept ≡ kept_entry fabric (tree item.now)) }
{
    let Some(members) = structure_of(item) else {
        return Ok(None);
    };
    let Some(entry) = entry_of(alloc, fabric, members)? else {
        return Ok(None);
    };
    Ok(valid_entry(entry))
}

// The entry, where it keeps the rules on entries.
fn valid_entry(entry: AclEntry) -> Option<AclEntry>
    ensures { result ≡ valid_entry (Some entry) }
{
    if is_valid(&entry) {
        return Some(entry);
    }
    None
}

fn is_valid(entry: &AclEntry) -> bool
    ensures { result ≡ is_entry entry.now }
{
    valid(entry).is_ok()
}

// The entry of this fabric with these fields.
fn entry_of(
    alloc: Global,
    fabric: u8,
    members: &[(Tag, Value)],
) -> Result<Option<AclEntry>, AllocError>
    ensures { IfOk result (λ entry. entry ≡ entry_of target_in (Some fabric) (elements members.now)) }
{
    let Some(privilege) = privilege_in(members) else {
        return Ok(None);
    };
    let Some(auth) = mode_in(members) else {
        return Ok(None);
    };
    let Some(subjects) = subjects_at(alloc, members)? else {
        return Ok(None);
    };
    let Some(targets) = targets_at(alloc, members)? else {
        return Ok(None);
    };
    Ok(Some(AclEntry {
        privilege,
        auth,
        subjects,
        targets,
        fabric,
    }))
}

fn subjects_at(alloc: Global, members: &[(Tag, Value)]) -> Result<Option<Subjects>, AllocError>
    ensures { IfOk result (λ subjects. subjects ≡ option_and_then (list_in unsigned_in) (field_in 3 (elements members.now))) }
{
    match field(members, SUBJECTS) {
        Some(value) => subjects_of(alloc, value),
        None => Ok(None),
    }
}

// Null is no subjects.
fn subjects_of(alloc: Global, value: &Value) -> Result<Option<Subjects>, AllocError>
    ensures { IfOk result (λ subjects. subjects ≡ list_in unsigned_in (tree value.now)) }
{
    match value {
        Value::Null => Ok(Some(Subjects::new(alloc))),
        Value::Array(members) => each(alloc, members.as_slice(), |member| Ok(unsigned_of(member))),
        _ => Ok(None),
    }
}

fn targets_at(alloc: Global, members: &[(Tag, Value)]) -> Result<Option<Targets>, AllocError>
    ensures { IfOk result (λ targets. targets ≡ option_and_then (list_in target_in) (field_in 4 (elements members.now))) }
{
    match field(members, TARGETS) {
        Some(value) => targets_of(alloc, value),
        None => Ok(None),
    }
}

// Null is no targets.
fn targets_of(alloc: Global, value: &Value) -> Result<Option<Targets>, AllocError>
    ensures { IfOk result (λ targets. targets ≡ list_in target_in (tree value.now)) }
{
    match value {
        Value::Null => Ok(Some(Targets::new(alloc))),
        Value::Array(members) => each(alloc, members.as_slice(), |member| Ok(target_of(member))),
        _ => Ok(None),
    }
}
