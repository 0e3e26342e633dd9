//! Access control entries as they are kept.

ghost use Rattle.std.specs.Prelude.{◌≡◌, ◌∷◌, [], IfOk, is_some, option_and_then};
ghost use Rattle.mt_tlv.specs.Scalars.{unsigned_in};
ghost use Rattle.mt_tlv.specs.View.{elements, tree};
ghost use Rattle.mt_model.specs.Trees.{field_in};
ghost use Rattle.mt_grammar.specs.Fields.{fields_in, some_in};
ghost use Rattle.mt_grammar.specs.Values.{entries_in, entry_in, entry_of, is_of, subjects_in, targets_in, whole_target_in};

use crate::fields::{array_in, fields_in, if_some, is_null, unsigned_at};
use mt_meta::clusters::access_control::{SUBJECTS, TARGETS};
use mt_meta::target_of;
use mt_model::{AclEntries, AclEntry, Subjects, Target, Targets, field, unsigned_of};
use mt_rules::{each, mode_in, privilege_in};
use mt_tlv::{Tag, Value};
use std::alloc::{AllocError, Global};

/// The entries of a fabric, None where the value is no such entries.
pub(crate) fn entries_in(
    alloc: Global,
    fabric: u8,
    value: &Value,
) -> Result<Option<AclEntries>, AllocError>
    ensures { IfOk result (λ entries. entries ≡ entries_in fabric (tree value.now)) }
{
    let Some(members) = array_in(value) else {
        return Ok(None);
    };
    let Some(entries) = each(alloc, members, |member| entry_in(alloc, fabric, member))? else {
        return Ok(None);
    };
    Ok(if_some(entries))
}

fn entry_in(alloc: Global, fabric: u8, item: &Value) -> Result<Option<AclEntry>, AllocError>
    ensures { IfOk result (λ entry. entry ≡ entry_in fabric (tree item.now)) }
{
    match fields_in(&[1, 2, 3, 4, 254], item) {
        Some(members) => entry_of(alloc, fabric, members),
        None => Ok(None),
    }
}

fn entry_of(
    alloc: Global,
    fabric: u8,
    members: &[(Tag, Value)],
) -> Result<Option<AclEntry>, AllocError>
    ensures { IfOk result (λ entry. entry ≡ entry_of fabric (elements members.now)) }
{
    if !is_of(fabric, members) {
        return Ok(None);
    }
    let Some(privilege) = privilege_in(members) else {
        return Ok(None);
    };
    let Some(auth) = mode_in(members) else {
        return Ok(None);
    };
    let Some(subjects) = subjects_at(alloc, members)? else {
        return Ok(None);
    };
    let Some(targets) = targets_at(alloc, members)? else {
        return Ok(None);
    };
    Ok(Some(AclEntry {
        privilege,
        auth,
        subjects,
        targets,
        fabric,
    }))
}

// Whether field 254 of an entry is its fabric.
fn is_of(fabric: u8, members: &[(Tag, Value)]) -> bool
    ensures { result ≡ is_of fabric (elements members.now) }
{
    match unsigned_at(members, 254) {
        Some(number) => number == fabric as u64,
        None => false,
    }
}

fn subjects_at(alloc: Global, members: &[(Tag, Value)]) -> Result<Option<Subjects>, AllocError>
    ensures { IfOk result (λ subjects. subjects ≡ option_and_then subjects_in (field_in 3 (elements members.now))) }
{
    match field(members, SUBJECTS) {
        Some(value) => subjects_in(alloc, value),
        None => Ok(None),
    }
}

// Null is no subjects.
fn subjects_in(alloc: Global, value: &Value) -> Result<Option<Subjects>, AllocError>
    ensures { IfOk result (λ subjects. subjects ≡ subjects_in (tree value.now)) }
{
    if is_null(value) {
        return Ok(Some(Subjects::new(alloc)));
    }
    some_subjects(alloc, value)
}

fn some_subjects(alloc: Global, value: &Value) -> Result<Option<Subjects>, AllocError>
    ensures { IfOk result (λ subjects. subjects ≡ some_in unsigned_in (tree value.now)) }
{
    let Some(members) = array_in(value) else {
        return Ok(None);
    };
    let Some(subjects) = each(alloc, members, |member| Ok(unsigned_of(member)))? else {
        return Ok(None);
    };
    Ok(if_some(subjects))
}

fn targets_at(alloc: Global, members: &[(Tag, Value)]) -> Result<Option<Targets>, AllocError>
    ensures { IfOk result (λ targets. targets ≡ option_and_then targets_in (field_in 4 (elements members.now))) }
{
    match field(members, TARGETS) {
        Some(value) => targets_in(alloc, value),
        None => Ok(None),
    }
}

// Null is no targets.
fn targets_in(alloc: Global, value: &Value) -> Result<Option<Targets>, AllocError>
    ensures { IfOk result (λ targets. targets ≡ targets_in (tree value.now)) }
{
    if is_null(value) {
        return Ok(Some(Targets::new(alloc)));
    }
    some_targets(alloc, value)
}

fn some_targets(alloc: Global, value: &Value) -> Result<Option<Targets>, AllocError>
    ensures { IfOk result (λ targets. targets ≡ some_in whole_target_in (tree value.now)) }
{
    let Some(members) = array_in(value) else {
        return Ok(None);
    };
    let Some(targets) = each(alloc, members, |member| Ok(whole_target_in(member)))? else {
        return Ok(None);
    };
    Ok(if_some(targets))
}

// A target with all its fields.
fn whole_target_in(value: &Value) -> Option<Target>
    ensures { result ≡ whole_target_in (tree value.now) }
{
    if has_target_fields(value) {
        return target_of(value);
    }
    None
}

fn has_target_fields(value: &Value) -> bool
    ensures { result ≡ is_some (fields_in (0 ∷ 1 ∷ 2 ∷ []) (tree value.now)) }
{
    match fields_in(&[0, 1, 2], value) {
        Some(_) => true,
        None => false,
    }
}
