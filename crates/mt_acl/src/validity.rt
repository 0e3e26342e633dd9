//! The rules on one entry of the access control list.

ghost use Rattle.std.specs.Prelude.{◌≡◌, ◌↔◌, ◌==◌, IsTrue, IsOk, IfErr, not};
ghost use Rattle.std.specs.List.{list_all};
ghost use Rattle.mt_model.specs.texts.Config.{has_bits, has_widths, is_cat, is_entry, is_target, may_be_granted, may_be_subject};
ghost use Rattle.mt_acl.specs.Validity.{first_fault, has_room};

use crate::granting::CAT_SUBJECT;
use mt_model::limits::{LAST_GROUP, SUBJECTS, TARGETS};
use mt_model::{AclEntry, Auth, Privilege, Target, is_operational};

/// The rule that an entry breaks.
#[derive(Clone, Copy, Debug, PartialEq, Eq)]
pub enum EntryFault {
    /// The entry is for PASE, whose one entry is implicit.
    Mode = 1,
    /// The entry lets a group administer.
    GroupAdmin = 2,
    /// A subject is not of the entry's mode: for CASE an operational node id or a CAT whose version
    /// is not 0, for Group a group id.
    Subject = 3,
    /// A target has no field, or has both an endpoint and a device type.
    Target = 4,
    /// There are more subjects or targets than an entry may have.
    TooMany = 5,
}

/// Whether the entry keeps the rules on entries, and otherwise the first one that it breaks, in the
/// order of their numbers.
pub fn valid(entry: &AclEntry) -> Result<(), EntryFault>
    ensures valid { IsOk result ↔ IsTrue (is_entry entry.now) }
    ensures first { IfErr result (λ fault. first_fault entry.now ≡ Some fault) }
{
    let subjects = entry.subjects.as_slice();
    let targets = entry.targets.as_slice();
    if entry.auth == Auth::Pase {
        return Err(EntryFault::Mode);
    }
    if !may_be_granted(entry.auth, entry.privilege) {
        return Err(EntryFault::GroupAdmin);
    }
    if !may_be_subjects(entry.auth, subjects) {
        return Err(EntryFault::Subject);
    }
    if !are_targets(targets) {
        return Err(EntryFault::Target);
    }
    if subjects.len() > SUBJECTS || targets.len() > TARGETS {
        return Err(EntryFault::TooMany);
    }
    Ok(())
}

// No entry is for PASE, and none lets a group administer.
fn may_be_granted(auth: Auth, privilege: Privilege) -> bool
    ensures { result ≡ may_be_granted auth privilege }
{
    match auth {
        Auth::Pase => false,
        Auth::Case => true,
        Auth::Group => privilege != Privilege::Administer,
    }
}

fn may_be_subjects(auth: Auth, subjects: &[u64]) -> bool
    ensures { result ≡ list_all (may_be_subject auth) subjects.now }
{
    subjects
        .iter()
        .all(|subject| may_be_subject(auth, *subject))
}

/// Whether an entry for this mode may have the subject: over CASE an operational node id or a CAT, for groups
/// the id of a group, and none over PASE.
pub fn may_be_subject(auth: Auth, subject: u64) -> bool
    ensures { result ≡ may_be_subject auth subject }
{
    match auth {
        Auth::Pase => false,
        Auth::Case => is_operational(subject) || is_cat(subject),
        Auth::Group => subject >= 1 && subject <= LAST_GROUP,
    }
}

fn is_cat(subject: u64) -> bool
    ensures { result ≡ is_cat subject }
{
    subject / 0x1_0000_0000 == CAT_SUBJECT && subject % 0x1_0000 != 0
}

fn are_targets(targets: &[Target]) -> bool
    ensures { result ≡ list_all is_target targets.now }
{
    targets.iter().all(is_target)
}

// Whether the target says something, and not both an endpoint and a device type.
fn is_target(target: &Target) -> bool
    ensures { result ≡ is_target target.now }
{
    (target.cluster.is_some() || target.endpoint.is_some() || target.device.is_some())
        && !(target.endpoint.is_some() && target.device.is_some())
        && has_widths(target)
}

// Whether each number of the target has the bits that its type has.
fn has_widths(target: &Target) -> bool
    ensures { result ≡ has_widths target.now }
{
    has_32_bits(target.cluster) && has_16_bits(target.endpoint) && has_32_bits(target.device)
}

fn has_32_bits(number: Option<u32>) -> bool
    ensures { result ≡ has_bits 32 number }
{
    match number {
        Some(number) => number <= u32::MAX,
        None => true,
    }
}

fn has_16_bits(number: Option<u16>) -> bool
    ensures { result ≡ has_bits 16 number }
{
    match number {
        Some(number) => number <= u16::MAX,
        None => true,
    }
}
