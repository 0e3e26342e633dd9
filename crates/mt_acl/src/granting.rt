//! What grants an actor a privilege at a place.

ghost use Rattle.std.specs.Prelude.{◌≡◌, ◌↔◌, IsTrue, IsFalse, IfSome, All, is_some, position};
ghost use Rattle.std.specs.List.{list_any};
ghost use Rattle.mt_model.specs.rows.Devices.{device_of};
ghost use Rattle.mt_acl.specs.Access.{NamesFirst, entry_grants, fits_device, fits_subjects, fits_target, fits_targets, grant_of, implicit_grants, is_granted, is_granted_if_asked, names_actor, names_cat, own_entry_grants, same_auth};

use mt_model::{AclEntry, Actor, Auth, Place, Privilege, Target, device_type};

// The upper half of a subject that is a CAT.
pub(crate) const CAT_SUBJECT: u64 = 0xffff_fffd;

/// What grants.
#[derive(Clone, Copy, Debug, PartialEq, Eq)]
pub enum Grant {
    /// The implicit entry of whoever commissions the node over PASE.
    Implicit,
    /// The entry of this index.
    Entry(usize),
}

/// What grants the privilege at the place to the actor: the implicit entry where it does, otherwise
/// the first of the entries of the actor's own fabric that does, and None where none does.
/// `scoped_change` says whether the place is fabric-scoped and a write or a command would change it.
pub fn grants(
    entries: &[AclEntry],
    actor: &Actor,
    place: &Place,
    wanted: Privilege,
    scoped_change: bool,
) -> Option<Grant>
    ensures exact { result ≡ grant_of entries.now actor.now place.now wanted scoped_change }

    // Over PASE, unless a session without a fabric would change what is scoped.
    ensures implicit { (result ≡ Some Grant.Implicit) ↔ IsTrue (implicit_grants actor.now scoped_change) }

    // The entry that is named grants, is of the actor's fabric, and none before it does and is.
    ensures first { IfSome result (NamesFirst entries.now actor.now place.now wanted) }
    ensures none { (result ≡ None) ↔ (IsFalse (implicit_grants actor.now scoped_change)
        × All (λ entry. IsFalse (own_entry_grants actor.now place.now wanted entry)) entries.now) }

    ensures granted { is_some result ≡ is_granted entries.now actor.now place.now wanted scoped_change }
{
    if implicit_grants(actor, scoped_change) {
        return Some(Grant::Implicit);
    }
    match first_to_grant(entries, actor, place, wanted) {
        Some(index) => Some(Grant::Entry(index)),
        None => None,
    }
}

/// Whether anything grants the actor what is asked of it at the place: nobody needs a grant where no
/// privilege is asked. `scoped_change` is told as to `grants`.
pub fn grants_if_asked(
    entries: &[AclEntry],
    actor: &Actor,
    place: &Place,
    asked: Option<Privilege>,
    scoped_change: bool,
) -> bool
    ensures exact { result ≡ is_granted_if_asked entries.now actor.now place.now asked scoped_change }
{
    match asked {
        Some(wanted) => grants(entries, actor, place, wanted, scoped_change).is_some(),
        None => true,
    }
}

fn first_to_grant(
    entries: &[AclEntry],
    actor: &Actor,
    place: &Place,
    wanted: Privilege,
) -> Option<usize>
    ensures { result ≡ position (own_entry_grants actor.now place.now wanted) entries.now }
{
    entries
        .iter()
        .position(|entry| own_entry_grants(actor, place, wanted, entry))
}

fn implicit_grants(actor: &Actor, scoped_change: bool) -> bool
    ensures { result ≡ implicit_grants actor.now scoped_change }
{
    same_auth(actor.auth, Auth::Pase) && (actor.fabric != 0 || !scoped_change)
}

fn own_entry_grants(actor: &Actor, place: &Place, wanted: Privilege, entry: &AclEntry) -> bool
    ensures { result ≡ own_entry_grants actor.now place.now wanted entry.now }
{
    entry.fabric == actor.fabric && entry_grants(actor, place, wanted, entry)
}

fn entry_grants(actor: &Actor, place: &Place, wanted: Privilege, entry: &AclEntry) -> bool
    ensures { result ≡ entry_grants actor.now place.now wanted entry.now }
{
    same_auth(entry.auth, actor.auth)
        && fits_subjects(entry.subjects.as_slice(), actor)
        && fits_targets(entry.targets.as_slice(), place)
        && entry.privilege.includes(wanted)
}

fn same_auth(entry: Auth, actor: Auth) -> bool
    ensures { result ≡ same_auth entry actor }
{
    entry == actor
}

fn fits_subjects(subjects: &[u64], actor: &Actor) -> bool
    ensures { result ≡ fits_subjects subjects.now actor.now }
{
    subjects.is_empty() || names_any(subjects, actor)
}

fn names_any(subjects: &[u64], actor: &Actor) -> bool
    ensures { result ≡ list_any (names_actor actor.now) subjects.now }
{
    subjects.iter().any(|subject| names_actor(actor, *subject))
}

fn names_actor(actor: &Actor, subject: u64) -> bool
    ensures { result ≡ names_actor actor.now subject }
{
    subject == actor.node || names_any_cat(subject, &actor.cats)
}

fn names_any_cat(subject: u64, cats: &[u32]) -> bool
    ensures { result ≡ list_any (names_cat subject) cats.now }
{
    cats.iter().any(|cat| names_cat(subject, *cat))
}

fn names_cat(subject: u64, cat: u32) -> bool
    ensures { result ≡ names_cat subject cat }
{
    subject / 0x1_0000_0000 == CAT_SUBJECT
        && subject / 0x1_0000 % 0x1_0000 == (cat / 0x1_0000) as u64
        && cat % 0x1_0000 >= 1
        && subject % 0x1_0000 <= (cat % 0x1_0000) as u64
}

fn fits_targets(targets: &[Target], place: &Place) -> bool
    ensures { result ≡ fits_targets targets.now place.now }
{
    targets.is_empty() || fits_any(targets, place)
}

fn fits_any(targets: &[Target], place: &Place) -> bool
    ensures { result ≡ list_any (fits_target place.now) targets.now }
{
    targets.iter().any(|target| fits_target(place, target))
}

fn fits_target(place: &Place, target: &Target) -> bool
    ensures { result ≡ fits_target place.now target.now }
{
    place.fits_endpoint(target.endpoint)
        && place.fits_cluster(target.cluster)
        && fits_device(target.device, device_type(place.endpoint))
}

fn fits_device(wanted: Option<u32>, device: Option<u32>) -> bool
    ensures { result ≡ fits_device wanted device }
{
    match (wanted, device) {
        (None, _) => true,
        (Some(_), None) => false,
        (Some(wanted), Some(device)) => device == wanted,
    }
}
