//! What is owed to a subscription, and whether it is time.

ghost use Rattle.std.specs.Prelude.{◌≡◌, ◌&&◌, Some, IfOk};
ghost use Rattle.mt_meta.specs.Places.{is_named_by};
ghost use Rattle.mt_subs.specs.Changes.{IsChanges, is_among};
ghost use Rattle.mt_subs.specs.Owed.{due_of, has_passed, may_read, owed};

use crate::changes::later;
use crate::subscription::Kept;
use mt_acl::grants_if_asked;
use mt_meta::{Asked, all_places, is_named_by, privilege_asked};
use mt_model::{AclEntry, Actor, ChangeNumber, Place, Places};
use std::alloc::{AllocError, Global};

// What is owed to a subscription, None where it is not due. The entries are those of its fabric.
pub(crate) fn due_places(
    alloc: Global,
    entries: &[AclEntry],
    kept: &Kept,
    now: u64,
    changes: &[ChangeNumber],
    unreported: bool,
) -> Result<Option<Places>, AllocError>
    requires { IsChanges changes.now }
    ensures { IfOk result (λ due. due ≡ due_of entries.now (Some kept.now) now changes.now unreported) }
{
    let ceiling = has_passed(kept.sub.ceiling, kept.time, now);
    let floor = has_passed(kept.sub.floor, kept.time, now);
    if !kept.live || !(ceiling || floor) {
        return Ok(None);
    }
    let places = owed(alloc, entries, kept, changes)?;
    if ceiling || 1 <= places.len() || unreported {
        return Ok(Some(places));
    }
    Ok(None)
}

// Whether so many seconds have passed.
fn has_passed(seconds: u16, last: u64, now: u64) -> bool
    ensures { result ≡ has_passed seconds last now }
{
    1000 * u64::from(seconds) <= now.saturating_sub(last)
}

// The places that are owed, ascending. Where nothing is later than the last report, no place is looked at.
fn owed(
    alloc: Global,
    entries: &[AclEntry],
    kept: &Kept,
    changes: &[ChangeNumber],
) -> Result<Places, AllocError>
    requires { IsChanges changes.now }
    ensures { IfOk result (λ places. places ≡ owed entries.now kept.now changes.now) }
{
    let later = later(changes, kept.change);
    if later.is_empty() {
        return Ok(Places::new(alloc));
    }
    let mut places = all_places(alloc)?.into_vec();
    places.retain(|place| is_owed(later, entries, kept, place));
    Ok(Places::from_vec(places))
}

// Whether a place is owed, where these changes are later than the last report.
fn is_owed(later: &[ChangeNumber], entries: &[AclEntry], kept: &Kept, place: &Place) -> bool
    ensures { result ≡ (is_among place.now later.now && (is_named_by kept.now.sub.paths place.now && may_read entries.now kept.now.sub.actor place.now)) }
{
    is_among(later, place)
        && is_named_by(kept.sub.paths.as_slice(), place)
        && may_read(entries, &kept.sub.actor, place)
}

fn is_among(changes: &[ChangeNumber], place: &Place) -> bool
    ensures { result ≡ is_among place.now changes.now }
{
    changes.iter().any(|change| change.place == *place)
}

fn may_read(entries: &[AclEntry], actor: &Actor, place: &Place) -> bool
    ensures { result ≡ may_read entries.now actor.now place.now }
{
    grants_if_asked(
        entries,
        actor,
        place,
        privilege_asked(place, Asked::Read),
        false,
    )
}
