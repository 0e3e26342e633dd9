//! Whether an item gets to its attribute: access first, then what stands in its way.

ghost use Rattle.std.specs.Prelude.{◌≡◌, Ok};
ghost use Rattle.mt_model.specs.rows.Seen.{seen_as};
ghost use Rattle.mt_meta.specs.Finding.{find_of};
ghost use Rattle.mt_write.specs.Writing.{is_outdated, is_scoped, may_write, open_at, opened};

use mt_acl::grants_if_asked;
use mt_meta::{Asked, Meta, find, privilege_asked};
use mt_model::{Actor, Place, Sight, Status, WriteItem};

/// The attribute of an item, if nothing stands in its way. Access is asked of the writer's entries as the
/// sight has them.
pub(crate) fn opened<S: Sight>(
    sight: &S,
    actor: &Actor,
    timed: bool,
    item: &WriteItem,
    place: &Place,
) -> Result<Meta, Status>
    ensures { let seen = seen_as actor.now.fabric (S.rows_of sight.now) (S.versions sight.now) (S.all_entries sight.now) in
        result ≡ opened seen actor.now timed item.now place.now }
{
    if !may_write(sight, actor, place) {
        return Err(Status::UnsupportedAccess);
    }
    let meta = find(place)?;
    let version = sight.version(place.endpoint, place.cluster);
    open_at(version, timed, item, meta)
}

fn may_write<S: Sight>(sight: &S, actor: &Actor, place: &Place) -> bool
    ensures { let seen = seen_as actor.now.fabric (S.rows_of sight.now) (S.versions sight.now) (S.all_entries sight.now) in
        result ≡ may_write seen actor.now place.now }
{
    let entries = sight.entries(actor.fabric);
    let asked = privilege_asked(place, Asked::Write);
    let scoped = is_scoped(place);
    grants_if_asked(entries, actor, place, asked, scoped)
}

// A place that is not there is not scoped.
fn is_scoped(place: &Place) -> bool
    ensures { result ≡ is_scoped (find_of place.now) }
{
    match find(place) {
        Ok(meta) => meta.scoped,
        Err(_) => false,
    }
}

fn open_at(version: u32, timed: bool, item: &WriteItem, meta: Meta) -> Result<Meta, Status>
    ensures { result ≡ open_at version timed item.now (Ok meta) }
{
    if meta.write.is_none() || item.path.names_item() {
        return Err(Status::UnsupportedWrite);
    }
    if meta.timed && !timed {
        return Err(Status::NeedsTimedInteraction);
    }
    if is_outdated(item.version, version) {
        return Err(Status::DataVersionMismatch);
    }
    Ok(meta)
}

// Whether the item asks for another version than this.
fn is_outdated(wanted: Option<u32>, version: u32) -> bool
    ensures { result ≡ is_outdated wanted version }
{
    match wanted {
        Some(wanted) => wanted != version,
        None => false,
    }
}
