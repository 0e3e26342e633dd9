//! What a reader asks of events, and what it may see of them.

ghost use Rattle.std.specs.Prelude.{◌≡◌, ◌++◌, ◌∷◌, [], OnOk};
ghost use Rattle.mt_model.specs.messages.Blocks.{path_of, place_named};
ghost use Rattle.mt_model.specs.messages.Status.{code_of};
ghost use Rattle.mt_events.specs.Asked.{asked_by};
ghost use Rattle.mt_events.specs.Reading.{is_told, may_see, refusal_at, refusal_of, refusals};

use mt_acl::grants_if_asked;
use mt_meta::{Asked, find_event, is_named_by, privilege_asked};
use mt_model::{AclEntry, Actor, Happened, Item, Path, Place, Status};
use std::alloc::AllocError;

/// What a reader asks of events.
#[derive(Clone, Copy)]
pub(crate) struct Reader<'a> {
    /// The entries of the reader's fabric.
    pub(crate) entries: &'a [AclEntry],
    pub(crate) actor: &'a Actor,
    /// The least number of an event.
    pub(crate) minimum: u64,
    pub(crate) paths: &'a [Path],
}

impl<'a> Reader<'a> {
    /// Whether it is told an event.
    pub(crate) fn is_told(&self, event: &Happened) -> bool
        ensures { result ≡ is_told (asked_by self.now) event.now }
    {
        self.minimum <= event.number
            && is_named_by(self.paths, &event.place)
            && self.may_see(&event.place)
    }

    /// Appends the refusals of its paths, in their order.
    pub(crate) fn push_refusals(&self, items: &mut Vec<Item>) -> Result<(), AllocError>
        ensures { OnOk result (items.new.items ≡ items.old.items ++ refusals (asked_by self.now)) }
    {
        for path in self.paths {
            self.push_refusal(path, items)?;
        }
        Ok(())
    }

    fn push_refusal(&self, path: &Path, items: &mut Vec<Item>) -> Result<(), AllocError>
        ensures { OnOk result (items.new.items ≡ items.old.items ++ refusal_of (asked_by self.now) (place_named path.now)) }
    {
        match path.place() {
            Some(place) => self.push_refusal_at(&place, items),
            None => Ok(()),
        }
    }

    // Access comes first, then what there is.
    fn push_refusal_at(&self, place: &Place, items: &mut Vec<Item>) -> Result<(), AllocError>
        ensures { OnOk result (items.new.items ≡ items.old.items ++ refusal_at (asked_by self.now) place.now) }
    {
        if !self.may_see(place) {
            return push(refusal(place, Status::UnsupportedAccess), items);
        }
        match find_event(place) {
            Ok(_) => Ok(()),
            Err(status) => push(refusal(place, status), items),
        }
    }

    // Whether it may see events of a place, or, where there are none, may learn that.
    fn may_see(&self, place: &Place) -> bool
        ensures { result ≡ may_see (asked_by self.now) place.now }
    {
        let asked = privilege_asked(place, Asked::Event);
        grants_if_asked(self.entries, self.actor, place, asked, false)
    }
}

fn push(item: Item, items: &mut Vec<Item>) -> Result<(), AllocError>
    ensures { OnOk result (items.new.items ≡ items.old.items ++ item ∷ []) }
{
    items.push(item)?;
    Ok(())
}

fn refusal(place: &Place, status: Status) -> Item
    ensures { result ≡ Item.EventRefused (path_of place.now) (code_of status) }
{
    Item::EventRefused {
        path: Path::from(*place),
        code: status.code(),
    }
}
