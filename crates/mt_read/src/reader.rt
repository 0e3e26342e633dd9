//! A read: who asks of what, and what it is answered at one place.

ghost use Rattle.std.specs.Prelude.{◌≡◌, ◌==◌, ◌&&◌, ◌++◌, ◌∷◌, [], OnOk, Some};
ghost use Rattle.std.specs.List.{list_any};
ghost use Rattle.std.specs.Result.{result_unwrap_or};
ghost use Rattle.mt_meta.specs.Finding.{find_of, of_found};
ghost use Rattle.mt_meta.specs.declared.meta.Meta.{Meta};
ghost use Rattle.mt_model.specs.declared.node.state.Version.{Version};
ghost use Rattle.mt_model.specs.declared.tables.access.Privilege.TheVariants.{View};
ghost use Rattle.mt_model.specs.messages.Blocks.{path_of};
ghost use Rattle.mt_model.specs.messages.Status.{code_of};
ghost use Rattle.mt_model.specs.rows.Seen.{seen_as};
ghost use Rattle.mt_read.specs.Reading.{concrete_items, data_items, is_known, may_read, wildcard_items};

use crate::values::value_at;
use mt_acl::grants;
use mt_meta::{Meta, find};
use mt_model::{Actor, Item, Path, Place, Privilege, Sight, Status, Version};
use std::alloc::{AllocError, Global};

/// A read of one actor.
#[derive(Drop)]
pub(crate) struct Reader<'a, S> {
    pub(crate) alloc: Global,
    pub(crate) sight: &'a S,
    pub(crate) actor: &'a Actor,
    /// Whether it asks for its own fabric's items alone.
    pub(crate) filtered: bool,
    /// The data that it has already, by cluster and version.
    pub(crate) versions: &'a [Version],
}

impl<'a, S: Sight> Reader<'a, S> {
    /// Appends what a place is answered with that a path names by itself: access comes first, then what there is.
    pub(crate) fn push_concrete(
        &self,
        place: &Place,
        items: &mut Vec<Item>,
    ) -> Result<(), AllocError>
        ensures { let seen = seen_as self.now.actor.now.fabric (S.rows_of self.now.sight.now) (S.versions self.now.sight.now) (S.all_entries self.now.sight.now) in
            OnOk result (items.new.items ≡ items.old.items ++ concrete_items seen self.now.actor.now self.now.filtered self.now.versions.now place.now) }
    {
        let found = find(place);
        if !self.may_read(place, &found) {
            return push(refusal(place, Status::UnsupportedAccess), items);
        }
        match found {
            Ok(meta) => self.push_data(place, &meta, items),
            Err(status) => push(refusal(place, status), items),
        }
    }

    /// Appends what a place is answered with that a wildcard names: nothing where access is not granted.
    pub(crate) fn push_named(&self, place: &Place, items: &mut Vec<Item>) -> Result<(), AllocError>
        ensures { let seen = seen_as self.now.actor.now.fabric (S.rows_of self.now.sight.now) (S.versions self.now.sight.now) (S.all_entries self.now.sight.now) in
            OnOk result (items.new.items ≡ items.old.items ++ wildcard_items seen self.now.actor.now self.now.filtered self.now.versions.now place.now) }
    {
        let found = find(place);
        let granted = self.may_read(place, &found);
        match found {
            Ok(meta) if granted => self.push_data(place, &meta, items),
            _ => Ok(()),
        }
    }

    // Whether the actor may read the place, or, where there is nothing, may learn that. What the table
    // says of the place is at hand.
    fn may_read(&self, place: &Place, found: &Result<Meta, Status>) -> bool
        requires { found.now ≡ find_of place.now }
        ensures { let seen = seen_as self.now.actor.now.fabric (S.rows_of self.now.sight.now) (S.versions self.now.sight.now) (S.all_entries self.now.sight.now) in
            result ≡ may_read seen self.now.actor.now place.now }
    {
        let entries = self.sight.entries(self.actor.fabric);
        grants(entries, self.actor, place, read_privilege(found), false).is_some()
    }

    // Appends the data of a place, unless the actor has it already.
    fn push_data(&self, place: &Place, meta: &Meta, items: &mut Vec<Item>) -> Result<(), AllocError>
        ensures { let seen = seen_as self.now.actor.now.fabric (S.rows_of self.now.sight.now) (S.versions self.now.sight.now) (S.all_entries self.now.sight.now) in
            OnOk result (items.new.items ≡ items.old.items ++ data_items seen self.now.actor.now self.now.filtered self.now.versions.now place.now meta.now) }
    {
        let version = self.sight.version(place.endpoint, place.cluster);
        if is_known(self.versions, place, version) {
            return Ok(());
        }
        let value = value_at(
            self.alloc,
            self.sight,
            self.actor,
            place,
            meta,
            self.filtered,
        )?;
        let item = Item::Attribute {
            path: Path::from(*place),
            version,
            value,
        };
        push(item, items)
    }
}

fn push(item: Item, items: &mut Vec<Item>) -> Result<(), AllocError>
    ensures { OnOk result (items.new.items ≡ items.old.items ++ item ∷ []) }
{
    items.push(item)?;
    Ok(())
}

// The privilege to read what the table says of a place: View where it says nothing.
fn read_privilege(found: &Result<Meta, Status>) -> Privilege
    ensures { Some result ≡ result_unwrap_or (of_found (λ (meta : Meta). Some meta.read) found.now) (Some View) }
{
    match found {
        Ok(meta) => meta.read,
        Err(_) => Privilege::View,
    }
}

fn is_known(versions: &[Version], place: &Place, version: u32) -> bool
    ensures { result ≡ list_any (λ (known : Version). known.endpoint == place.now.endpoint
        && (known.cluster == place.now.cluster && known.version == version)) versions.now }
{
    versions
        .iter()
        .any(|known| is_version(known, place, version))
}

fn is_version(known: &Version, place: &Place, version: u32) -> bool
    ensures { result ≡ (known.now.endpoint == place.now.endpoint
        && (known.now.cluster == place.now.cluster && known.now.version == version)) }
{
    known.endpoint == place.endpoint && known.cluster == place.cluster && known.version == version
}

fn refusal(place: &Place, status: Status) -> Item
    ensures { result ≡ Item.Refused (path_of place.now) (code_of status) }
{
    Item::Refused {
        path: Path::from(*place),
        code: status.code(),
    }
}
