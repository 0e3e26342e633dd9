//! The answer to a request, path by path.

ghost use Rattle.std.specs.Prelude.{◌≡◌, ◌↔◌, ◌++◌, None, Some, IfOk, OnOk};
ghost use Rattle.std.specs.List.{flat_map, list_any};
ghost use Rattle.mt_read.specs.Reading.{path_items, read_answer, wildcard_items};
ghost use Rattle.mt_model.specs.rows.Seen.{seen_as};
ghost use Rattle.mt_meta.specs.Places.{is_not_global, places};

use crate::reader::Reader;
use mt_meta::{expand, is_not_global};
use mt_model::{Actor, Item, Items, Path, Paths, Place, Sight, Version, Versions};
use std::alloc::{AllocError, Global};

/// Why a read is not answered.
#[derive(Clone, Copy, Debug, PartialEq, Eq)]
pub enum ReadFault {
    /// A path asks every cluster for an attribute that not every cluster has.
    NotGlobal = 1,
    /// There was no memory.
    Memory = 2,
}

/// What the actor is answered, path by path in their order. A path that names one place is answered
/// with its data or with the status that refuses it, where access is asked before existence. Of what a
/// wildcard names, the places that the actor may read are answered with their data, and the others are
/// left out. Data that the actor has in this version already, which `versions` tells, is left out
/// always. Where `filtered` is set, of lists that are scoped by fabric the actor's own items alone are
/// told; otherwise those of others too, without their sensitive fields.
pub fn read<S: Sight>(
    alloc: Global,
    sight: &S,
    actor: &Actor,
    paths: &Paths,
    filtered: bool,
    versions: &Versions,
) -> Result<Items, ReadFault>
    ensures exact { let seen = seen_as actor.now.fabric (S.rows_of sight.now) (S.versions sight.now) (S.all_entries sight.now) in
        IfOk result (λ items. read_answer seen actor.now paths.now filtered versions.now ≡ Some items) }

    // Before anything else is looked at.
    ensures not_global { let seen = seen_as actor.now.fabric (S.rows_of sight.now) (S.versions sight.now) (S.all_entries sight.now) in
        (result ≡ Err ReadFault.NotGlobal) ↔ (read_answer seen actor.now paths.now filtered versions.now ≡ None) }
{
    let paths = paths.as_slice();
    if any_not_global(paths) {
        return Err(ReadFault::NotGlobal);
    }
    let reader = Reader {
        alloc,
        sight,
        actor,
        filtered,
        versions: versions.as_slice(),
    };
    match reader.answered(paths) {
        Ok(items) => Ok(Items::from_vec(items)),
        Err(_) => Err(ReadFault::Memory),
    }
}

fn any_not_global(paths: &[Path]) -> bool
    ensures { result ≡ list_any is_not_global paths.now }
{
    paths.iter().any(|path| is_not_global(path))
}

impl<'a, S: Sight> Reader<'a, S> {
    fn answered(&self, paths: &[Path]) -> Result<Vec<Item>, AllocError>
        ensures { let seen = seen_as self.now.actor.now.fabric (S.rows_of self.now.sight.now) (S.versions self.now.sight.now) (S.all_entries self.now.sight.now) in
            IfOk result (λ items. items.items ≡ flat_map (path_items seen self.now.actor.now self.now.filtered self.now.versions.now) paths.now) }
    {
        let mut items = Vec::with_capacity(self.alloc, paths.len())?;
        for path in paths {
            self.push_path(path, &mut items)?;
        }
        Ok(items)
    }

    fn push_path(&self, path: &Path, items: &mut Vec<Item>) -> Result<(), AllocError>
        ensures { let seen = seen_as self.now.actor.now.fabric (S.rows_of self.now.sight.now) (S.versions self.now.sight.now) (S.all_entries self.now.sight.now) in
            OnOk result (items.new.items ≡ items.old.items ++ path_items seen self.now.actor.now self.now.filtered self.now.versions.now path.now) }
    {
        match path.place() {
            Some(place) => self.push_concrete(&place, items),
            None => self.push_wildcard(path, items),
        }
    }

    fn push_wildcard(&self, path: &Path, items: &mut Vec<Item>) -> Result<(), AllocError>
        ensures { let seen = seen_as self.now.actor.now.fabric (S.rows_of self.now.sight.now) (S.versions self.now.sight.now) (S.all_entries self.now.sight.now) in
            OnOk result (items.new.items ≡ items.old.items ++ flat_map (wildcard_items seen self.now.actor.now self.now.filtered self.now.versions.now) (places path.now)) }
    {
        // No path is left that is not global, so that nothing fails but for want of memory.
        let Ok(places) = expand(self.alloc, path) else {
            return Err(AllocError);
        };
        self.push_places(places.as_slice(), items)
    }

    fn push_places(&self, places: &[Place], items: &mut Vec<Item>) -> Result<(), AllocError>
        ensures { let seen = seen_as self.now.actor.now.fabric (S.rows_of self.now.sight.now) (S.versions self.now.sight.now) (S.all_entries self.now.sight.now) in
            OnOk result (items.new.items ≡ items.old.items ++ flat_map (wildcard_items seen self.now.actor.now self.now.filtered self.now.versions.now) places.now) }
    {
        items.reserve(places.len())?;
        for place in places {
            self.push_named(place, items)?;
        }
        Ok(())
    }
}
