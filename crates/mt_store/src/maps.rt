//! The forms of maps: of all, and of those that a rule admits.

ghost use Rattle.std.specs.Prelude.{◌≡◌, ◌&&◌, Some, ⊤, refl};
ghost use Rattle.std.proofs.Common.{ap};
ghost use Rattle.mt_durable.specs.Keepers.{any_map};
ghost use Rattle.mt_durable.specs.Reading.{is_change, is_image, said};
ghost use Rattle.mt_store.specs.Leading.{follows, map_of};

use crate::map_form::MapForm;
use mt_durable::{
    ChangeFault, Durable, Rule, bytes_of_a_change_are_read, changes_lead_on, merge_image,
    read_change,
};
use mt_journal::Form;
use std::alloc::{AllocError, Global};
use std::marker::PhantomData;

/// Images and changes of maps, as mt_durable has them. Each map may stand.
#[derive(Clone, Copy, Drop)]
pub struct Maps;

impl Rule for Maps {
    ghost admits = { any_map };

    fn admits(_alloc: Global, _map: &Durable) -> Result<bool, AllocError> {
        Ok(true)
    }
}

impl Form for Maps {
    ghost image = { is_image };

    ghost change = { λ list bytes. is_change bytes };

    ghost was_told = { λ form list. ⊤ };

    fn start(_alloc: Global) -> Self {
        Maps
    }

    fn is_image(&mut self, alloc: Global, bytes: &[u8]) -> Result<bool, AllocError> {
        match read_change(alloc, bytes) {
            Ok(change) => Ok(change.is_whole()),
            Err(ChangeFault::NotAChange) => Ok(false),
            Err(ChangeFault::Memory) => Err(AllocError),
        }
    }

    fn is_change(&mut self, alloc: Global, bytes: &[u8]) -> Result<bool, AllocError> {
        match read_change(alloc, bytes) {
            Ok(_) => Ok(true),
            Err(ChangeFault::NotAChange) => Ok(false),
            Err(ChangeFault::Memory) => Err(AllocError),
        }
    }
}

impl MapForm for Maps {
    ghost images = { λ bytes. refl };

    ghost changes = { λ list map bytes leads. refl };

    fn merge(from: &[u8], change: &[u8], into: &mut [u8]) -> usize {
        merge_image(from, change, into)
    }
}

/// Images and changes of maps that a rule admits. It keeps the map to which what it was told leads.
pub struct MapsOf<R: Rule> {
    map: Durable,
    rule: PhantomData<R>,
}

impl<R: Rule> Drop for MapsOf<R> {
    fn drop(self) {
        let MapsOf { map: _, rule: _ } = self;
    }
}

impl<R: Rule> Rule for MapsOf<R> {
    ghost admits = { R.admits };

    fn admits(alloc: Global, map: &Durable) -> Result<bool, AllocError> {
        R::admits(alloc, map)
    }
}

impl<R: Rule> Form for MapsOf<R> {
    ghost image = { λ bytes. R.admits (said bytes) && is_image bytes };

    ghost change = { λ list bytes. follows R.admits (map_of list) bytes };

    ghost was_told = { λ form list. map_of list ≡ Some form.map };

    fn start(alloc: Global) -> Self {
        MapsOf {
            map: Durable::new(alloc),
            rule: PhantomData,
        }
    }

    fn is_image(&mut self, alloc: Global, bytes: &[u8]) -> Result<bool, AllocError> {
        changes_lead_on();
        let change = match read_change(alloc, bytes) {
            Ok(change) => change,
            Err(ChangeFault::NotAChange) => return Ok(false),
            Err(ChangeFault::Memory) => return Err(AllocError),
        };
        if !change.is_whole() {
            return Ok(false);
        }
        self.map = Durable::new(alloc);
        self.map.merge(change)?;
        R::admits(alloc, &self.map)
    }

    fn is_change(&mut self, alloc: Global, bytes: &[u8]) -> Result<bool, AllocError> {
        let change = match read_change(alloc, bytes) {
            Ok(change) => change,
            Err(ChangeFault::NotAChange) => return Ok(false),
            Err(ChangeFault::Memory) => return Err(AllocError),
        };
        self.map.merge(change)?;
        R::admits(alloc, &self.map)
    }
}

impl<R: Rule> MapForm for MapsOf<R> {
    ghost images = { λ bytes. refl };

    ghost changes = { λ list map bytes leads. ap (λ m. follows R.admits m bytes) leads };

    fn merge(from: &[u8], change: &[u8], into: &mut [u8]) -> usize {
        merge_image(from, change, into)
    }
}
