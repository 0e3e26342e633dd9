//! The image of a map, in memory of which there is always enough.

ghost use Rattle.std.specs.Prelude.{◌≡◌, ◌<◌, ◌≤◌, ◌↔◌, None, Some, length, take, IfOk, IsTrue};
ghost use Rattle.mt_durable.specs.Changes.{change_bytes, entry_trees};
ghost use Rattle.mt_durable.specs.Keeping.{HasRoom, IsAdmitted, IsChange, LeadsTo};
ghost use Rattle.mt_durable.specs.Maps.{have_values};
ghost use Rattle.mt_durable.specs.Reading.{Says, change_at, said};
ghost use Rattle.mt_durable.specs.Setting.{with_all};
ghost use Rattle.mt_store.specs.Leading.{IfNotAChange};
ghost use Rattle.mt_tlv.specs.Limits.{IsAllowed, deepest};
ghost use Rattle.mt_tlv.specs.Tree.{array};

use crate::map_form::MapForm;
use mt_durable::{
    ChangeFault, Durable, Rule, bytes_of_a_change_are_read, changes_lead_on, image_has_room,
    is_admitted, maps_have_images, read_change, write_image,
};
use std::alloc::{AllocError, Global};
use std::marker::Model;

// How long an image is at most, as an element.
const LONGEST: usize = 65_535;

/// A map as its image, the bytes of the change that leads to it from the empty map. Contracts see the
/// entries of the map. There is room for the longest image, of which so many bytes in front are this one.
#[derive(Drop)]
pub struct Image {
    bytes: Vec<u8>,
    count: usize,
}

impl Model for Image {
    ghost use Rattle.std.specs.Prelude.{List, ◌≡◌, ◌≤◌, length, take};
    ghost use Rattle.std.specs.Coded.{codes};
    ghost use Rattle.mt_tlv.specs.contracts.value.Value as values;
    ghost use Rattle.mt_durable.specs.Images.{IsImage};
    ghost use Rattle.mt_durable.specs.Reading.{said};
    ghost use Rattle.mt_durable.specs.declared.durable.Entry.{Entry};

    ghost Value = { List Entry };

    ghost coded = { Prim.hlevel (codes, values.the_row.coded) };

    ghost view = { λ image. said (take image.count image.bytes.items) };

    ghost invariant = { λ image. IsImage (take image.count image.bytes.items) × (length image.bytes.items ≡ 65535) × (image.count ≤ 65535) };
}

impl Image {
    /// The image of a map whose values may stand in an element. NotAChange says that it would be longer than
    /// an element may be.
    pub fn of_map(alloc: Global, map: &Durable) -> Result<Self, ChangeFault>
        requires { IsAllowed (array (entry_trees map.now)) deepest }
        ensures value { IfOk result (λ image. image ≡ map.now) }
        ensures refused { IfNotAChange result (65535 < length (change_bytes map.now)) }
    {
        bytes_of_a_change_are_read();
        maps_have_images();
        let mut written = Vec::new(alloc);
        write_image(alloc, map, &mut written)?;
        let count = written.len();
        if count > LONGEST {
            return Err(ChangeFault::NotAChange);
        }
        let bytes = filled_up(written)?;
        Ok(Image { bytes, count })
    }

    /// The bytes.
    pub fn as_slice(&self) -> &[u8]
        ensures says { Says self.now result.now }
        ensures whole { IsTrue (have_values self.now) }
    {
        &self.bytes[..self.count]
    }

    /// The map.
    pub fn map(&self, alloc: Global) -> Result<Durable, AllocError>
        ensures { IfOk result (λ map. map ≡ self.now) }
    {
        bytes_of_a_change_are_read();
        changes_lead_on();
        let Ok(change) = read_change(alloc, self.as_slice()) else {
            return Err(AllocError);
        };
        let mut map = Durable::new(alloc);
        map.merge(change)?;
        Ok(map)
    }

    /// Whether there is room for a change, as a commit wants: whether the image of the map after it is no
    /// longer than an element may be. The image is gone over only where the length of both does not tell, and
    /// is not read. NotAChange says that the bytes are no change.
    pub fn has_room(&self, alloc: Global, change: &[u8]) -> Result<bool, ChangeFault>
        ensures form { IfOk result (λ _. IsChange change.now) }
        ensures room { IfOk result (λ room. IsTrue room ↔ HasRoom change.now (Some self.now)) }
        ensures refused { IfNotAChange result (change_at change.now ≡ None) }
    {
        bytes_of_a_change_are_read();
        let entries = read_change(alloc, change)?;
        drop(entries);
        Ok(image_has_room(self.as_slice(), change))
    }

    /// Whether the map after a change may stand under a rule, as a commit under it wants. NotAChange says that the
    /// bytes are no change.
    pub fn is_admitted<R: Rule>(&self, alloc: Global, change: &[u8]) -> Result<bool, ChangeFault>
        ensures form { IfOk result (λ _. IsChange change.now) }
        ensures admitted { IfOk result (λ is. IsTrue is ↔ IsAdmitted R.admits change.now (Some self.now)) }
        ensures refused { IfNotAChange result (change_at change.now ≡ None) }
    {
        let entries = read_change(alloc, change)?;
        let map = self.map(alloc)?;
        Ok(is_admitted::<R>(alloc, &map, entries)?)
    }

    /// Becomes the image of the map to which a change leads from that of another image. It takes no memory.
    pub fn follow<F: MapForm>(&mut self, from: &Image, change: &[u8])
        requires change { IsChange change.now }
        requires room { HasRoom change.now (Some from.now) }
        ensures value { self.new ≡ with_all (said change.now) from.now }
        ensures leads { LeadsTo change.now from.now self.new }
    {
        bytes_of_a_change_are_read();
        changes_lead_on();
        maps_have_images();
        let bytes = from.as_slice();
        let merged = F::merge(bytes, change, self.bytes.as_mut_slice());
        self.count = merged;
    }
}

// These bytes, and as many behind them as the longest image has more.
fn filled_up(bytes: Vec<u8>) -> Result<Vec<u8>, AllocError>
    requires { length bytes.items ≤ 65535 }
    ensures filled { IfOk result (λ filled. length filled.items ≡ 65535) }
    ensures front { IfOk result (λ filled. take (length bytes.items) filled.items ≡ bytes.items) }
{
    let mut filled = bytes;
    filled.resize(LONGEST, 0)?;
    Ok(filled)
}
