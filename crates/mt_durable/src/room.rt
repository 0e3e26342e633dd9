//! Whether a keeper has room for a change.

ghost use Rattle.std.specs.Prelude.{◌≡◌, ◌↔◌, ◌+◌, ◌≤◌, ℕ, List, Some, length, IfOk, IsTrue};
ghost use Rattle.mt_durable.specs.Images.{IsImage};
ghost use Rattle.mt_durable.specs.Keeping.{HasRoom, IsChange};
ghost use Rattle.mt_durable.specs.Reading.{Says, said};

use crate::change::write_image;
use crate::durable::{Change, Durable};
use crate::image::length_after;
use crate::laws::changes_lead_on;
use crate::reading::bytes_of_a_change_are_read;
use std::alloc::{AllocError, Global};

// How long an image is at most, as an element.
const LONGEST: usize = 65_535;

/// Whether the image of a map after a change is no longer than an element may be, which each keeper wants
/// of a change that it commits.
pub fn has_room(alloc: Global, map: &Durable, change: Change) -> Result<bool, AllocError>
    ensures { IfOk result (λ room. (bytes : List ℕ) → Says change bytes → IsTrue room ↔ HasRoom bytes (Some map.now)) }
{
    bytes_of_a_change_are_read();
    let mut after = map.copy()?;
    after.merge(change)?;
    let mut image = Vec::new(alloc);
    write_image(alloc, &after, &mut image)?;
    Ok(image.len() <= LONGEST)
}

/// Whether a change finds room by its length alone, in the image of a map: both together are no longer than
/// an element may be. It reads neither and takes no memory. Where it answers no there may be room still.
pub fn finds_room(image: &[u8], change: &[u8]) -> bool
    requires image { IsImage image.now }
    requires change { IsChange change.now }
    ensures room { IsTrue result → HasRoom change.now (Some (said image.now)) }
    ensures together { IsTrue result ↔ (length image.now + length change.now ≤ 65535) }
{
    changes_lead_on();
    image.len() <= LONGEST && change.len() <= LONGEST - image.len()
}

/// Whether the image of a map has room for a change, as `has_room` says of the map. It goes over the image only
/// where the lengths of both do not tell, and takes no memory.
pub fn image_has_room(image: &[u8], change: &[u8]) -> bool
    requires image { IsImage image.now }
    requires change { IsChange change.now }
    ensures { IsTrue result ↔ HasRoom change.now (Some (said image.now)) }
{
    bytes_of_a_change_are_read();
    changes_lead_on();
    if finds_room(image, change) {
        return true;
    }
    length_after(image, change) <= LONGEST
}
