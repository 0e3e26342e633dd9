//! The map with which a node goes on, before its first commit.

ghost use Rattle.std.specs.Prelude.{◌≡◌, ◌≤◌, Some, length, IfOk};
ghost use Rattle.mt_model.specs.texts.Contents.{contents_of};
ghost use Rattle.mt_regained.specs.Reopened.{HasImage, reopened_map};

use mt_durable::Durable;
use mt_model::Config;
use mt_regained::reopened_map;
use mt_store::Image;
use std::alloc::{AllocError, Global};

// How long a change is at most, as an element.
const LONGEST: usize = 65_535;

/// The map behind the rollback, as its image, with room for the image behind the first commit and for the change that leads
/// there.
pub(crate) struct Rolled {
    pub(crate) image: Image,
    pub(crate) next: Image,
    pub(crate) room: Vec<u8>,
    pub(crate) ghost within: { length room.items ≤ 65535 },
}

impl Drop for Rolled {
    fn drop(self) {
        let Rolled {
            image: _,
            next: _,
            room: _,
        } = self;
    }
}

/// The map with which a node goes on whose journal leads to this one.
pub(crate) fn rolled_of(
    alloc: Global,
    config: &Config,
    map: &Durable,
) -> Result<(Durable, Rolled), AllocError>
    ensures map { IfOk result (λ rolled. reopened_map (contents_of config.now) map.now ≡ Some rolled.0) }
    ensures image { IfOk result (λ rolled. rolled.1.image ≡ rolled.0) }
{
    // A journal of states leads to no other map, so what is no state never comes here.
    let Some(reopened) = reopened_map(alloc, config, map)? else {
        return Err(AllocError);
    };
    let image = image_of(alloc, &reopened)?;
    let next = image_of(alloc, &reopened)?;
    let mut room = Vec::new(alloc);
    room.resize(LONGEST, 0)?;
    Ok((reopened, Rolled { image, next, room }))
}

// The image of a map that has one.
fn image_of(alloc: Global, map: &Durable) -> Result<Image, AllocError>
    requires { HasImage map.now }
    ensures { IfOk result (λ image. image ≡ map.now) }
{
    match Image::of_map(alloc, map) {
        Ok(image) => Ok(image),
        Err(_) => Err(AllocError),
    }
}
