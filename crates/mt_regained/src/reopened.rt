//! The map with which a node goes on behind a loss of power.

ghost use Rattle.std.specs.Prelude.{◌≡◌, IfOk, IfSome};
ghost use Rattle.mt_model.specs.texts.Contents.{contents_of};
ghost use Rattle.mt_regained.specs.Reopened.{HasImage, new_map, reopened_map};

use crate::opening::opened;
use crate::rolled::rolled_map;
use mt_durable::Durable;
use mt_lasting::{durable_of, maps_and_changes_are_elements};
use mt_machine::states_are_valid;
use mt_model::Config;
use std::alloc::{AllocError, Global};

/// The map with which a node goes on whose journal leads to this map: that map without what was done under a fail-safe that was
/// armed; None exactly where it is not in the grammar of states. The empty map is that of a node that has never started, which
/// goes on with the fabrics and entries of its configuration.
pub fn reopened_map(
    alloc: Global,
    config: &Config,
    map: &Durable,
) -> Result<Option<Durable>, AllocError>
    ensures reopened { IfOk result (λ reopened. reopened ≡ reopened_map (contents_of config.now) map.now) }
    ensures image { IfOk result (λ reopened. IfSome reopened HasImage) }
{
    if map.as_slice().is_empty() {
        return Ok(Some(new_map(alloc, config)?));
    }
    rolled_map(alloc, map)
}

/// The map of a node that has never started, with which it begins.
pub fn new_map(alloc: Global, config: &Config) -> Result<Durable, AllocError>
    ensures map { IfOk result (λ map. map ≡ new_map (contents_of config.now)) }
    ensures image { IfOk result HasImage }
{
    states_are_valid();
    maps_and_changes_are_elements();
    let state = opened(alloc, 0, config)?;
    durable_of(alloc, &state, 0)
}
