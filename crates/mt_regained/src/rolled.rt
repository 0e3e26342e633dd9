//! The rollback of a durable map.

ghost use Rattle.std.specs.Prelude.{◌≡◌, IfOk, IfSome};
ghost use Rattle.mt_regained.specs.Reopened.{HasImage};
ghost use Rattle.mt_regained.specs.Rolled.{rolled_map};

use crate::bytes::keys_are_of_bytes;
use crate::laws::states_are_regained;
use crate::regained::state_of;
use mt_durable::Durable;
use mt_grammar::{facts_hold, kept_in};
use mt_lasting::{durable_of, maps_and_changes_are_elements};
use mt_machine::expiries_spare_others;
use mt_steps::rolled_back;
use std::alloc::{AllocError, Global};

/// The map of the state that a map stands for, without what was done under a fail-safe that was armed; None exactly where the
/// map is not in the grammar of states.
pub fn rolled_map(alloc: Global, map: &Durable) -> Result<Option<Durable>, AllocError>
    ensures rolled { IfOk result (λ rolled. rolled ≡ rolled_map map.now) }
    ensures image { IfOk result (λ rolled. IfSome rolled HasImage) }
{
    states_are_regained();
    expiries_spare_others();
    maps_and_changes_are_elements();
    keys_are_of_bytes(map.as_slice());
    let Some(kept) = kept_in(alloc, map)? else {
        return Ok(None);
    };
    if !facts_hold(&kept) {
        return Ok(None);
    }
    let ceiling = kept.ceiling.unwrap_or(0);
    let state = state_of(alloc, kept)?;
    let behind = rolled_back(alloc, &state)?;
    Ok(Some(durable_of(alloc, &behind, ceiling)?))
}
