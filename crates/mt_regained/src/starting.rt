//! How a node begins with the map with which it goes on.

ghost use Rattle.std.specs.Prelude.{◌≡◌, ℕ, Some, IfOk};
ghost use Rattle.mt_durable.specs.Setting.{with_all};
ghost use Rattle.mt_machine.specs.State.{IsValid};
ghost use Rattle.mt_lasting.specs.Contents.{durable};
ghost use Rattle.mt_regained.specs.Begun.{MayStart, ceiling_in, first_change, next_boot};

use crate::bytes::keys_are_of_bytes;
use crate::laws::{durable_maps_are_kept, states_are_regained};
use crate::opening::begun_with;
use crate::regained::state_of;
use mt_durable::Durable;
use mt_grammar::kept_in;
use mt_machine::{expiries_spare_others, states_are_valid};
use mt_model::{Config, NodeState};
use std::alloc::{AllocError, Global};

/// The state in which the boot behind a map begins with which a node may start, and the ceiling of event numbers that the map
/// has. What is committed first makes of the map that of the state.
pub fn begun(alloc: Global, config: &Config, map: &Durable) -> Result<(NodeState, u64), AllocError>
    requires { MayStart map.now }
    ensures state { IfOk result (λ both. next_boot config.now map.now ≡ Some both.0) }
    ensures ceiling { IfOk result (λ both. both.1 ≡ ceiling_in map.now) }
    ensures valid { IfOk result (λ both. IsValid both.0) }
    ensures leads { (next : ℕ) → IfOk result (λ both. with_all (first_change both.0.boot next) map.now ≡ durable both.0 next) }
{
    states_are_valid();
    states_are_regained();
    durable_maps_are_kept();
    expiries_spare_others();
    keys_are_of_bytes(map.as_slice());
    // What is rolled back is a map of the grammar.
    let Some(kept) = kept_in(alloc, map)? else {
        unreachable!()
    };
    let ceiling = kept.ceiling.unwrap_or(0);
    let state = state_of(alloc, kept)?;
    let boot = state.boot + 1;
    let begun = begun_with(alloc, boot, config.sessions.as_slice(), state)?;
    Ok((begun, ceiling))
}
