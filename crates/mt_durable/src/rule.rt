//! Which maps may stand.

ghost use Rattle.std.specs.Prelude.{◌≡◌, ◌↔◌, ℕ, Bool, List, Some, IfOk, IsTrue};
ghost use Rattle.mt_durable.specs.Keeping.{IsAdmitted};
ghost use Rattle.mt_durable.specs.Reading.{Says};
ghost use Rattle.mt_durable.specs.declared.durable.Entry.{Entry};

use crate::durable::{Change, Durable};
use crate::reading::bytes_of_a_change_are_read;
use std::alloc::{AllocError, Global};

/// A rule on maps, which says of each whether it may stand.
pub trait Rule {
    /// Whether a map may stand.
    ghost admits: { List Entry → Bool };

    /// Whether a map may stand. The test may take memory, and gives it back.
    fn admits(alloc: Global, map: &Durable) -> Result<bool, AllocError>
        ensures { IfOk result (λ is. is ≡ admits map.now) };
}

/// Whether the map after a change may stand, which a keeper under the rule wants of a change that it commits.
pub fn is_admitted<R: Rule>(
    alloc: Global,
    map: &Durable,
    change: Change,
) -> Result<bool, AllocError>
    ensures { IfOk result (λ is. (bytes : List ℕ) → Says change bytes → IsTrue is ↔ IsAdmitted R.admits bytes (Some map.now)) }
{
    bytes_of_a_change_are_read();
    let mut after = map.copy()?;
    after.merge(change)?;
    R::admits(alloc, &after)
}
