//! What a line makes of a fabric's place in the table, and what it leaves unanswered.

ghost use Rattle.std.specs.Prelude.{◌≡◌, IfOk};
ghost use Rattle.mt_compare.specs.Passing.{left_by, passed_by};

use mt_model::{Event, ExactCopy};
use mt_play::Unanswered;
use std::alloc::AllocError;

/// What an event that is carried out makes of a fabric's place in the table.
#[derive(Clone, Copy, Debug, PartialEq, Eq)]
pub(crate) enum Passed {
    /// The fabric stays in the table, or out of it, or leaves it by an event of its own.
    Stays,
    /// It enters the table.
    Enters,
    /// It leaves the table by an event that is none of its own.
    Leaves,
}

/// By whether the fabric was in the table, whether the event is its own, and whether it is in the table behind it.
pub(crate) fn change_of(was: bool, is_own: bool, is: bool) -> Passed
    ensures { result ≡ passed_by was is_own is }
{
    match (was, is) {
        (false, true) => Passed::Enters,
        (true, false) if !is_own => Passed::Leaves,
        _ => Passed::Stays,
    }
}

/// The event in which the disk stopped, where it is the fabric's own.
pub(crate) fn left_unanswered(
    is_own: bool,
    event: &Event,
    survived: bool,
) -> Result<Option<Unanswered>, AllocError>
    ensures { IfOk result (λ left. left ≡ left_by is_own event.now survived) }
{
    if !is_own {
        return Ok(None);
    }
    Ok(Some(Unanswered {
        event: event.copy()?,
        survived,
    }))
}
