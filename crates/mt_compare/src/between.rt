//! The first part in which two marks differ.

ghost use Rattle.std.specs.Prelude.{◌≡◌, IfOk, List};
ghost use Rattle.std.specs.Option.{option_map};
ghost use Rattle.mt_model.specs.declared.texts.config.SessionRow.{SessionRow};
ghost use Rattle.mt_play.specs.mt_machine.Environment.{Environment};
ghost use Rattle.mt_play.specs.mt_runs.Course.{Going};
ghost use Rattle.mt_play.specs.mt_runs.Isolation.{own_part};
ghost use Rattle.mt_play.specs.mt_marks.Seen.{public_in, unanswered_in};
ghost use Rattle.mt_play.specs.mt_marks.Difference.{born_part, part_between as part_of_marks, reopened_part};
ghost use Rattle.mt_play.specs.mt_marks.DifferencesParts.{seen_part};
ghost use Rattle.mt_play.specs.Remembers.{IsRemembering};
ghost use Rattle.mt_compare.specs.Sides.{mark_in};

use crate::side::{Here, Side};
use mt_play::{Mark, Part, Remembering, Unanswered, first_difference, parts_come_in_order};
use mt_same::Same;
use std::alloc::AllocError;

/// The first part in which the marks at which two sides stand differ, None where they don't.
pub(crate) fn part_between(
    fabric: u8,
    mine: &Side,
    theirs: &Side,
) -> Result<Option<Part>, AllocError>
    ensures { (given : Environment) (sessions : List SessionRow) (g h : Going) → IsRemembering mine.now.node given sessions g → IsRemembering theirs.now.node given sessions h
        → IfOk result (λ part. part ≡ part_of_marks (mark_in fabric g mine.now.here) (mark_in fabric h theirs.now.here)) }
{
    match (&mine.here, &theirs.here) {
        (Here::Seen(mark), Here::Seen(other)) => Ok(seen_between(mark, other)),
        (Here::Reopened(mark, left), Here::Reopened(other, left_too)) => {
            Ok(reopened_between(mark, left, other, left_too))
        }
        (Here::Enters, Here::Enters) => born_between(fabric, &mine.node, &theirs.node),
        (Here::Leaves, Here::Leaves) => Ok(None),
        _ => Ok(Some(Part::Event)),
    }
}

// The same of two events that the fabric sees.
fn seen_between(mark: &Mark, other: &Mark) -> Option<Part>
    ensures { result ≡ seen_part mark.entry.now.event (public_in mark.entry.now) other.entry.now.event (public_in other.entry.now) }
{
    parts_come_in_order();
    first_difference(mark, other)
}

// The same of two reopenings.
fn reopened_between(
    mark: &Mark,
    left: &Option<Unanswered>,
    other: &Mark,
    left_too: &Option<Unanswered>,
) -> Option<Part>
    ensures { result ≡ reopened_part mark.entry.now.event (public_in mark.entry.now) (option_map unanswered_in left.now) other.entry.now.event (public_in other.entry.now) (option_map unanswered_in left_too.now) }
{
    parts_come_in_order();
    if !left.is_same(left_too) {
        return Some(Part::Event);
    }
    seen_between(mark, other)
}

// The same of the own parts that a fabric has as it enters the table.
fn born_between(
    fabric: u8,
    mine: &Remembering,
    theirs: &Remembering,
) -> Result<Option<Part>, AllocError>
    ensures { (given : Environment) (sessions : List SessionRow) (g h : Going) → IsRemembering mine.now given sessions g → IsRemembering theirs.now given sessions h
        → IfOk result (λ part. part ≡ born_part (own_part fabric g.whole) (own_part fabric h.whole)) }
{
    parts_come_in_order();
    if mine.has_same_own(theirs, fabric)? {
        return Ok(None);
    }
    Ok(Some(Part::Born))
}
