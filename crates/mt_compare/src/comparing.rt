//! The first mark that differs.

ghost use Rattle.std.specs.Prelude.{◌≡◌, IfOk, List, None, Some};
ghost use Rattle.std.specs.Option.{option_map};
ghost use Rattle.mt_model.specs.declared.texts.config.SessionRow.{SessionRow};
ghost use Rattle.mt_model.specs.texts.Contents.{contents_of};
ghost use Rattle.mt_play.specs.mt_machine.Environment.{Environment, given_by};
ghost use Rattle.mt_play.specs.mt_runs.Course.{Going, going_on};
ghost use Rattle.mt_play.specs.mt_runs.Whole.{opened};
ghost use Rattle.mt_play.specs.mt_marks.Difference.{difference, difference_from};
ghost use Rattle.mt_play.specs.mt_marks.Marked.{marked};
ghost use Rattle.mt_compare.specs.Found.{difference_in};
ghost use Rattle.mt_play.specs.Plays.{IsOnJournal};
ghost use Rattle.mt_play.specs.Remembers.{IsRemembering};
ghost use Rattle.mt_compare.specs.Sides.{left_of};

use crate::between::part_between;
use crate::side::{LineOf, Side};
use mt_model::{Config, Event};
use mt_play::Part;
use std::alloc::{AllocError, Global};

/// Where two runs first differ for a fabric.
#[derive(Clone, Copy)]
pub struct Difference<'a> {
    /// The number of the first mark that differs, from 1.
    pub number: u64,
    /// The first part in which it does.
    pub part: Part,
    /// The line at which it stands in the first run, None where that has no further mark.
    pub first: Option<LineOf<'a>>,
    /// The same in the second run.
    pub second: Option<LineOf<'a>>,
}

/// Plays the events of two recordings, each on a new node with this configuration and through every stop of its disk, and tells where they first differ by the
/// marks of a fabric; None exactly where its marks are equal. Of each run one mark is held at a time.
pub fn compare<'a>(
    alloc: Global,
    fabric: u8,
    config: &'a Config,
    first: &'a [Event],
    second: &'a [Event],
) -> Result<Option<Difference<'a>>, AllocError>
    ensures { IfOk result (λ found. option_map difference_in found
        ≡ difference (given_by (contents_of config.now)) config.now.sessions fabric (going_on (opened config.now)) first.entry.now second.entry.now) }
{
    let mut mine = Side::start(alloc, config, first)?;
    compare_with(alloc, fabric, config, &mut mine, second)
}

// The same of the marks that are left of a run, and of all marks of another. Each of the two functions owns one run, since
// letting go of both in one would be proved along every way on which either ends.
fn compare_with<'a>(
    alloc: Global,
    fabric: u8,
    config: &'a Config,
    mine: &mut Side<'a>,
    second: &'a [Event],
) -> Result<Option<Difference<'a>>, AllocError>
    requires { IsOnJournal mine.old.node.playing }
    ensures { (g : Going) → IsRemembering mine.old.node (given_by (contents_of config.now)) config.now.sessions g
        → IfOk result (λ found. option_map difference_in found ≡ difference_from 1 (left_of (given_by (contents_of config.now)) config.now.sessions fabric g mine.old) (marked (given_by (contents_of config.now)) config.now.sessions fabric (going_on (opened config.now)) second.entry.now)) }
{
    let mut theirs = Side::start(alloc, config, second)?;
    first_between(fabric, mine, &mut theirs)
}

// The first of the marks that are left that differs.
fn first_between<'a>(
    fabric: u8,
    mine: &mut Side<'a>,
    theirs: &mut Side<'a>,
) -> Result<Option<Difference<'a>>, AllocError>
    requires mine { IsOnJournal mine.old.node.playing }
    requires theirs { IsOnJournal theirs.old.node.playing }
    ensures { (given : Environment) (sessions : List SessionRow) (g h : Going) → IsRemembering mine.old.node given sessions g → IsRemembering theirs.old.node given sessions h
        → IfOk result (λ found. option_map difference_in found ≡ difference_from 1 (left_of given sessions fabric g mine.old) (left_of given sessions fabric h theirs.old)) }
{
    for number in 1..u64::MAX {
        match (mine.next(fabric)?, theirs.next(fabric)?) {
            (true, true) => {
                if let Some(part) = part_between(fabric, mine, theirs)? {
                    return Ok(Some(differs(number, part, mine.line, theirs.line)));
                }
            }
            (true, false) => return Ok(Some(differs(number, Part::Event, mine.line, None))),
            (false, true) => return Ok(Some(differs(number, Part::Event, None, theirs.line))),
            (false, false) => return Ok(None),
        }
    }
    Err(AllocError)
}

fn differs<'a>(
    number: u64,
    part: Part,
    first: Option<LineOf<'a>>,
    second: Option<LineOf<'a>>,
) -> Difference<'a>
    ensures { result ≡ record { number = number; part = part; first = first.entry; second = second.entry } }
{
    Difference {
        number,
        part,
        first,
        second,
    }
}
