//! Laws of wholes. The functions do nothing, and their contracts are the laws.

ghost use Rattle.mt_whole.specs.Laws.{ClosedAreThoseThatEnd, OwnPartsAreStandingsAndTalks, TalksLetGoWhatCloses};

/// The sessions that end with the outcome of an event, as `WholeOutcome::closed` lends them, are those that end behind it; and
/// what is said behind it is what `Whole::note` adds, of which these sessions have let go.
pub fn closed_sessions_are_those_that_end()
    ensures closed { ClosedAreThoseThatEnd }
    ensures talks { TalksLetGoWhatCloses }
{}

/// A fabric's own part is the same in two wholes exactly where `Whole::alike` finds it so and all that is shown of its live
/// sessions is the same.
pub fn own_parts_are_standings_and_talks()
    ensures { OwnPartsAreStandingsAndTalks }
{}
