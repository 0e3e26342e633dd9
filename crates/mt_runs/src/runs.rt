//! Runs, in which the disk may stop: what a fabric is sent through every stop is made of its own part and its marks, among which
//! reopenings are.

ghost use Rattle.mt_runs.specs.Laws.{EndsAreReplayed, EqualMarksEqualEnds, EqualMarksEqualMessages, EqualMarksEqualParts, LinesNameTheirFabric, RunsAreReplayed, RunsAreTheirMessages, RunsLeaveWhatIsReplayed, RunsNameTheirFabrics, RunsStayValid, StrangersAreSentNothing};

use crate::lines::{
    ticks_see_the_mark_alone, veil_keeps_the_own, whole_keeps_the_own,
    whole_leaves_the_own_on_the_veil, whole_sends_on_the_veil, wholes_are_valid,
};
use crate::stops::reopenings_see_the_own_part;
use mt_regained::raised_ceilings_come_first;

/// What is written of a run is its messages in their order, each once.
pub fn runs_are_their_messages()
    ensures { RunsAreTheirMessages }
{}

/// A message to a plain actor names the fabric to which it is sent.
pub fn plain_messages_name_their_fabric()
    ensures line { LinesNameTheirFabric }
    ensures run { RunsNameTheirFabrics }
{}

/// A line that acts for a fabric which is not in the table sends nothing.
pub fn strangers_are_sent_nothing()
    ensures { StrangersAreSentNothing }
{}

/// A run leaves a valid whole, where there is room for the boots that may come. What a fabric is sent in it, what it holds at the end, and
/// what it held as each of its lives ended, is made of its own part and its marks, and of nothing else: an event of it in which the disk
/// stopped sends it nothing, and what survived of its own part goes on in the next boot.
pub fn runs_are_replayed()
    ensures valid { RunsStayValid }
    ensures sent { RunsAreReplayed }
    ensures held { RunsLeaveWhatIsReplayed }
    ensures ends { EndsAreReplayed }
{
    wholes_are_valid();
    veil_keeps_the_own();
    whole_sends_on_the_veil();
    whole_leaves_the_own_on_the_veil();
    whole_keeps_the_own();
    ticks_see_the_mark_alone();
    strangers_are_sent_nothing();
    raised_ceilings_come_first();
    reopenings_see_the_own_part();
}

/// Two runs in which a fabric has the same own part and the same marks send it the same, byte for byte, and leave it the same, at the end
/// and as each of its lives ends. The two may differ in all else: other fabrics, their data, what they ask, and when, and also in where the
/// disk stops, so far as no mark shows it.
pub fn equal_marks_have_equal_messages()
    ensures messages { EqualMarksEqualMessages }
    ensures parts { EqualMarksEqualParts }
    ensures ends { EqualMarksEqualEnds }
{
    runs_are_replayed();
}
