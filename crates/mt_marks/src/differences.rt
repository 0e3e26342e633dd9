//! Where two runs first differ by what a fabric sees of them, as it is written. The definitions stand in `specs/`, a chapter a
//! file; the functions here do nothing, and their contracts are the laws.
//!
//! - `Marked`: the marks of a fabric in a run, each with the event at whose line it stands;
//! - `Parts`: the parts of two marks, and which of them are the same;
//! - `Difference`: the first mark and the first part that differ;
//! - `Laws`: the laws.

ghost use Rattle.mt_marks.specs.differences.Laws.{DifferencesAreFirst, EqualMarksDoNotDiffer, MarkedAreMarks, OwnPartsDiffer, PartsComeInOrder, SameMarksHaveNoPart, SamePartsAreSame};

use mt_model::what_is_told_the_same_is;

/// The marks that stand at events are those of the run, in their order.
pub fn marked_events_have_the_marks()
    ensures { MarkedAreMarks }
{}

/// The part that is found to differ is the first that does, in the order of the parts; and where none does, the marks are the
/// same.
pub fn parts_come_in_order()
    ensures same { SamePartsAreSame }
    ensures first { PartsComeInOrder }
    ensures own { OwnPartsDiffer }
    ensures marks { SameMarksHaveNoPart }
{
    what_is_told_the_same_is();
}

/// Two runs do not differ for a fabric exactly where its marks are equal in both; and where they differ, what is told is the
/// first mark that does.
pub fn equal_marks_do_not_differ()
    ensures alike { EqualMarksDoNotDiffer }
    ensures first { DifferencesAreFirst }
{
    marked_events_have_the_marks();
    parts_come_in_order();
}
