//! How long the lines of a recording are. Nothing here runs; the function does nothing, and its contract is the law.
#![tactic(auto)]

ghost use Rattle.mt_sizes.specs.Laws.{LinesAreShort};

/// An event within its types and the ranges of the format has a short line, at whatever time a recording gives it; and the text of a
/// recording is as long as its head and these lines.
pub fn lines_are_short()
    ensures { LinesAreShort }
{}
