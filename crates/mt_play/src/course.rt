//! What becomes of a line: it is carried out, or the disk stops in it.

ghost use Rattle.std.specs.Prelude.{◌≡◌};
ghost use Rattle.std.specs.Option.{option_map};
ghost use Rattle.mt_whole.specs.mt_runs.Course.{course_of_line, course_of_stop, is_kept};
ghost use Rattle.mt_play.specs.Courses.{IsTold, course_in, stop_in};

use mt_outside::Fate;

/// A stop of the disk that is to come.
#[derive(Clone, Copy, Debug, PartialEq, Eq)]
pub struct ComingStop {
    /// In which of the later calls that write or sync, from 1; 0 at its own line.
    pub calls: u64,
    pub fate: Fate,
    /// The number of calls that its line has.
    pub asked: u64,
}

/// What becomes of a line.
#[derive(Clone, Copy, Debug, PartialEq, Eq)]
pub enum Course {
    /// It is carried out, and this stop is to come behind it.
    Goes(Option<ComingStop>),
    /// The disk stops in it, and the node is reopened.
    Stops {
        by: ComingStop,
        /// Whether what the line changes is there behind the reopening.
        survives: bool,
    },
}

/// What becomes of a line that stops the disk: 0 stops it at once, any other number takes the place of the stop that was to come.
pub(crate) fn course_of_stop(calls: u64, fate: Fate) -> Course
    ensures course { course_in result ≡ course_of_stop calls fate }
    ensures told { IsTold result }
{
    let by = ComingStop {
        calls,
        fate,
        asked: calls,
    };
    if calls == 0 {
        return Course::Stops {
            by,
            survives: false,
        };
    }
    Course::Goes(Some(by))
}

/// What becomes of any other line: one that changes nothing that lasts makes no call of the disk, any other makes four.
pub(crate) fn course_of_line(changes: bool, stop: Option<ComingStop>) -> Course
    ensures course { course_in result ≡ course_of_line changes (option_map stop_in stop) }
    ensures told { IsTold result }
{
    let Some(by) = stop else {
        return Course::Goes(None);
    };
    if !changes {
        return Course::Goes(stop);
    }
    if by.calls <= 4 {
        return Course::Stops {
            by,
            survives: by.calls >= 3 && is_kept(by.fate),
        };
    }
    Course::Goes(Some(ComingStop {
        calls: by.calls - 4,
        fate: by.fate,
        asked: by.asked,
    }))
}

fn is_kept(fate: Fate) -> bool
    ensures { result ≡ is_kept fate }
{
    fate == Fate::Kept
}
