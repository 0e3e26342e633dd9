//! Laws of commissioning windows.

ghost use Rattle.mt_windows.specs.Laws.{BasicOpensAreExact, OpensAreExact, RevokesAreExact, RunsShowTheirWindows, WindowsAreOpenSinceOpened};

use mt_machine::{states_are_valid, steps_leave_states_valid};
use mt_model::{set_rows_stand_in_order, what_stays_stands_in_order};
use mt_opcreds::steps_are_moves;
use mt_runs::runs_are_replayed;

/// At each moment of a run the attributes WindowStatus and WindowEnd are what its lines so far have made of them. So a window is open from a
/// command that opens it and gets the status 0, until RevokeCommissioning that gets the status 0, a reopening, or the first time step at its end
/// or behind it, and at no other time.
pub fn windows_are_as_commands_leave_them()
    ensures rows { RunsShowTheirWindows }
    ensures opened { WindowsAreOpenSinceOpened }
{
    states_are_valid();
    steps_leave_states_valid();
    set_rows_stand_in_order();
    what_stays_stands_in_order();
    steps_are_moves();
    runs_are_replayed();
}

/// A command of Administrator Commissioning that nothing else stands in the way of is refused exactly where one of its causes stands, and with
/// the first of them.
pub fn refusals_of_windows_are_exact()
    ensures opens { OpensAreExact }
    ensures basic { BasicOpensAreExact }
    ensures revokes { RevokesAreExact }
{}
