//! Lines in which the disk stops, and the node that is reopened behind them.

ghost use Rattle.mt_runs.specs.Laws.{LinesThatChangeMakeCalls, LinesThatKeepMakeNone, NobodyIsBornInStops, ReopeningsAreRollbacks, StopsLeaveAll, TicksGiveBackOnce, WholeReopeningsSeeTheOwn, WholeReopeningsTakeTheAdded, WholeReopensValid};
ghost use Rattle.mt_runs.specs.Restarts.{ReopeningsAreExact};

use crate::lines::wholes_are_valid;
use mt_commission::steps_stand_first;
use mt_ledger::ledgers_stay_ledgers;
use mt_machine::{expiries_roll_back, ticks_let_the_failsafe_expire};
use mt_opcreds::steps_are_moves;
use mt_regained::{
    changes_lead_on, reopenings_roll_back, reopenings_see_the_own, rollbacks_are_the_last_word,
};
use mt_write::writes_touch_their_own;

/// A line that stops the disk sends nothing of itself and leaves the whole as it is; what becomes of the node the disk says.
pub fn stops_leave_all()
    ensures { StopsLeaveAll }
{}

/// The whole that is reopened is valid. In its table are the fabrics that were there, but for the one that was added under the
/// fail-safe, so that nobody joins by a line and stays through a reopening behind it. Of the own part of any other it sees that part
/// and the boot alone, and a time step before it changes nothing of that. What is kept behind it is the rollback of what was kept.
pub fn reopenings_see_the_own_part()
    ensures valid { WholeReopensValid }
    ensures taken { WholeReopeningsTakeTheAdded }
    ensures own { WholeReopeningsSeeTheOwn }
    ensures once { TicksGiveBackOnce }
    ensures born { NobodyIsBornInStops }
    ensures back { ReopeningsAreRollbacks }
{
    wholes_are_valid();
    reopenings_see_the_own();
    reopenings_roll_back();
    ledgers_stay_ledgers();
    ticks_let_the_failsafe_expire();
    steps_are_moves();
    steps_stand_first();
    writes_touch_their_own();
}

/// A line makes calls of the disk exactly where the durable map is another behind it. Where it is not, the line goes on and the stop
/// that is to come stays; any other line makes four calls, in one of which the stop may come.
pub fn lines_make_calls_where_what_lasts_changes()
    ensures none { LinesThatKeepMakeNone }
    ensures four { LinesThatChangeMakeCalls }
{
    changes_lead_on();
}

/// Whichever line the disk stops in, the node behind it is reopened: the next boot of what was kept before that line, or behind it where its
/// change survived, rolled back. Under each key that the rollback does not name it keeps what was there, so every change that was answered.
/// What a rollback leaves of each field is told too.
pub fn reopenings_are_exact()
    ensures { ReopeningsAreExact }
{
    wholes_are_valid();
    expiries_roll_back();
    reopenings_roll_back();
    rollbacks_are_the_last_word();
}
