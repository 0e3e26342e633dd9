//! What the node remembers of events, over the written machine: which events there are behind an action, what is answered
//! of them, and whose they are. The rings and the numbers are those of mt_events. The definitions stand in `specs/`, a
//! chapter a file; the functions here do nothing, and their contracts are the laws.
//!
//! - `History`: the rings of the latest events, and the numbers;
//! - `Behind`: the history behind an action;
//! - `Asking`: what is replied, the events among it;
//! - `Isolation`: what is a fabric's own, what is public, and the history that is built of both;
//! - `Laws`: the laws.

ghost use Rattle.mt_ledger.specs.history.Laws.{ForgetsLeft, KeepsItsEvents, KeepsOthersEvents, KeepsRecentEvents, LeavesItsEventsOnTheVeil, LineRepliesWithEventsOnTheVeil, NobodyTells, OpensHistory, RecordsOne, RepliesWithEventsOnTheVeil, StaysHistory, TicksLeaveEventsOnTheVeil, TicksSpareEvents, TimeTellsNothing};

use mt_events::rings_stay_rings;
use mt_machine::{
    actions_tell_their_own, leaves_the_own_on_the_veil, one_leaves, sees_the_veil,
    states_are_valid, ticks_let_the_failsafe_expire, veil_keeps_both_parts,
    what_is_asked_is_the_same_on_the_veil,
};

/// The history of a boot is one, whatever ceiling was stored before it, and an action leaves it so.
pub fn histories_stay_histories()
    ensures opens { OpensHistory }
    ensures stays { StaysHistory }
{
    rings_stay_rings();
    actions_tell_their_own();
    states_are_valid();
    what_is_asked_is_the_same_on_the_veil();
}

/// One more event leaves a history one, and so does a fabric that leaves.
pub fn histories_grow_by_events()
    ensures one { RecordsOne }
    ensures left { ForgetsLeft }
{
    rings_stay_rings();
}

/// The veil has the events that are a fabric's own, and those that are public with the next number, as the history has them.
pub fn veils_keep_events()
    ensures own { KeepsItsEvents }
    ensures recent { KeepsRecentEvents }
{}

/// What an actor is replied on the veils of its fabric is what it is replied, the events among it.
pub fn replies_are_the_same_on_the_veil()
    ensures action { RepliesWithEventsOnTheVeil }
    ensures line { LineRepliesWithEventsOnTheVeil }
{
    sees_the_veil();
    veil_keeps_both_parts();
    what_is_asked_is_the_same_on_the_veil();
}

/// What an actor asks leaves on the veils of its fabric the same events of its own, and a time step leaves every fabric the
/// same.
pub fn events_are_left_on_the_veil()
    ensures action { LeavesItsEventsOnTheVeil }
    ensures tick { TicksLeaveEventsOnTheVeil }
{
    veil_keeps_both_parts();
    leaves_the_own_on_the_veil();
    ticks_let_the_failsafe_expire();
    one_leaves();
    what_is_asked_is_the_same_on_the_veil();
}

/// An action changes none of another fabric's events, unless that enters the table or leaves it; a time step leaves a fabric
/// that was not added under the fail-safe its events. Where nobody asks, and where time passes, nothing happens.
pub fn others_events_are_kept()
    ensures action { KeepsOthersEvents }
    ensures tick { TicksSpareEvents }
    ensures nobody { NobodyTells }
    ensures time { TimeTellsNothing }
{
    actions_tell_their_own();
    ticks_let_the_failsafe_expire();
}
