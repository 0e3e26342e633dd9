//! The written machine's lines, those of datagrams among them: what each line of a recording sends, and the whole behind
//! it. What a node makes of an action stands in mt_machine, what it remembers of events and subscriptions in mt_ledger, what
//! is said over a session in mt_talk; here these are joined.
//! The definitions stand in `specs/`, a chapter a file; the functions here do nothing, and their contracts are the laws.
//!
//! - `Whole`: the node, the deadlines of plain actors, the events and subscriptions, and what is said over each session;
//! - `Datagrams`: what a datagram comes to, what is sent again, and what ends where that was in vain;
//! - `Lines`: every line of a recording;
//! - `Isolation`: what is a fabric's own of the whole, and the veil that is built of that and of what is public to it;
//! - `Laws`: the laws.

ghost use Rattle.mt_runs.specs.Expiries.{ExpiriesAreRollbacks};
ghost use Rattle.mt_runs.specs.LineLaws.{WholeKeepsItsOwnPart, WholeKeepsItsPublicPart, WholeKeepsTheOwn, WholeLeavesItsOwnByItsView, WholeLeavesTheOwnOnTheVeil, WholeOpensValid, WholeSeesItsViewAlone, WholeSendsOnTheVeil, WholeStaysValid, WholeTicksOnTheVeil, WholeTicksSeeTheMarkAlone, WholeTicksSpareOthers};
ghost use Rattle.mt_runs.specs.Replies.{RepliesAreExact};

use mt_ledger::{
    ledgers_are_left_on_the_veil, ledgers_stay_ledgers, others_ledgers_are_kept,
    reports_are_the_same_on_the_veil, subscribers_are_replied_the_same_on_the_veil,
    veils_keep_ledgers,
};
use mt_machine::{
    deadlines_stand, expiries_roll_back, keeps_the_own, leaves_the_own_on_the_veil,
    sessions_keep_their_ids, states_are_valid, ticks_let_the_failsafe_expire,
    veil_keeps_both_parts, what_is_asked_is_the_same_on_the_veil,
};

/// The whole that a configuration begins is valid, and a line leaves it so: its node is valid, deadlines and its ledger are
/// such as stand beside that, the ids of sessions differ, each session has its talk, and over one that is not live nothing is
/// open.
pub fn wholes_are_valid()
    ensures opens { WholeOpensValid }
    ensures stays { WholeStaysValid }
{
    states_are_valid();
    deadlines_stand();
    ledgers_stay_ledgers();
    sessions_keep_their_ids();
}

/// The veil has the own part of its fabric, its subscriptions and what is said over its live sessions among it, and what is
/// public to it.
pub fn veil_keeps_the_own()
    ensures own { WholeKeepsItsOwnPart }
    ensures public { WholeKeepsItsPublicPart }
{
    veil_keeps_both_parts();
    veils_keep_ledgers();
}

/// What an event sends on the veil of its fabric is what it sends on the whole. So it is determined by the own part of
/// its fabric and by what is public to it.
pub fn whole_sends_on_the_veil()
    ensures veil { WholeSendsOnTheVeil }
    ensures view { WholeSeesItsViewAlone }
{
    subscribers_are_replied_the_same_on_the_veil();
    reports_are_the_same_on_the_veil();
    veils_keep_ledgers();
    what_is_asked_is_the_same_on_the_veil();
}

/// On the veil of its fabric an event leaves the same own part as on the whole. So that is determined by the own part of
/// its fabric and by what is public to it, as both were before.
pub fn whole_leaves_the_own_on_the_veil()
    ensures veil { WholeLeavesTheOwnOnTheVeil }
    ensures view { WholeLeavesItsOwnByItsView }
{
    leaves_the_own_on_the_veil();
    keeps_the_own();
    veil_keeps_both_parts();
    veils_keep_ledgers();
    subscribers_are_replied_the_same_on_the_veil();
    reports_are_the_same_on_the_veil();
    ledgers_are_left_on_the_veil();
    what_is_asked_is_the_same_on_the_veil();
    sessions_keep_their_ids();
}

/// An event that is no time step changes nothing that is the own of another fabric, unless that enters the table or
/// leaves it: another's datagrams, its reports, what is sent again and sessions that end leave its subscriptions and
/// exchanges as they are.
pub fn whole_keeps_the_own()
    ensures { WholeKeepsTheOwn }
{
    keeps_the_own();
    others_ledgers_are_kept();
    what_is_asked_is_the_same_on_the_veil();
    sessions_keep_their_ids();
}

/// A time step leaves a fabric that was neither added nor updated under the fail-safe its own part, and what it leaves
/// to any fabric is determined by that part and by what is public to it.
pub fn ticks_see_the_mark_alone()
    ensures others { WholeTicksSpareOthers }
    ensures veil { WholeTicksOnTheVeil }
    ensures mark { WholeTicksSeeTheMarkAlone }
{
    ticks_let_the_failsafe_expire();
    ledgers_are_left_on_the_veil();
    others_ledgers_are_kept();
    sessions_keep_their_ids();
}

/// A read is answered by exactly the items of its paths over what the asker's fabric sees, and then the events that it asks
/// for; a write by a status of each of its items; a command by what its check comes to. So it is on a line of a plain actor,
/// which sends that and nothing besides unless it subscribes, and over a session.
pub fn replies_are_exact()
    ensures { RepliesAreExact }
{}

/// Whichever line lets the fail-safe expire (a time step, ArmFailSafe with 0 seconds, or the removal of the fabric for which
/// commissioning goes on), that comes first in it, and the node behind the line is the rollback of the node before, with what
/// is done behind the expiry. What a rollback leaves of each field is told too.
pub fn expiries_are_rollbacks()
    ensures { ExpiriesAreRollbacks }
{
    expiries_roll_back();
}
