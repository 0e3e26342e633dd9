//! What the node remembers beside its state, over the written machine: the events that happened, and who has subscribed to
//! what. Here stands what a subscription is answered, what a report step tells, what confirms and ends a subscription, and
//! whose all of it is. The rings of events are those of mt_events, the subscriptions those of mt_subs. The definitions
//! stand in `specs/`, a chapter a file; the functions here do nothing, and their contracts are the laws.
//!
//! - `history`: the events by themselves: which there are behind an action, what is answered of them, whose they are;
//!
//! - `Ledger`: the events and the subscriptions;
//! - `Subscribing`: what a SubscribeRequest is answered, and the subscriptions behind it;
//! - `Reporting`: what a report step tells, where it is due;
//! - `Asking`: what is replied, to a subscription too;
//! - `Behind`: the ledger behind whatever is done;
//! - `Isolation`: what of a ledger is a fabric's own, and the veil;
//! - `Laws`: the laws.
#![tactic(auto)]

mod history;

ghost use Rattle.mt_ledger.specs.Laws.{ConfirmsAside, ConfirmsOnTheVeil, DueOnTheVeil, EndsAside, EndsOnTheVeil, FindsItsOwn, KeepsItsLedger, KeepsOthersLedgers, KeepsTheRecent, LeavesItsLedgerOnTheVeil, LineRepliesOnTheVeil, NobodyChangesIt, OpensLedger, RepliesOnTheVeil, ReportedOnTheVeil, ReportsAside, ReportsOnTheVeil, RespondsOnTheVeil, StaysLedger, TicksLeaveLedgersOnTheVeil, TicksSpareLedgers, TimeChangesNothing};

pub use history::{
    events_are_left_on_the_veil, histories_grow_by_events, histories_stay_histories,
    others_events_are_kept, replies_are_the_same_on_the_veil, veils_keep_events,
};
use mt_machine::{
    actions_set_values, keeps_the_own, leaves_the_own_on_the_veil, sees_the_veil,
    ticks_let_the_failsafe_expire, veil_keeps_both_parts, what_is_asked_is_the_same_on_the_veil,
};
use mt_subs::valid_subscriptions_stay_valid;

/// The ledger of a boot is one, and whatever is done leaves it so: subscriptions keep their rules, and whoever has
/// subscribed is there, and each stands under its actor's fabric.
pub fn ledgers_stay_ledgers()
    ensures opens { OpensLedger }
    ensures stays { StaysLedger }
{
    histories_stay_histories();
    valid_subscriptions_stay_valid();
    what_is_asked_is_the_same_on_the_veil();
}

/// The veil has a fabric's own events and subscriptions, the id of its next one, and what is public, as the ledger has them.
pub fn veils_keep_ledgers()
    ensures own { KeepsItsLedger }
    ensures recent { KeepsTheRecent }
    ensures found { FindsItsOwn }
{
    veils_keep_events();
    valid_subscriptions_stay_valid();
}

/// What an actor is replied on the veils of its fabric is what it is replied, to a subscription too.
pub fn subscribers_are_replied_the_same_on_the_veil()
    ensures action { RepliesOnTheVeil }
    ensures line { LineRepliesOnTheVeil }
    ensures response { RespondsOnTheVeil }
{
    replies_are_the_same_on_the_veil();
    veils_keep_events();
    valid_subscriptions_stay_valid();
    sees_the_veil();
    veil_keeps_both_parts();
    what_is_asked_is_the_same_on_the_veil();
}

/// On the veils of its fabric a subscription is due where it is, and is told the same.
pub fn reports_are_the_same_on_the_veil()
    ensures due { DueOnTheVeil }
    ensures told { ReportsOnTheVeil }
{
    veils_keep_events();
    sees_the_veil();
    veil_keeps_both_parts();
}

/// Whatever a fabric does leaves on its veils the same own part of the ledger: what its actors ask, confirmations, ends and
/// reports of its subscriptions. So does a time step, for every fabric.
pub fn ledgers_are_left_on_the_veil()
    ensures action { LeavesItsLedgerOnTheVeil }
    ensures confirm { ConfirmsOnTheVeil }
    ensures end { EndsOnTheVeil }
    ensures report { ReportedOnTheVeil }
    ensures tick { TicksLeaveLedgersOnTheVeil }
{
    events_are_left_on_the_veil();
    others_events_are_kept();
    leaves_the_own_on_the_veil();
    keeps_the_own();
    ticks_let_the_failsafe_expire();
    sees_the_veil();
    veil_keeps_both_parts();
    veils_keep_events();
    valid_subscriptions_stay_valid();
}

/// What one fabric does changes none of another's own part of the ledger, unless that enters the table or leaves it. A time
/// step leaves a fabric that was neither added nor updated under the fail-safe its own part. Where nobody is taken as asking,
/// and where time alone passes, the ledger stays as it is.
pub fn others_ledgers_are_kept()
    ensures action { KeepsOthersLedgers }
    ensures confirm { ConfirmsAside }
    ensures end { EndsAside }
    ensures report { ReportsAside }
    ensures tick { TicksSpareLedgers }
    ensures nobody { NobodyChangesIt }
    ensures time { TimeChangesNothing }
{
    others_events_are_kept();
    keeps_the_own();
    ticks_let_the_failsafe_expire();
    actions_set_values();
}
