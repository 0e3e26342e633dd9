//! Laws of subscriptions: each is told over the session that asked for it, for as long as it stands. Nothing here runs; the functions do
//! nothing, and their contracts are the laws.
#![tactic(auto)]

ghost use Rattle.mt_subscribers.specs.Laws.{SubscriptionsAreGained, SubscriptionsStay};

use mt_subs::{ids_are_never_used_again, valid_subscriptions_stay_valid};

/// A subscription is told over the same session as long as it stands, whatever is done; and its id is never another's.
pub fn subscriptions_stay()
    ensures { SubscriptionsStay }
{
    valid_subscriptions_stay_valid();
    ids_are_never_used_again();
}

/// A subscription that is told in an answer is told over the session of the request from then on.
pub fn subscriptions_are_gained()
    ensures { SubscriptionsAreGained }
{
    valid_subscriptions_stay_valid();
    ids_are_never_used_again();
}
