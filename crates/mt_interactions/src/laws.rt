//! Laws of what is committed, of which subscriptions end, and of what is replied. Each is the contract of a function that does nothing.

ghost use Rattle.mt_interactions.specs.Committing.{CommitsLeadOn};
ghost use Rattle.mt_interactions.specs.Deeds.{EndsAreByTime, NobodyIsReplied};

use mt_node::{changes_lead_on, committed_bytes_say_the_change};

/// What is committed for a planned event leads from the durable map before it to that behind it, and nothing is committed
/// exactly where both are equal. The ceiling of event numbers behind it is one that there may be.
pub fn commits_lead_on()
    ensures { CommitsLeadOn }
{
    changes_lead_on();
    committed_bytes_say_the_change();
}

/// The subscriptions whose time has come are those that a resend step ends at that time, as long as it is not the last that can
/// be told.
pub fn ends_are_by_time()
    ensures { EndsAreByTime }
{}

/// Nothing is replied to a deed over a session that is not live, nor to one of no session and no subscription.
pub fn nobody_is_replied()
    ensures { NobodyIsReplied }
{}
