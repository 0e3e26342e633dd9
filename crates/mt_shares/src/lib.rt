//! What several threads got of one book, put together again: the calls of all workers and of the reporter in one list, in the order of the
//! book, and what that says of each of them. Nothing here runs; the functions do nothing, and their contracts are the laws.
#![tactic(auto)]

ghost use Rattle.mt_shares.specs.Laws.{AccountsAreTheirSessions, AccountsAreTheirs, MergedCallsAreMade, SharesAreMerged, WorkersSendTheirOwn};

pub use mt_worker::{
    begun_talks_serve, datagrams_are_lines, reports_are_lines, resends_are_lines, ticks_are_lines,
    wholes_are_valid,
};

/// Where each place of a book was got once, by one thread, and each thread's places rise, what all of them got is one list in the order
/// of the book, and what each of them got is what there is of it in that list.
pub fn shares_are_merged()
    ensures { SharesAreMerged }
{}

/// What is said over a session, and which of its subscriptions stand, depends on the calls over that session alone; and so on those over
/// any sessions of which it is one, as on those of its worker.
pub fn accounts_are_their_sessions()
    ensures one { AccountsAreTheirSessions }
    ensures such { AccountsAreTheirs }
{}

/// Calls that were made as those of one worker alone give them were made so among those of all.
pub fn merged_calls_are_made()
    ensures { MergedCallsAreMade }
{}

/// What the calls of all send over the sessions of one worker is what that worker's own calls send.
pub fn workers_send_their_own()
    ensures { WorkersSendTheirOwn }
{}
