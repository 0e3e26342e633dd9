//! The book of a served node is a run: a recording of its lines is replayed to exactly what the workers send. Nothing here runs; the
//! functions do nothing, and their contracts are the laws.
#![tactic(auto)]

ghost use Rattle.mt_legal.specs.Laws.{BooksAreRuns, BooksEndAsRuns, LedgersEndAsRuns};

pub use mt_shares::{
    accounts_are_their_sessions, merged_calls_are_made, shares_are_merged, workers_send_their_own,
};
use mt_shares::{
    begun_talks_serve, datagrams_are_lines, reports_are_lines, resends_are_lines, ticks_are_lines,
    wholes_are_valid,
};
use mt_subscribers::{subscriptions_are_gained, subscriptions_stay};

/// The written run sends over the lines of a book what the workers of its sessions send by the answers that the book tells, in its order;
/// and it ends with the state and the ledger to which the book replays.
pub fn books_are_runs()
    ensures sent { BooksAreRuns }
    ensures state { BooksEndAsRuns }
    ensures ledger { LedgersEndAsRuns }
{
    wholes_are_valid();
    begun_talks_serve();
    datagrams_are_lines();
    resends_are_lines();
    reports_are_lines();
    ticks_are_lines();
    subscriptions_stay();
    subscriptions_are_gained();
}
