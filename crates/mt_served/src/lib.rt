//! What a crew of threads did with a served node is a run of the written machine: its book is replayed to exactly what the outlets were
//! given, and it has few lines. Nothing here runs; the functions do nothing, and their contracts are the laws.
#![tactic(auto)]

ghost use Rattle.mt_served.specs.Laws.{CrewsAreFew, CrewsServe};

use mt_legal::{
    accounts_are_their_sessions, books_are_runs, merged_calls_are_made, shares_are_merged,
    workers_send_their_own,
};
use mt_outside::Outlet;
use mt_rounds::{owners_are_exact, rows_have_begun, sessions_follow, ticks_are_wakes};

/// Where the threads of a served node each did their work, and got each place of its book once, what they got is one run of the written
/// machine: each outlet was given what that sends over the sessions of its worker, and at status 0 its lines follow the answers of the intake.
pub fn crews_serve<O: Outlet>()
    ensures { CrewsServe O O.given O.faults }
{
    books_are_runs();
    shares_are_merged();
    accounts_are_their_sessions();
    merged_calls_are_made();
    workers_send_their_own();
    owners_are_exact();
    rows_have_begun();
    sessions_follow();
    ticks_are_wakes();
}

/// Where these threads took what the answers of the intake give them, the book has at most 258 lines for each answer, of which one at most is
/// of a datagram, whatever the statuses are.
pub fn crews_make_few_lines<O: Outlet>()
    ensures { CrewsAreFew O O.given O.faults }
{
    books_are_runs();
    shares_are_merged();
    accounts_are_their_sessions();
    merged_calls_are_made();
    workers_send_their_own();
    owners_are_exact();
    rows_have_begun();
    sessions_follow();
    ticks_are_wakes();
}
