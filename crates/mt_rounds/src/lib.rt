//! The lines of a session follow the answers of the intake. Nothing here runs; the functions do nothing, and their contracts are the laws.
#![tactic(auto)]

ghost use Rattle.mt_rounds.specs.Laws.{LinesAreFew, SessionsFollow, TicksAreWakes};

pub use mt_owners::{owners_are_exact, rows_have_begun};

/// Where a worker did what the jobs ask that the answers give it, the lines of each of its sessions follow the answers.
pub fn sessions_follow()
    ensures { SessionsFollow }
{}

/// The reporter's time steps are as many as the answers that bring a wake.
pub fn ticks_are_wakes()
    ensures { TicksAreWakes }
{}

/// At a wake a session has at most four lines, and at a datagram one.
pub fn lines_are_few()
    ensures { LinesAreFew }
{}
