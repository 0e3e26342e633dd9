//! Laws of the session layer. The functions here do nothing, and their contracts are the laws.

ghost use Rattle.mt_layer.specs.Laws.{AnswerAlike, BegunTalksServe, ClosedHaveEnded, DatagramsAreLines, DeedsAreWhatIsResent, DeedsAreWhatIsSaid, DropAlike, EndedStayEnded, HearAlike, RepliesAreAnswers, ReportAlike, ReportsAreLines, ResendAlike, ResendsAreLines, TicksAreLines};

use mt_shared::{ends_are_by_time, one_leaves, ticks_let_the_failsafe_expire};

/// What a talk hears, says and sends again depends on the run of its session and on where its peer is, and on nothing else that is
/// shown of it.
pub fn talks_are_told_by_their_run()
    ensures hears { HearAlike }
    ensures answers { AnswerAlike }
    ensures reports { ReportAlike }
    ensures resends { ResendAlike }
    ensures drops { DropAlike }
{}

/// A session that has ended is not live again in this boot, and one that was live and is not any more has ended.
pub fn sessions_end_for_good()
    ensures ended { EndedStayEnded }
    ensures closed { ClosedHaveEnded }
{}

/// A deed that is made of what is heard as if the session were live does what is said to the node, also where it is not live. So does
/// that of a resend step, at a time, in ms, before the last that can be told.
pub fn deeds_are_what_is_said()
    ensures said { DeedsAreWhatIsSaid }
    ensures resent { DeedsAreWhatIsResent }
{
    ends_are_by_time();
}

/// Over a session that is live, what is answered of the reply to the deed is what the node answers to what was said.
pub fn replies_are_answers()
    ensures { RepliesAreAnswers }
{}

/// A talk in which nothing has been said serves a session over which nothing has been.
pub fn begun_talks_serve()
    ensures { BegunTalksServe }
{}

/// A line of a datagram is what its session's worker sends and keeps by the answer of the shared node. Every other session's talk
/// serves on.
pub fn datagrams_are_lines()
    ensures { DatagramsAreLines }
{}

/// So is a line in which a session sends again, at a time, in ms, before the last that can be told.
pub fn resends_are_lines()
    ensures { ResendsAreLines }
{
    ends_are_by_time();
}

/// So is a report step to a subscription that is told over a session, or that is not there any more.
pub fn reports_are_lines()
    ensures { ReportsAreLines }
{}

/// So is a time step, which is no worker's: nothing is sent, and every talk serves on.
pub fn ticks_are_lines()
    ensures { TicksAreLines }
{
    ticks_let_the_failsafe_expire();
    one_leaves();
}
