//! What is shown of sessions tells the rest.

ghost use Rattle.mt_runs.specs.Retold.{ConfirmationsAwait, LinesKeepRetold, RepliesOverSessionsAwait, RunsKeepRetold, SessionsBeginRetold};

use mt_talk::{replies_await_their_confirmations, talks_are_retold};

/// What is shown of each session tells what is open, owed and awaited over it, but for the payloads that are kept to be sent later: it does so
/// where a boot begins, and behind each line and run, unless an answer is too long to be sent, or of some payloads one before the last awaits no
/// confirmation.
pub fn sessions_are_retold()
    ensures begins { SessionsBeginRetold }
    ensures lines { LinesKeepRetold }
    ensures runs { RunsKeepRetold }
{
    talks_are_retold();
}

/// Of the payloads with which a datagram is answered each but the last awaits its confirmation, where each payload of a report says what is
/// allowed and has 65,535 bytes at most.
pub fn answers_await_their_confirmations()
    ensures replies { RepliesOverSessionsAwait }
    ensures confirmations { ConfirmationsAwait }
{
    replies_await_their_confirmations();
}
