//! What is sent again.

ghost use Rattle.std.specs.Prelude.{IfOk};
ghost use Rattle.mt_model.specs.declared.texts.recording.Event.TheVariants.{Resend};
ghost use Rattle.mt_interactions.specs.mt_runs.Whole.{SessionTalk as ToldTalk, Whole as Told};
ghost use Rattle.mt_whole.specs.Plan.{IsAgain, IsPlan, IsPlanned, IsQuiet, given_to};
ghost use Rattle.mt_whole.specs.Talks.{IsTalkAt, IsWholeOf};

use crate::outcome::WholeOutcome;
use crate::sending::all_sent;
use crate::talks::{SessionTalk, talk_of};
use crate::whole::Whole;
use mt_model::{ExactCopy, SentList, Verdicts};
use std::alloc::AllocError;

/// Plans a step in which a session sends again what was not acknowledged in time.
pub(crate) fn planned_resend<V: Verdicts>(
    whole: &Whole,
    ms: u64,
    session: u16,
    verdicts: &V,
) -> Result<WholeOutcome, AllocError>
    ensures planned { IfOk result (IsPlanned whole.now.interactions.state whole.now.interactions.ledger) }
    ensures plan { let given = given_to whole.now (V.roots verdicts.now) (V.csrs verdicts.now) (V.joins verdicts.now) in
        (w : Told) → IsWholeOf whole.now w → IfOk result (IsPlan given w (Resend ms session)) }
{
    match talk_of(&whole.talks, session) {
        Some(talk) => planned_again(whole, ms, talk, verdicts),
        None => quiet(whole, ms, verdicts),
    }
}

/// Time passes, and nothing else.
pub(crate) fn quiet<V: Verdicts>(
    whole: &Whole,
    ms: u64,
    verdicts: &V,
) -> Result<WholeOutcome, AllocError>
    ensures { let given = given_to whole.now (V.roots verdicts.now) (V.csrs verdicts.now) (V.joins verdicts.now) in
        IfOk result (IsQuiet given whole.now.interactions.state whole.now.interactions.ledger ms) }
{
    Ok(WholeOutcome {
        sent: SentList::new(whole.alloc),
        fresh: None,
        interactions: whole.interactions.pass(ms, verdicts)?,
        talk: None,
    })
}

// Plans it on a copy of the talk, where the session is live. Subscriptions end whose reports were sent again in vain.
fn planned_again<V: Verdicts>(
    whole: &Whole,
    ms: u64,
    talk: &SessionTalk,
    verdicts: &V,
) -> Result<WholeOutcome, AllocError>
    ensures planned { IfOk result (IsPlanned whole.now.interactions.state whole.now.interactions.ledger) }
    ensures again { let given = given_to whole.now (V.roots verdicts.now) (V.csrs verdicts.now) (V.joins verdicts.now) in
        (t : ToldTalk) → IsTalkAt talk.now t → IfOk result (IsAgain given whole.now.interactions.state whole.now.interactions.ledger ms t) }
{
    let id = talk.id;
    if whole.interactions.actor(id).is_none() {
        return quiet(whole, ms, verdicts);
    }
    let mut talk = talk.talk.copy()?;
    let (datagrams, ends) = talk.resend(ms)?;
    Ok(WholeOutcome {
        sent: all_sent(whole.alloc, ms, id, talk.latest(), datagrams.into_vec())?,
        fresh: None,
        interactions: whole
            .interactions
            .plan_ends(id, ends.into_vec(), ms, verdicts)?,
        talk: Some(SessionTalk { id, talk }),
    })
}
