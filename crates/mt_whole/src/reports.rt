//! A report step to a subscription.

ghost use Rattle.std.specs.Prelude.{◌≡◌, IfOk};
ghost use Rattle.mt_model.specs.declared.texts.recording.Event.TheVariants.{Report};
ghost use Rattle.mt_interactions.specs.mt_runs.Whole.{SessionTalk as ToldTalk, Whole as Told};
ghost use Rattle.mt_whole.specs.Plan.{IsPlan, IsPlanned, IsToldOver, given_to};
ghost use Rattle.mt_whole.specs.Talks.{IsTalkAt, IsWholeOf};

use crate::outcome::WholeOutcome;
use crate::sending::one_sent;
use crate::talks::{SessionTalk, talk_of};
use crate::whole::{Whole, plainly};
use mt_interactions::InteractionOutcome;
use mt_model::{ExactCopy, Payloads, Verdicts};
use std::alloc::AllocError;

/// Plans a step in which a subscription is reported to, where that is due: a plain actor at once, and others over their
/// session.
pub(crate) fn planned_report<V: Verdicts>(
    whole: &Whole,
    ms: u64,
    fabric: u8,
    subscription: u32,
    verdicts: &V,
) -> Result<WholeOutcome, AllocError>
    ensures planned { IfOk result (IsPlanned whole.now.interactions.state whole.now.interactions.ledger) }
    ensures plan { let given = given_to whole.now (V.roots verdicts.now) (V.csrs verdicts.now) (V.joins verdicts.now) in
        (w : Told) → IsWholeOf whole.now w → IfOk result (IsPlan given w (Report ms fabric subscription)) }
{
    let (over, sent, interactions) = whole
        .interactions
        .plan_report(fabric, subscription, ms, verdicts)?;
    let Some((session, payloads)) = over else {
        return Ok(plainly(sent, interactions));
    };
    match talk_of(&whole.talks, session) {
        Some(talk) => told_over(whole, ms, subscription, talk, payloads, interactions),
        None => Ok(plainly(sent, interactions)),
    }
}

// A report over a session, on a copy of its talk.
fn told_over(
    whole: &Whole,
    ms: u64,
    subscription: u32,
    talk: &SessionTalk,
    payloads: Payloads,
    interactions: InteractionOutcome,
) -> Result<WholeOutcome, AllocError>
    ensures interactions { IfOk result (λ outcome. outcome.interactions ≡ interactions) }
    ensures over { (t : ToldTalk) → IsTalkAt talk.now t → IfOk result (IsToldOver ms subscription payloads t) }
{
    let id = talk.id;
    let mut talk = talk.talk.copy()?;
    let datagram = talk.report(subscription, payloads, ms)?;
    let sent = one_sent(whole.alloc, ms, id, talk.latest(), datagram)?;
    Ok(WholeOutcome {
        sent,
        fresh: None,
        interactions,
        talk: Some(SessionTalk { id, talk }),
    })
}
