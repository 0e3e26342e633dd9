//! The whole.

ghost use Rattle.std.specs.Prelude.{◌≡◌, IfOk, IfSome, is_some, not, option_copied};
ghost use Rattle.mt_interactions.specs.mt_machine.Environment.{Environment};
ghost use Rattle.mt_model.specs.declared.texts.recording.Event.{Event as Line};
ghost use Rattle.mt_interactions.specs.mt_runs.Lines.{is_stop, next};
ghost use Rattle.mt_interactions.specs.mt_runs.Whole.{Whole as Told, fabric_live};
ghost use Rattle.mt_interactions.specs.mt_regained.Begun.{MayStart};
ghost use Rattle.mt_interactions.specs.Configured.{IsFirst, behind};
ghost use Rattle.mt_interactions.specs.Plan.{applied_ledger, applied_state};
ghost use Rattle.mt_whole.specs.Plan.{Brings, IsPlainly, IsPlan, IsPlanned, IsStarted, given_to};
ghost use Rattle.mt_whole.specs.Talks.{IsWholeOf};

use crate::datagrams::planned_datagram;
use crate::outcome::WholeOutcome;
use crate::reports::planned_report;
use crate::resends::planned_resend;
use crate::talks::{SessionTalk, begun, let_go, put_if_any};
use mt_durable::Durable;
use mt_interactions::{InteractionOutcome, Interactions};
use mt_model::{Armed, Config, Event, SentList, Verdicts};
use mt_tlv::Bytes;
use std::alloc::{AllocError, Global};

/// The node, the deadlines of plain actors, its events and subscriptions, and what is said over each session. Contracts
/// speak of all that was said, which nothing stores: a whole stands for lists of it.
pub struct Whole {
    pub(crate) alloc: Global,
    pub(crate) interactions: Interactions,
    pub(crate) talks: Vec<SessionTalk>,
}

impl Drop for Whole {
    fn drop(self) {
        let Whole {
            alloc: _,
            interactions: _,
            talks: _,
        } = self;
    }
}

impl Whole {
    /// A node with this configuration, in the boot behind the map with which it goes on, and the bytes of the change that has to be
    /// committed first. Nobody has a deadline or has subscribed, and nothing has been said.
    pub fn start(alloc: Global, map: Durable, config: &Config) -> Result<(Whole, Bytes), AllocError>
        requires { MayStart map }
        ensures started { IfOk result (λ both. IsStarted map config.now both.0) }
        ensures first { IfOk result (λ both. IsFirst map both.0.interactions both.1) }
    {
        let (interactions, first) = Interactions::start(alloc, map, config)?;
        let talks = begun(alloc, interactions.state().boot, config.sessions.as_slice())?;
        let whole = Whole {
            alloc,
            interactions,
            talks,
        };
        Ok((whole, first))
    }

    /// Plans an event of a recording, by the verdicts on certificates that are handed in. None exactly where it stops the disk,
    /// which a whole does not have: what becomes of the node then its owner sees to. It changes nothing, and takes all the
    /// memory.
    pub fn plan<V: Verdicts>(
        &self,
        event: &Event,
        verdicts: &V,
    ) -> Result<Option<WholeOutcome>, AllocError>
        ensures goes { IfOk result (λ outcome. is_some outcome ≡ not (is_stop event.now)) }
        ensures planned { IfOk result (λ outcome. IfSome outcome (IsPlanned self.now.interactions.state self.now.interactions.ledger)) }
        ensures plan { let given = given_to self.now (V.roots verdicts.now) (V.csrs verdicts.now) (V.joins verdicts.now) in
            (w : Told) → IsWholeOf self.now w → IfOk result (λ outcome. IfSome outcome (IsPlan given w event.now)) }
    {
        match event {
            Event::Ask {
                ms,
                fabric,
                node,
                cats,
                opcode,
                payload,
            } => {
                let (sent, interactions) = self
                    .interactions
                    .plan_line(*ms, *fabric, *node, *cats, *opcode, payload, verdicts)?;
                Ok(Some(plainly(sent, interactions)))
            },
            Event::Datagram { ms, peer, bytes } => Ok(Some(planned_datagram(
                self, *ms, *peer, bytes, verdicts,
            )?)),
            Event::Tick { ms } => {
                let interactions = self.interactions.plan_tick(*ms, verdicts)?;
                let none = SentList::new(self.alloc);
                Ok(Some(plainly(none, interactions)))
            },
            Event::Report {
                ms,
                fabric,
                subscription,
            } => Ok(Some(planned_report(self, *ms, *fabric, *subscription, verdicts)?)),
            Event::Resend { ms, session } => Ok(Some(planned_resend(
                self, *ms, *session, verdicts,
            )?)),
            Event::Stop { .. } => Ok(None),
        }
    }

    /// The fail-safe, None exactly where nobody has armed it.
    pub fn armed(&self) -> Option<&Armed>
        ensures { option_copied result ≡ self.now.interactions.state.node.armed }
    {
        self.interactions.armed()
    }

    /// The fabric for which the session is live, 0 on PASE without one; None exactly where it is not live.
    pub fn live(&self, session: u16) -> Option<u8>
        ensures { result ≡ fabric_live self.now.interactions.state.node session }
    {
        let actor = self.interactions.actor(session)?;
        Some(actor.fabric)
    }

    /// Makes of the whole what a planned event makes of it. Sessions that end let go of their exchanges. It takes no
    /// memory, and cannot fail.
    pub fn apply(&mut self, outcome: WholeOutcome)
        requires { IsPlanned self.old.interactions.state self.old.interactions.ledger outcome }
        ensures config { self.new.interactions.config ≡ self.old.interactions.config }
        ensures interactions { self.new.interactions ≡ behind (applied_state outcome.interactions self.old.interactions.state) (applied_ledger outcome.interactions self.old.interactions.state self.old.interactions.ledger) self.old.interactions }
        ensures stands { (given : Environment) (w : Told) (event : Line) → IsWholeOf self.old w → Brings given w event outcome → IsWholeOf self.new (next given w event) }
    {
        let WholeOutcome {
            sent: _,
            fresh: _,
            interactions,
            talk,
        } = outcome;
        put_if_any(&mut self.talks, talk);
        let_go(&mut self.talks, interactions.closed());
        self.interactions.apply(interactions);
    }
}

/// The outcome of what is of no session: these messages are sent.
pub(crate) fn plainly(sent: SentList, interactions: InteractionOutcome) -> WholeOutcome
    ensures { IsPlainly sent interactions result }
{
    WholeOutcome {
        sent,
        fresh: None,
        interactions,
        talk: None,
    }
}
