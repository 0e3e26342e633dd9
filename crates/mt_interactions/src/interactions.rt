//! The node with its plain actors.

ghost use Rattle.std.specs.Prelude.{◌≡◌, IfOk, option_copied};
ghost use Rattle.mt_node.specs.mt_machine.Lines.{line_actor};
ghost use Rattle.mt_im.specs.Limits.{IsWithinLimits};
ghost use Rattle.mt_im.specs.Reading.{request_in};
ghost use Rattle.mt_runs.specs.Lines.{sent_asked};
ghost use Rattle.mt_node.specs.mt_regained.Begun.{MayStart};
ghost use Rattle.mt_interactions.specs.Configured.{IsFirst, IsStarted, behind, given_to};
ghost use Rattle.mt_interactions.specs.Plan.{IsLine, IsPlanned, IsTick, applied_ledger, applied_state, is_want_of_memory};

use crate::behind::make;
use crate::history::History;
use crate::lines::{line_actor, planned_line};
use crate::outcome::InteractionOutcome;
use crate::starting::first_change;
use crate::ticks::planned_tick;
use mt_durable::Durable;
use mt_im::{ImFault, decode};
use mt_model::{Armed, Config, PlainDeadlines, Request, SentList, Verdicts};
use mt_node::Node;
use mt_subs::Subs;
use mt_tlv::Bytes;
use std::alloc::{AllocError, Global};
use std::marker::Model;

/// The node, and around it what it remembers of events and subscriptions, and the deadlines of plain actors. Contracts see the
/// state of the node and the deadlines, the ledger of events and subscriptions, and the configuration and the durable map with
/// which it was started.
pub struct Interactions {
    pub(crate) alloc: Global,
    pub(crate) node: Node,
    pub(crate) history: History,
    pub(crate) subs: Subs,
    pub(crate) deadlines: PlainDeadlines,
}

impl Drop for Interactions {
    fn drop(self) {
        let Interactions {
            alloc: _,
            node: _,
            history: _,
            subs: _,
            deadlines: _,
        } = self;
    }
}

impl Model for Interactions {
    ghost use Rattle.mt_interactions.specs.Configured.{ConfiguredInteractions};
    ghost use Rattle.mt_tlv.specs.contracts.value.Value as values;
    ghost use Rattle.std.specs.Coded.{codes};

    ghost Value = { ConfiguredInteractions };

    ghost coded = { Prim.hlevel (codes, values.the_row.coded) };

    ghost view = { λ interactions. record { state = record { node = interactions.node.state; deadlines = interactions.deadlines }; ledger = record { history = interactions.history; subs = interactions.subs }; config = interactions.node.config; durable = interactions.node.durable } };
}

impl Interactions {
    /// A node with this configuration, in the boot behind the map with which it goes on, and the bytes of the change that has to be
    /// committed first: the number of the boot, and the ceiling of the event numbers that are set aside for it. Its start is
    /// told; nobody has a deadline or has subscribed.
    pub fn start(
        alloc: Global,
        map: Durable,
        config: &Config,
    ) -> Result<(Interactions, Bytes), AllocError>
        requires { MayStart map }
        ensures started { IfOk result (λ both. IsStarted map config.now both.0) }
        ensures first { IfOk result (λ both. IsFirst map both.0 both.1) }
    {
        let (node, ceiling) = Node::start(alloc, map, config)?;
        let history = History::begun(alloc, ceiling)?;
        let first = first_change(alloc, node.state().boot, history.numbers().ceiling)?;
        let interactions = Interactions {
            alloc,
            node,
            history,
            subs: Subs::new(alloc),
            deadlines: PlainDeadlines::new(alloc),
        };
        Ok((interactions, first))
    }

    /// Plans a line of a plain actor of a fabric, with the payload of its message, by the verdicts on certificates that are
    /// handed in: the messages of its answer, in the order of sending, and what comes of it. It changes nothing, and takes all
    /// the memory.
    pub fn plan_line<V: Verdicts>(
        &self,
        ms: u64,
        fabric: u8,
        node: u64,
        cats: [u32; 3],
        opcode: u8,
        payload: &Bytes,
        verdicts: &V,
    ) -> Result<(SentList, InteractionOutcome), AllocError>
        ensures sent { let given = given_to self.now (V.roots verdicts.now) (V.csrs verdicts.now) (V.joins verdicts.now) in
            IfOk result (λ both. both.0 ≡ sent_asked given self.now.state self.now.ledger (line_actor fabric node cats) ms (request_in opcode payload.now)) }
        ensures outcome { let given = given_to self.now (V.roots verdicts.now) (V.csrs verdicts.now) (V.joins verdicts.now) in
            IfOk result (λ both. IsLine given self.now.state self.now.ledger ms (line_actor fabric node cats) (request_in opcode payload.now) both.1) }
    {
        let asked = asked(self.alloc, opcode, payload.as_slice())?;
        planned_line(self, ms, &line_actor(fabric, node, cats), &asked, verdicts)
    }

    /// Plans a time step, which lets the fail-safe expire where it is time, and sends nothing.
    pub fn plan_tick<V: Verdicts>(
        &self,
        ms: u64,
        verdicts: &V,
    ) -> Result<InteractionOutcome, AllocError>
        ensures { let given = given_to self.now (V.roots verdicts.now) (V.csrs verdicts.now) (V.joins verdicts.now) in
            IfOk result (IsTick given self.now.state self.now.ledger ms) }
    {
        planned_tick(self, ms, verdicts)
    }

    /// The fail-safe, None exactly where nobody has armed it.
    pub fn armed(&self) -> Option<&Armed>
        ensures { option_copied result ≡ self.now.state.node.armed }
    {
        self.node.armed()
    }

    /// Makes of it what a planned event makes of it. Subscriptions whose subscriber is not there any more end. It takes no
    /// memory, and cannot fail.
    pub fn apply(&mut self, outcome: InteractionOutcome)
        requires { IsPlanned self.old.state self.old.ledger outcome }
        ensures { self.new ≡ behind (applied_state outcome self.old.state) (applied_ledger outcome self.old.state self.old.ledger) self.old }
    {
        let (ms, node, deadlines, subs) = outcome.into_parts();
        let gone = node.gone;
        let told = self.node.apply(node);
        self.history.pass_on(gone, ms, told);
        make(subs, ms, &mut self.subs);
        self.subs.end_left(self.node.state());
        if let Some(deadlines) = deadlines {
            self.deadlines = deadlines;
        }
    }
}

/// What a payload asks. What is asked is within the limits of a request.
pub fn asked(
    alloc: Global,
    opcode: u8,
    payload: &[u8],
) -> Result<Result<Request, ImFault>, AllocError>
    ensures asks { IfOk result (λ asked. asked ≡ request_in opcode payload.now) }
    ensures within { IfOk result (λ asked. IfOk asked IsWithinLimits) }
{
    let asked = decode(alloc, opcode, payload);
    if is_want_of_memory(&asked) {
        return Err(AllocError);
    }
    Ok(asked)
}

// Whether a payload was not decoded for want of memory.
fn is_want_of_memory(asked: &Result<Request, ImFault>) -> bool
    ensures { result ≡ is_want_of_memory asked.now }
{
    matches!(asked, Err(ImFault::Memory))
}
