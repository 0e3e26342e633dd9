//! The node.

ghost use Rattle.std.specs.Prelude.{◌≡◌, ◌↔◌, ◌∷◌, ℕ, [], None, Some, true, false, IfOk, if◌then◌else◌, option_copied};
ghost use Rattle.mt_durable.specs.Setting.{with_all};
ghost use Rattle.mt_model.specs.declared.node.action.NodeStep.TheVariants.{Expire};
ghost use Rattle.mt_machine.specs.Environment.{Environment};
ghost use Rattle.mt_machine.specs.Rollback.{is_due};
ghost use Rattle.mt_machine.specs.State.{IsValid};
ghost use Rattle.mt_machine.specs.Step.{asker, is_late, session_actor, tick_steps};
ghost use Rattle.mt_node.specs.Answered.{IsAnswerInTime, is_of_credentials};
ghost use Rattle.mt_regained.specs.mt_lasting.Contents.{durable};
ghost use Rattle.mt_regained.specs.Begun.{MayStart, ceiling_in, first_change};
ghost use Rattle.mt_node.specs.Configured.{IsStarted, given_to, in_state};
ghost use Rattle.mt_node.specs.Plan.{IsPlan, IsPlanned, applied};
ghost use Rattle.mt_opcreds.specs.Judged.{judged_by};
ghost use Rattle.mt_opcreds.specs.Laws.{KeepsRules};

use crate::effects::{outcome, unchanged};
use crate::outcome::Outcome;
use crate::requests::{answered, nothing, refused};
use crate::sight::view;
use crate::{actors, effects};
use mt_admin::tick;
use mt_durable::Durable;
use mt_machine::{one_leaves, states_are_valid};
use mt_meta::clusters::OPERATIONAL_CREDENTIALS;
use mt_model::{
    Action, Actor, Armed, Config, Effect, ExactCopy, NodeState, NodeStep, Reply, Request, Roots,
    Status, Steps, Verdicts,
};
use mt_regained::begun;
use std::alloc::{AllocError, Global};
use std::marker::Model;

/// The node. Contracts see its state, and the configuration and the durable map with which it was started.
pub struct Node {
    pub(crate) alloc: Global,
    pub(crate) state: NodeState,
    config: Config,
    durable: Durable,
}

impl Drop for Node {
    fn drop(self) {
        let Node {
            alloc: _,
            state: _,
            config: _,
            durable: _,
        } = self;
    }
}

impl Model for Node {
    ghost use Rattle.mt_model.specs.texts.Contents.{contents_of};
    ghost use Rattle.mt_machine.specs.State.{IsValid};
    ghost use Rattle.mt_node.specs.Configured.{ConfiguredNode};
    ghost use Rattle.mt_tlv.specs.contracts.value.Value as values;
    ghost use Rattle.std.specs.Coded.{codes};

    ghost Value = { ConfiguredNode };

    ghost coded = { Prim.hlevel (codes, values.the_row.coded) };

    ghost view = { λ node. record { state = node.state; config = contents_of node.config; durable = node.durable } };

    ghost invariant = { λ node. IsValid node.state };
}

impl Node {
    /// A node with this configuration, in the boot behind the map with which it goes on, and at which number its events go on. What
    /// has to be committed first is the number of the boot, with the ceiling of event numbers that is set aside.
    pub fn start(alloc: Global, map: Durable, config: &Config) -> Result<(Node, u64), AllocError>
        requires { MayStart map }
        ensures started { IfOk result (λ both. IsStarted map config.now both.0) }
        ensures ceiling { IfOk result (λ both. both.1 ≡ ceiling_in map) }
        ensures first { (next : ℕ) → IfOk result (λ both. with_all (first_change both.0.state.boot next) map ≡ durable both.0.state next) }
    {
        let (state, ceiling) = begun(alloc, config, &map)?;
        let config = config.copy()?;
        let node = Node {
            alloc,
            state,
            config,
            durable: map,
        };
        Ok((node, ceiling))
    }

    /// Plans an action, at this time in ms, by the verdicts on certificates that are handed in. It changes nothing, and
    /// takes all the memory: what is answered, and room for the rows and entries that there will be, or the state
    /// behind it.
    pub fn plan<V: Verdicts>(
        &self,
        action: &Action,
        now: u64,
        verdicts: &V,
    ) -> Result<Outcome, AllocError>
        ensures { let given = given_to self.now (V.roots verdicts.now) (V.csrs verdicts.now) (V.joins verdicts.now) in
            IfOk result (IsPlan given self.now.state action.now now) }
    {
        match action {
            Action::Ask {
                actor,
                request,
                timed,
            } => match self.asker(actor) {
                Some(asking) => self.plan_asked(actor, &asking, request, *timed, now, verdicts),
                None => Ok(self.quiet(now)),
            },
            Action::Expire => self.plan_expiry(now),
            Action::Nothing => Ok(self.quiet(now)),
        }
    }

    /// Plans to answer a request of an actor that is taken as `asking`, as `asker` tells, at this time in ms. What subscribes
    /// is answered by whoever keeps the subscriptions: here time passes, and what comes too late is refused.
    pub fn plan_asked<V: Verdicts>(
        &self,
        actor: &Actor,
        asking: &Actor,
        request: &Request,
        timed: Option<u64>,
        now: u64,
        verdicts: &V,
    ) -> Result<Outcome, AllocError>
        requires asks { asker self.now.state actor.now ≡ Some asking.now }
        ensures { let given = given_to self.now (V.roots verdicts.now) (V.csrs verdicts.now) (V.joins verdicts.now) in
            IfOk result (IsPlan given self.now.state (Action.Ask actor.now request.now timed) now) }
    {
        let answered = self.answered_in_time(asking, request, timed, now, verdicts)?;
        states_are_valid();
        one_leaves();
        rules_hold_where_asked(request, verdicts);
        outcome(self.alloc, self, Some(*asking), answered, now)
    }

    // What a request is answered that must have come until a time.
    fn answered_in_time<V: Verdicts>(
        &self,
        asking: &Actor,
        request: &Request,
        timed: Option<u64>,
        now: u64,
        verdicts: &V,
    ) -> Result<Effect, AllocError>
        ensures { let given = given_to self.now (V.roots verdicts.now) (V.csrs verdicts.now) (V.joins verdicts.now) in
            IfOk result (IsAnswerInTime given self.now.state asking.now request.now timed now) }
    {
        if is_late(timed, now) {
            return Ok(refused(self.alloc, Status::Timeout));
        }
        answered(self, asking, timed.is_some(), request, now, verdicts)
    }

    // Plans what a time step does: an expiry, where it is time for one, and that a commissioning window is closed.
    fn plan_expiry(&self, now: u64) -> Result<Outcome, AllocError>
        ensures { (given : Environment) → IfOk result (IsPlan given self.now.state Action.Expire now) }
    {
        states_are_valid();
        one_leaves();
        let steps = self.tick_steps(now)?;
        let answered = Effect {
            reply: Reply::Nothing,
            steps,
        };
        outcome(self.alloc, self, None, answered, now)
    }

    // The steps of a time step: first an expiry, where one is due, and then those that close a window whose end has come.
    fn tick_steps(&self, now: u64) -> Result<Steps, AllocError>
        ensures { IfOk result (λ steps. steps ≡ tick_steps self.now.state now) }
    {
        let Effect { reply: _, steps } = tick(self.alloc, &view(self), now)?;
        if is_due(&self.state.armed, now) {
            return behind_expiry(self.alloc, steps);
        }
        Ok(steps)
    }

    // The outcome of what nobody asks.
    fn quiet(&self, now: u64) -> Outcome
        ensures { (given : Environment) → IsPlan given self.now.state Action.Nothing now result }
    {
        states_are_valid();
        one_leaves();
        unchanged(self.alloc, None, nothing(self.alloc), now)
    }

    /// Makes of the node what a planned action makes of it, and gives the events that are told. It takes no memory, and
    /// cannot fail.
    pub fn apply(&mut self, outcome: Outcome) -> Steps
        requires { IsPlanned self.old.state outcome }
        ensures state { self.new ≡ in_state (applied outcome self.old.state) self.old }
        ensures told { result ≡ outcome.told }
    {
        effects::apply(self.alloc, &mut self.state, outcome)
    }

    // The ids of the networks that are within reach.
    pub(crate) fn reachable(&self) -> &Roots
        ensures { result.now ≡ self.now.config.reachable }
    {
        &self.config.reachable
    }

    /// The map with which it was started.
    pub fn durable(&self) -> &Durable
        ensures { result.now ≡ self.now.durable }
    {
        &self.durable
    }

    /// The state of the node, lent.
    pub fn state(&self) -> &NodeState
        ensures { result.now ≡ self.now.state }
    {
        &self.state
    }

    /// The state of a node is valid at every time. It does nothing.
    pub fn state_is_valid(&self)
        ensures { IsValid self.now.state }
    {
        let _ = &self.state;
    }

    /// The fail-safe, None exactly where nobody has armed it.
    pub fn armed(&self) -> Option<&Armed>
        ensures { option_copied result ≡ self.now.state.armed }
    {
        self.state.armed.as_ref()
    }

    /// The actor of a session, None exactly where the session may not be used.
    pub fn actor(&self, session: u16) -> Option<Actor>
        ensures { result ≡ session_actor self.now.state session }
    {
        actors::session_actor(&self.state, session)
    }

    /// Who is taken as asking where this actor does, None where nobody is: on a session its actor; a
    /// plain CASE actor as it stands, where its fabric is in the table; a plain PASE actor of no fabric
    /// and no node the plain PASE session, with the fabric that it has.
    pub fn asker(&self, actor: &Actor) -> Option<Actor>
        ensures { result ≡ asker self.now.state actor.now }
    {
        actors::asker(&self.state, actor)
    }
}

// An expiry, and behind it these steps.
fn behind_expiry(alloc: Global, steps: Steps) -> Result<Steps, AllocError>
    ensures { IfOk result (λ all. all ≡ Expire ∷ steps) }
{
    let mut all = vec![in alloc; NodeStep::Expire]?;
    let mut steps = steps.into_vec();
    all.append(&mut steps)?;
    Ok(Steps::from_vec(all))
}

// Whether it is time that the fail-safe expires.
fn is_due(armed: &Option<Armed>, now: u64) -> bool
    ensures { result ≡ is_due armed.now now }
{
    match armed {
        Some(armed) => armed.until <= now,
        None => false,
    }
}

fn is_late(timed: Option<u64>, now: u64) -> bool
    ensures { result ≡ is_late timed now }
{
    match timed {
        Some(deadline) => deadline < now,
        None => false,
    }
}

// The rows of verdicts keep the rules of their kinds, as each of their calls says. It is asked for where a command may
// need them.
fn rules_hold_where_asked<V: Verdicts>(request: &Request, verdicts: &V)
    ensures { is_of_credentials request.now ≡ true → KeepsRules (judged_by (V.roots verdicts.now) (V.csrs verdicts.now) (V.joins verdicts.now)) }
{
    if is_of_credentials(request) {
        let _ = verdicts.root(&[]);
        let _ = verdicts.csr(&[]);
        let _ = verdicts.join(&[], &[], &[]);
    }
}

fn is_of_credentials(request: &Request) -> bool
    ensures { result ≡ is_of_credentials request.now }
{
    match request {
        Request::Invoke { command, .. } => command.cluster == OPERATIONAL_CREDENTIALS,
        _ => false,
    }
}
