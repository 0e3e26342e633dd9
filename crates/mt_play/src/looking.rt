//! What a looker-on may ask of a node that plays.

ghost use Rattle.std.specs.Prelude.{◌≡◌, ◌↔◌, IfOk, IsTrue, List, map, option_copied};
ghost use Rattle.std.specs.Option.{option_map};
ghost use Rattle.mt_model.specs.declared.texts.config.SessionRow.{SessionRow};
ghost use Rattle.mt_whole.specs.mt_machine.Environment.{Environment};
ghost use Rattle.mt_whole.specs.mt_machine.State.{is_member};
ghost use Rattle.mt_whole.specs.mt_runs.Lines.{fabric_of, talks_behind};
ghost use Rattle.mt_whole.specs.mt_runs.Course.{Going};
ghost use Rattle.mt_whole.specs.mt_runs.Isolation.{public_part};
ghost use Rattle.mt_whole.specs.mt_runs.Marks.{seen};
ghost use Rattle.mt_whole.specs.mt_runs.Whole.{Whole as Told, fabric_live};
ghost use Rattle.mt_whole.specs.mt_marks.Noted.{noted_if};
ghost use Rattle.mt_whole.specs.mt_marks.Remembered.{remembered};
ghost use Rattle.mt_whole.specs.mt_marks.Seen.{seen_in};
ghost use Rattle.mt_whole.specs.Plan.{given_to};
ghost use Rattle.mt_whole.specs.Seeing.{mark_of, own_standing};
ghost use Rattle.mt_whole.specs.Talks.{IsWholeOf};
ghost use Rattle.mt_play.specs.Plays.{IsPlaying};

use crate::playing::Playing;
use mt_model::{Armed, Event, NodeSession, NodeState};
use mt_subs::Subs;
use mt_whole::{Mark, Note};
use std::alloc::AllocError;

impl<'a> Playing<'a> {
    /// The mark of an event that a fabric sees: the event, with what is public to the fabric just before it. None exactly where
    /// the fabric does not see it.
    pub fn mark(&self, fabric: u8, event: &Event) -> Result<Option<Mark>, AllocError>
        ensures { (given : Environment) (sessions : List SessionRow) (g : Going) → IsPlaying self.now given sessions g → IfOk result (λ mark. option_map seen_in mark ≡ mark_of fabric g.whole event.now) }
    {
        self.whole.mark(fabric, event)
    }

    /// What is public to a fabric, beside an event, whether the fabric sees that or not.
    pub fn shown(&self, fabric: u8, event: &Event) -> Result<Mark, AllocError>
        ensures { (given : Environment) (sessions : List SessionRow) (g : Going) → IsPlaying self.now given sessions g → IfOk result (λ mark. seen_in mark ≡ seen event.now (public_part fabric g.whole)) }
    {
        self.whole.shown(fabric, event)
    }

    // What an event adds to what is shown of a session, None where it adds nothing.
    pub(crate) fn note(&self, event: &Event) -> Result<Option<Note>, AllocError>
        ensures { let given = given_to self.now.whole self.now.verdicts.roots self.now.verdicts.csrs self.now.verdicts.joins in
            (w : Told) → IsWholeOf self.now.whole w → IfOk result (λ note. noted_if note (map remembered w.talks) ≡ map remembered (talks_behind given w event.now)) }
    {
        self.whole.note(event, &self.verdicts)
    }

    /// Whether a fabric is in the table.
    pub fn has(&self, fabric: u8) -> bool
        ensures { (given : Environment) (sessions : List SessionRow) (g : Going) → IsPlaying self.now given sessions g → result ≡ is_member fabric g.whole.state.node }
    {
        self.whole.has(fabric)
    }

    /// The fabric for which an event acts, 0 where it acts for none.
    pub fn acts_for(&self, event: &Event) -> u8
        ensures { (given : Environment) (sessions : List SessionRow) (g : Going) → IsPlaying self.now given sessions g → result ≡ fabric_of g.whole.state.node event.now }
    {
        self.whole.acts_for(event)
    }

    /// The fabric for which the session is live, 0 on PASE without one; None exactly where it is not live.
    pub fn live(&self, session: u16) -> Option<u8>
        ensures { (given : Environment) (sessions : List SessionRow) (g : Going) → IsPlaying self.now given sessions g → result ≡ fabric_live g.whole.state.node session }
    {
        self.whole.live(session)
    }

    /// The state of the node.
    pub fn state(&self) -> &NodeState
        ensures { (given : Environment) (sessions : List SessionRow) (g : Going) → IsPlaying self.now given sessions g → result.now ≡ g.whole.state.node }
    {
        self.whole.state()
    }

    /// The subscriptions.
    pub fn subs(&self) -> &Subs
        ensures { (given : Environment) (sessions : List SessionRow) (g : Going) → IsPlaying self.now given sessions g → result.now ≡ g.whole.ledger.subs }
    {
        self.whole.subs()
    }

    /// The number of this boot.
    pub fn boot(&self) -> u32
        ensures { (given : Environment) (sessions : List SessionRow) (g : Going) → IsPlaying self.now given sessions g → result ≡ g.whole.state.node.boot }
    {
        self.whole.boot()
    }

    /// The sessions of this boot.
    pub fn sessions(&self) -> &[NodeSession]
        ensures { (given : Environment) (sessions : List SessionRow) (g : Going) → IsPlaying self.now given sessions g → result.now ≡ g.whole.state.node.sessions }
    {
        self.whole.sessions()
    }

    /// The fail-safe, None exactly where nobody has armed it.
    pub fn armed(&self) -> Option<&Armed>
        ensures { (given : Environment) (sessions : List SessionRow) (g : Going) → IsPlaying self.now given sessions g → option_copied result ≡ g.whole.state.node.armed }
    {
        self.whole.armed()
    }

    /// Whether the fabric's own part is the same in two nodes, with what stands over its sessions, and without what is shown
    /// of them. It takes no memory.
    pub fn alike(&self, other: &Playing, fabric: u8) -> bool
        ensures { (given to_other : Environment) (mine theirs : List SessionRow) (g h : Going) → IsPlaying self.now given mine g → IsPlaying other.now to_other theirs h
            → IsTrue result ↔ (own_standing fabric g.whole ≡ own_standing fabric h.whole) }
    {
        self.whole.alike(&other.whole, fabric)
    }
}
