//! What a fabric sees of a whole, and whether its own part is the same in two.

ghost use Rattle.std.specs.Prelude.{◌≡◌, ◌↔◌, IfOk, IsTrue, filter};
ghost use Rattle.std.specs.Option.{option_map};
ghost use Rattle.mt_events.specs.Telling.{own_of};
ghost use Rattle.mt_subs.specs.Subscriptions.{is_of, next_id};
ghost use Rattle.mt_interactions.specs.mt_machine.Isolation.{is_deadline_in, own, own_of_whole};
ghost use Rattle.mt_interactions.specs.mt_ledger.Isolation.{own_ledger};
ghost use Rattle.mt_interactions.specs.mt_machine.State.{is_member};
ghost use Rattle.mt_interactions.specs.mt_runs.Lines.{fabric_of};
ghost use Rattle.mt_interactions.specs.mt_runs.Whole.{Whole as Told};
ghost use Rattle.mt_marks.specs.Seen.{seen_in};
ghost use Rattle.mt_interactions.specs.mt_runs.Isolation.{public_part};
ghost use Rattle.mt_interactions.specs.mt_runs.Marks.{is_seen, seen};
ghost use Rattle.mt_whole.specs.Seeing.{mark_of, own_standing};
ghost use Rattle.mt_whole.specs.Talks.{IsWholeOf};

use crate::standing::are_standings_same;
use crate::whole::Whole;
use mt_interactions::Interactions;
use mt_marks::{
    Mark, are_deadlines_same, are_events_same, are_subscriptions_same, is_own_same, public_mark,
};
use mt_model::{Event, NodeSession, NodeState};
use mt_subs::Subs;
use mt_talk::session_named;
use std::alloc::AllocError;

impl Whole {
    /// The mark of an event that a fabric sees: the event, with what is public to the fabric just before it. None exactly
    /// where the event is neither one of the fabric nor a time step nor a stop.
    pub fn mark(&self, fabric: u8, event: &Event) -> Result<Option<Mark>, AllocError>
        ensures { (w : Told) → IsWholeOf self.now w → IfOk result (λ mark. option_map seen_in mark ≡ mark_of fabric w event.now) }
    {
        if !self.sees(fabric, event) {
            return Ok(None);
        }
        Ok(Some(self.shown(fabric, event)?))
    }

    /// What is public to a fabric, beside an event, whether the fabric sees that or not.
    pub fn shown(&self, fabric: u8, event: &Event) -> Result<Mark, AllocError>
        ensures { (w : Told) → IsWholeOf self.now w → IfOk result (λ mark. seen_in mark ≡ seen event.now (public_part fabric w)) }
    {
        let interactions = &self.interactions;
        public_mark(
            self.alloc,
            fabric,
            event,
            interactions.state(),
            interactions.rings(),
            interactions.numbers(),
        )
    }

    // Whether a fabric sees an event.
    fn sees(&self, fabric: u8, event: &Event) -> bool
        ensures { (w : Told) → IsWholeOf self.now w → result ≡ is_seen fabric w event.now }
    {
        match event {
            Event::Tick { .. } => true,
            Event::Stop { .. } => true,
            _ => self.acts_for(event) == fabric,
        }
    }

    /// The fabric for which an event acts, 0 where it acts for none: that for which the session is live that it names; a report step
    /// names its fabric.
    pub fn acts_for(&self, event: &Event) -> u8
        ensures { result ≡ fabric_of self.now.interactions.state.node event.now }
    {
        match event {
            Event::Ask { fabric, .. } => {
                if *fabric == 0 {
                    return self.interactions.state().plain.unwrap_or(0);
                }
                *fabric
            },
            Event::Datagram { bytes, .. } => match session_named(bytes.as_slice()) {
                Some(session) => self.live(session).unwrap_or(0),
                None => 0,
            },
            Event::Report { fabric, .. } => *fabric,
            Event::Resend { session, .. } => self.live(*session).unwrap_or(0),
            _ => 0,
        }
    }

    /// Whether a fabric is in the table.
    pub fn has(&self, fabric: u8) -> bool
        ensures { result ≡ is_member fabric self.now.interactions.state.node }
    {
        self.interactions
            .state()
            .fabrics
            .as_slice()
            .iter()
            .any(|f| f.index == fabric)
    }

    /// The state of the node.
    pub fn state(&self) -> &NodeState
        ensures { result.now ≡ self.now.interactions.state.node }
    {
        self.interactions.state()
    }

    /// The subscriptions.
    pub fn subs(&self) -> &Subs
        ensures { result.now ≡ self.now.interactions.ledger.subs }
    {
        self.interactions.subs()
    }

    /// The number of this boot.
    pub fn boot(&self) -> u32
        ensures { result ≡ self.now.interactions.state.node.boot }
    {
        self.interactions.state().boot
    }

    /// The sessions of this boot.
    pub fn sessions(&self) -> &[NodeSession]
        ensures { result.now ≡ self.now.interactions.state.node.sessions }
    {
        self.interactions.state().sessions.as_slice()
    }

    /// Whether the fabric's own part is the same in two wholes, with what stands over its sessions, and without what is shown
    /// of them. It takes no memory.
    pub fn alike(&self, other: &Whole, fabric: u8) -> bool
        ensures { (w v : Told) → IsWholeOf self.now w → IsWholeOf other.now v → IsTrue result ↔ (own_standing fabric w ≡ own_standing fabric v) }
    {
        if is_plain_same(fabric, &self.interactions, &other.interactions) {
            return are_standings_same(fabric, self, other);
        }
        false
    }
}

// Whether what is the fabric's own of the node, and of what it remembers, is the same in both.
fn is_plain_same(fabric: u8, one: &Interactions, other: &Interactions) -> bool
    ensures { IsTrue result ↔ ((own_of_whole fabric one.now.state ≡ own_of_whole fabric other.now.state) × (own_ledger fabric one.now.ledger ≡ own_ledger fabric other.now.ledger)) }
{
    are_parts_same(fabric, one, other)
}

fn are_parts_same(fabric: u8, one: &Interactions, other: &Interactions) -> bool
    ensures { IsTrue result ↔ ((own fabric one.now.state.node ≡ own fabric other.now.state.node)
        × (filter (is_deadline_in fabric) one.now.state.deadlines ≡ filter (is_deadline_in fabric) other.now.state.deadlines)
        × (own_of fabric one.now.ledger.history.rings ≡ own_of fabric other.now.ledger.history.rings)
        × ((filter (is_of fabric) one.now.ledger.subs.subscriptions ≡ filter (is_of fabric) other.now.ledger.subs.subscriptions)
        × (next_id fabric one.now.ledger.subs ≡ next_id fabric other.now.ledger.subs))) }
{
    is_own_same(fabric, one.state(), other.state())
        && are_deadlines_same(fabric, one.deadlines(), other.deadlines())
        && are_events_same(fabric, one.rings(), other.rings())
        && are_subscriptions_same(fabric, one.subs(), other.subs())
}
