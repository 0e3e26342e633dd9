//! One of the two runs, which goes on from mark to mark.

ghost use Rattle.std.specs.Prelude.{◌≡◌, IfOk, List, None, OnOk, false};
ghost use Rattle.mt_model.specs.declared.texts.config.SessionRow.{SessionRow};
ghost use Rattle.mt_model.specs.texts.Contents.{contents_of};
ghost use Rattle.mt_play.specs.mt_machine.Environment.{Environment, given_by};
ghost use Rattle.mt_play.specs.mt_runs.Course.{Going, going_on};
ghost use Rattle.mt_play.specs.mt_runs.Whole.{opened};
ghost use Rattle.mt_play.specs.Courses.{IsGoing};
ghost use Rattle.mt_play.specs.Plays.{IsMade, IsOnJournal, IsPlannedLine};
ghost use Rattle.mt_play.specs.Remembers.{IsRemembering};
ghost use Rattle.mt_compare.specs.Sides.{GoesOn, HasLooked, HasPassed, HasSeen, lost_by, stops_by};

use crate::passing::{Passed, change_of, left_unanswered};
use mt_model::{Config, Event};
use mt_outside::Fate;
use mt_play::{ComingStop, Course, Mark, Planned, Remembering, Unanswered};
use std::alloc::{AllocError, Global};

/// A mark, as far as it is not in the node at which it stands.
#[derive(Drop)]
pub(crate) enum Here {
    /// An event that the fabric sees; the node stands before it.
    Seen(Mark),
    /// The node was reopened: what was public before it, and which event of the fabric was left unanswered.
    Reopened(Mark, Option<Unanswered>),
    /// The fabric enters the table, with the own part that it has in the node.
    Enters,
    /// It leaves the table by an event that is none of its own, or by a reopening.
    Leaves,
}

/// The line at which a mark stands.
#[derive(Clone, Copy)]
pub enum LineOf<'a> {
    /// This one.
    Event(&'a Event),
    /// One that stops the disk at the call of this number.
    Stop { calls: u64, fate: Fate },
}

/// A run that goes on from mark to mark.
#[derive(Drop)]
pub(crate) struct Side<'a> {
    pub(crate) node: Remembering<'a>,
    // the events that the node has not played
    rest: &'a [Event],
    // whether what the fabric sees of the first of them was told
    is_seen: bool,
    // the line of a reopening that took the fabric, where that is still to be told
    lost: Option<LineOf<'a>>,
    /// The latest mark, and the line at which it stands, None before the first.
    pub(crate) here: Here,
    pub(crate) line: Option<LineOf<'a>>,
}

impl<'a> Side<'a> {
    /// A new node with this configuration, before these events.
    pub(crate) fn start(
        alloc: Global,
        config: &'a Config,
        events: &'a [Event],
    ) -> Result<Side<'a>, AllocError>
        ensures journal { IfOk result (λ side. IsOnJournal side.node.playing) }
        ensures node { IfOk result (λ side. IsRemembering side.node (given_by (contents_of config.now)) config.now.sessions (going_on (opened config.now))) }
        ensures events { IfOk result (λ side. side.rest ≡ events.entry) }
        ensures unseen { IfOk result (λ side. (side.is_seen ≡ false) × (side.lost ≡ None)) }
    {
        Ok(Side {
            node: Remembering::start(alloc, config)?,
            rest: events,
            is_seen: false,
            lost: None,
            here: Here::Leaves,
            line: None,
        })
    }

    /// Goes on to the fabric's next mark; false where there is none.
    pub(crate) fn next(&mut self, fabric: u8) -> Result<bool, AllocError>
        requires { IsOnJournal self.old.node.playing }
        ensures journal { OnOk result (IsOnJournal self.new.node.playing) }
        ensures next { (given : Environment) (sessions : List SessionRow) (g : Going) → IsRemembering self.old.node given sessions g → IfOk result (GoesOn given sessions fabric g self.old self.new) }
    {
        if let Some(line) = self.lost {
            self.lost = None;
            self.here = Here::Leaves;
            self.line = Some(line);
            return Ok(true);
        }
        self.go_to_next(fabric)
    }

    // The same where no end is still to be told.
    fn go_to_next(&mut self, fabric: u8) -> Result<bool, AllocError>
        requires journal { IsOnJournal self.old.node.playing }
        requires told { self.old.lost ≡ None }
        ensures journal { OnOk result (IsOnJournal self.new.node.playing) }
        ensures next { (given : Environment) (sessions : List SessionRow) (g : Going) → IsRemembering self.old.node given sessions g → IfOk result (GoesOn given sessions fabric g self.old self.new) }
    {
        'events: while let Some((event, behind)) = self.rest.split_first() {
            if self.look(fabric, event)? {
                return Ok(true);
            }
            if self.pass(fabric, event, behind)? {
                return Ok(true);
            }
        }
        Ok(false)
    }

    // Tells what the fabric sees of an event, where that was not told yet; false where nothing is told.
    fn look(&mut self, fabric: u8, event: &'a Event) -> Result<bool, AllocError>
        ensures rest { OnOk result (self.new.rest ≡ self.old.rest) }
        ensures looked { (given : Environment) (sessions : List SessionRow) (g : Going) → IsRemembering self.old.node given sessions g → IfOk result (HasLooked fabric g event.entry self.old self.new) }
        ensures node { OnOk result (self.new.node ≡ self.old.node) }
        ensures lost { OnOk result (self.new.lost ≡ self.old.lost) }
    {
        if self.is_seen {
            return Ok(false);
        }
        self.see(fabric, event)
    }

    // Tells what the fabric sees of an event; false where it does not see it.
    fn see(&mut self, fabric: u8, event: &'a Event) -> Result<bool, AllocError>
        ensures rest { OnOk result (self.new.rest ≡ self.old.rest) }
        ensures seen { (given : Environment) (sessions : List SessionRow) (g : Going) → IsRemembering self.old.node given sessions g → IfOk result (HasSeen fabric g event.entry self.old self.new) }
        ensures node { OnOk result (self.new.node ≡ self.old.node) }
        ensures lost { OnOk result (self.new.lost ≡ self.old.lost) }
    {
        let mark = self.node.playing().mark(fabric, event)?;
        self.is_seen = true;
        let Some(mark) = mark else {
            return Ok(false);
        };
        self.here = Here::Seen(mark);
        self.line = Some(LineOf::Event(event));
        Ok(true)
    }

    // Plays an event, behind which these are left, and tells what that marks; false where it marks nothing.
    fn pass(
        &mut self,
        fabric: u8,
        event: &'a Event,
        behind: &'a [Event],
    ) -> Result<bool, AllocError>
        requires journal { IsOnJournal self.old.node.playing }
        requires told { self.old.lost ≡ None }
        ensures journal { OnOk result (IsOnJournal self.new.node.playing) }
        ensures rest { OnOk result (self.new.rest ≡ behind.entry) }
        ensures told { IfOk result (λ is_marked. is_marked ≡ false → self.new.lost ≡ None) }
        ensures passed { (given : Environment) (sessions : List SessionRow) (g : Going) → IsRemembering self.old.node given sessions g → IfOk result (HasPassed given sessions fabric g event.entry behind.entry self.new) }
    {
        let planned = self.node.playing().plan(event)?;
        match planned.course() {
            Course::Goes(_) => self.go_on(fabric, event, behind, planned),
            Course::Stops { by, survives } => {
                self.stop_in(fabric, event, behind, planned, by, survives)
            }
        }
    }

    // An event that is carried out: it marks where the fabric enters or leaves the table.
    fn go_on(
        &mut self,
        fabric: u8,
        event: &'a Event,
        behind: &'a [Event],
        planned: Planned,
    ) -> Result<bool, AllocError>
        requires journal { IsOnJournal self.old.node.playing }
        requires made { IsMade self.old.node.playing planned }
        requires goes { IsGoing planned.course }
        requires told { self.old.lost ≡ None }
        ensures journal { OnOk result (IsOnJournal self.new.node.playing) }
        ensures rest { OnOk result (self.new.rest ≡ behind.entry) }
        ensures told { IfOk result (λ is_marked. is_marked ≡ false → self.new.lost ≡ None) }
        ensures passed { (given : Environment) (sessions : List SessionRow) (g : Going) → IsRemembering self.old.node given sessions g → IsPlannedLine given g event.now planned
            → IfOk result (HasPassed given sessions fabric g event.entry behind.entry self.new) }
    {
        let was = self.node.playing().has(fabric);
        let is_own = self.node.playing().acts_for(event) == fabric;
        self.node.carry_out(event, planned)?;
        self.is_seen = false;
        self.rest = behind;
        match change_of(was, is_own, self.node.playing().has(fabric)) {
            Passed::Stays => Ok(false),
            Passed::Enters => {
                self.here = Here::Enters;
                self.line = Some(LineOf::Event(event));
                Ok(true)
            }
            Passed::Leaves => {
                self.here = Here::Leaves;
                self.line = Some(LineOf::Event(event));
                Ok(true)
            }
        }
    }

    // An event in which the disk stops by this line: it marks the reopening, and that it took the fabric where it did.
    fn stop_in(
        &mut self,
        fabric: u8,
        event: &'a Event,
        behind: &'a [Event],
        planned: Planned,
        by: ComingStop,
        survives: bool,
    ) -> Result<bool, AllocError>
        requires journal { IsOnJournal self.old.node.playing }
        requires made { IsMade self.old.node.playing planned }
        requires course { planned.course ≡ stops_by by survives }
        ensures journal { OnOk result (IsOnJournal self.new.node.playing) }
        ensures rest { OnOk result (self.new.rest ≡ behind.entry) }
        ensures told { IfOk result (λ is_marked. is_marked ≡ false → self.new.lost ≡ None) }
        ensures passed { (given : Environment) (sessions : List SessionRow) (g : Going) → IsRemembering self.old.node given sessions g → IsPlannedLine given g event.now planned
            → IfOk result (HasPassed given sessions fabric g event.entry behind.entry self.new) }
    {
        let (calls, fate) = (by.asked, by.fate);
        let was = self.node.playing().has(fabric);
        let is_own = self.node.playing().acts_for(event) == fabric;
        let mark = self
            .node
            .playing()
            .shown(fabric, &Event::Stop { calls, fate })?;
        let left = left_unanswered(is_own, event, survives)?;
        self.node.carry_out(event, planned)?;
        let line = LineOf::Stop { calls, fate };
        self.is_seen = false;
        self.rest = behind;
        self.lost = lost_by(was, self.node.playing().has(fabric), line);
        self.here = Here::Reopened(mark, left);
        self.line = Some(line);
        Ok(true)
    }
}

// The line of a reopening, where it took the fabric.
fn lost_by<'a>(was: bool, is: bool, line: LineOf<'a>) -> Option<LineOf<'a>>
    ensures { result ≡ lost_by was is line.entry }
{
    if was && !is {
        return Some(line);
    }
    None
}
