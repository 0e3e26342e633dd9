//! A node that plays, and all that is shown of its sessions.

ghost use Rattle.std.specs.Prelude.{◌≡◌, ◌↔◌, IfOk, IsTrue, List, OnErr, OnOk, filter};
ghost use Rattle.mt_model.specs.declared.node.state.NodeSession.{NodeSession as Row};
ghost use Rattle.mt_model.specs.declared.texts.config.SessionRow.{SessionRow};
ghost use Rattle.mt_model.specs.declared.texts.recording.Event.{Event as Line};
ghost use Rattle.mt_model.specs.texts.Contents.{contents_of};
ghost use Rattle.mt_subs.specs.Leaving.{is_live_as as stands_for};
ghost use Rattle.mt_whole.specs.mt_machine.Environment.{Environment, given_by};
ghost use Rattle.mt_whole.specs.mt_marks.Noted.{noted_if};
ghost use Rattle.mt_whole.specs.mt_runs.Course.{Going, going_on};
ghost use Rattle.mt_whole.specs.mt_runs.Isolation.{own_part};
ghost use Rattle.mt_whole.specs.mt_runs.Whole.{opened};
ghost use Rattle.mt_play.specs.Courses.{IsGoing, IsStopping};
ghost use Rattle.mt_play.specs.Plays.{IsMade, IsOnJournal, IsPlannedLine};
ghost use Rattle.mt_play.specs.Remembers.{IsRemembering, RemembersTo, dropped};

use crate::course::Course;
use crate::playing::{Planned, Playing};
use mt_model::{Config, Event, ExactCopy, NodeSession, SentList};
use mt_subs::is_live_as;
use mt_whole::{
    Note, ToldTalks, closed_sessions_are_those_that_end, own_parts_are_standings_and_talks,
    raised_ceilings_come_first, stops_leave_all,
};
use std::alloc::{AllocError, Global};

/// A node that plays, and all that is shown of its sessions, which no node stores. It grows with the recording.
pub struct Remembering<'a> {
    playing: Playing<'a>,
    told: ToldTalks,
}

impl<'a> Drop for Remembering<'a> {
    fn drop(self) {
        let Remembering {
            playing: _,
            told: _,
        } = self;
    }
}

impl<'a> Remembering<'a> {
    /// A new node with this configuration, in its first boot, of whose sessions nothing is shown yet.
    pub fn start(alloc: Global, config: &'a Config) -> Result<Remembering<'a>, AllocError>
        ensures journal { IfOk result (λ remembering. IsOnJournal remembering.playing) }
        ensures remembers { IfOk result (λ remembering. IsRemembering remembering (given_by (contents_of config.now)) config.now.sessions (going_on (opened config.now))) }
    {
        let playing = Playing::start(alloc, config)?;
        let told = ToldTalks::begun(alloc, playing.boot(), config.sessions.as_slice())?;
        Ok(Remembering { playing, told })
    }

    /// The node.
    pub fn playing(&self) -> &Playing<'a>
        ensures { result.now ≡ self.now.playing }
    {
        &self.playing
    }

    /// Makes of the node what a line makes of it that was planned on the node, remembers what is shown, and gives what is sent. Behind
    /// a reopening nothing has been shown. Where memory is wanting the node stays as it is, but what is remembered may be of no use any
    /// more.
    pub fn carry_out(&mut self, event: &Event, planned: Planned) -> Result<SentList, AllocError>
        requires journal { IsOnJournal self.old.playing }
        requires made { IsMade self.old.playing planned }
        ensures journal { OnOk result (IsOnJournal self.new.playing) }
        ensures steps { (given : Environment) (sessions : List SessionRow) (g : Going) → IsRemembering self.old given sessions g → IsPlannedLine given g event.now planned
            → IfOk result (RemembersTo given sessions g event.now self.new) }
        ensures stays { OnErr result (self.new.playing.whole ≡ self.old.playing.whole) }
    {
        match planned.course() {
            Course::Goes(_) => self.go_on(event, planned),
            Course::Stops { .. } => self.begin_again(planned),
        }
    }

    // A line that is carried out.
    fn go_on(&mut self, event: &Event, planned: Planned) -> Result<SentList, AllocError>
        requires journal { IsOnJournal self.old.playing }
        requires made { IsMade self.old.playing planned }
        requires goes { IsGoing planned.course }
        ensures journal { OnOk result (IsOnJournal self.new.playing) }
        ensures steps { (given : Environment) (sessions : List SessionRow) (g : Going) → IsRemembering self.old given sessions g → IsPlannedLine given g event.now planned
            → IfOk result (RemembersTo given sessions g event.now self.new) }
        ensures stays { OnErr result (self.new.playing.whole ≡ self.old.playing.whole) }
    {
        closed_sessions_are_those_that_end();
        stops_leave_all();
        let note = self.playing.note(event)?;
        note_line(&mut self.told, note, &planned)?;
        self.playing.carry_out(planned)
    }

    // A line in which the disk stops.
    fn begin_again(&mut self, planned: Planned) -> Result<SentList, AllocError>
        requires journal { IsOnJournal self.old.playing }
        requires made { IsMade self.old.playing planned }
        requires stops { IsStopping planned.course }
        ensures journal { OnOk result (IsOnJournal self.new.playing) }
        ensures steps { (given : Environment) (sessions : List SessionRow) (g : Going) (event : Line) → IsRemembering self.old given sessions g → IsPlannedLine given g event planned
            → IfOk result (RemembersTo given sessions g event self.new) }
        ensures stays { OnErr result (self.new.playing.whole ≡ self.old.playing.whole) }
    {
        raised_ceilings_come_first();
        let playing = &self.playing;
        let next = playing.boot().saturating_add(1);
        let told = ToldTalks::begun(playing.alloc, next, playing.config.sessions.as_slice())?;
        let sent = self.playing.carry_out(planned)?;
        self.told = told;
        Ok(sent)
    }

    /// Whether the fabric's own part is the same in both, with what stands over its live sessions and all that is shown of them.
    /// It takes memory for copies of the rows of these sessions.
    pub fn has_same_own(&self, other: &Remembering, fabric: u8) -> Result<bool, AllocError>
        ensures { (given to_other : Environment) (mine theirs : List SessionRow) (g h : Going) → IsRemembering self.now given mine g → IsRemembering other.now to_other theirs h
            → IfOk result (λ same. IsTrue same ↔ (own_part fabric g.whole ≡ own_part fabric h.whole)) }
    {
        own_parts_are_standings_and_talks();
        if !self.playing.alike(&other.playing, fabric) {
            return Ok(false);
        }
        let alloc = self.playing.alloc;
        let own = live_sessions(alloc, fabric, self.playing.whole.sessions())?;
        let others = live_sessions(alloc, fabric, other.playing.whole.sessions())?;
        Ok(self.told.are_same_among(&own, &other.told, &others))
    }
}

// The sessions that are live for a fabric.
fn live_sessions(
    alloc: Global,
    fabric: u8,
    sessions: &[NodeSession],
) -> Result<Vec<NodeSession>, AllocError>
    ensures { IfOk result (λ live. live.items ≡ filter (λ (session : Row). stands_for fabric session.standing) sessions.now) }
{
    let mut live = Vec::new(alloc);
    for session in sessions {
        if is_live_as(fabric, session.standing) {
            live.push(session.copy()?)?;
        }
    }
    Ok(live)
}

// What a line that is carried out adds to what is shown: the note of it, and the drops of the sessions that end.
fn note_line(told: &mut ToldTalks, note: Option<Note>, planned: &Planned) -> Result<(), AllocError>
    ensures { OnOk result (told.new ≡ dropped planned.now.outcome (noted_if note told.old)) }
{
    told.note(note)?;
    match planned.outcome() {
        Some(outcome) => told.let_go(outcome.closed()),
        None => Ok(()),
    }
}
