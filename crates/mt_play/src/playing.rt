//! A node on its journal that plays the lines of a recording.

ghost use Rattle.std.specs.Prelude.{◌≡◌, ◌≤◌, ◌^◌, ℕ, List, IfOk, IfSome, OnErr, OnOk, option_copied};
ghost use Rattle.mt_whole.specs.mt_lasting.Contents.{durable};
ghost use Rattle.mt_model.specs.declared.node.state.NodeState.{NodeState};
ghost use Rattle.mt_model.specs.declared.texts.config.SessionRow.{SessionRow};
ghost use Rattle.mt_model.specs.declared.texts.recording.Event.{Event as Line};
ghost use Rattle.mt_model.specs.texts.Contents.{contents_of};
ghost use Rattle.mt_whole.specs.mt_machine.Environment.{Environment, given_by};
ghost use Rattle.mt_whole.specs.mt_machine.State.{IsValid};
ghost use Rattle.mt_whole.specs.mt_regained.Reopened.{new_map};
ghost use Rattle.mt_whole.specs.mt_runs.Course.{Going, going_on, survives};
ghost use Rattle.mt_whole.specs.mt_runs.Whole.{opened};
ghost use Rattle.mt_whole.specs.Plan.{IsPlanned, IsStarted};
ghost use Rattle.mt_keeping.specs.States.{told_map};
ghost use Rattle.mt_play.specs.Courses.{IsTold, coming, course_by, course_in, stop_in};
ghost use Rattle.mt_play.specs.Journal.{IsReady, Keeps};
ghost use Rattle.mt_play.specs.Plays.{Brings, GoesTo, HasChangeOrNot, IsAtRest, IsLeft, IsLeftBy, IsMade, IsOnJournal, IsPlannedLine, IsPlaying, IsReopened, MayBoot, ReopensTo, RestsSomehow, StepsTo, StopsAt, has_change, left_ceiling, left_node};

use crate::course::{ComingStop, Course, course_of_line, course_of_stop};
use crate::journal::{commit, commit_if_any, commit_stopped, counts_one_more};
use mt_durable::Durable;
use mt_keeping::{Store, journals_are_recovered, states_are_reopened, states_may_be_committed};
use mt_model::{Config, Event, SentList, TableVerdicts};
use mt_outside::MemDisk;
use mt_whole::{
    Whole, WholeOutcome, commits_lead_on, lines_make_calls_where_what_lasts_changes, maps_are_maps,
    reopened_nodes_may_start, reopenings_roll_back, states_are_valid, stops_leave_all,
};
use std::alloc::{AllocError, Global};

/// A node on its journal, which lies on a disk in memory, and the verdicts on certificates by which it plays. Contracts say for which
/// written run on its way it stands, and what is given to that.
pub struct Playing<'a> {
    pub(crate) alloc: Global,
    pub(crate) config: &'a Config,
    pub(crate) whole: Whole,
    pub(crate) verdicts: TableVerdicts,
    pub(crate) store: Store<MemDisk>,
    // the stop of the disk that is to come
    pub(crate) stop: Option<ComingStop>,
}

impl<'a> Drop for Playing<'a> {
    fn drop(self) {
        let Playing {
            alloc: _,
            config: _,
            whole: _,
            verdicts: _,
            store: _,
            stop: _,
        } = self;
    }
}

/// A line that is planned: what becomes of it, and what it brings.
pub struct Planned {
    // none for a line that stops the disk
    pub(crate) outcome: Option<WholeOutcome>,
    pub(crate) course: Course,
}

impl Drop for Planned {
    fn drop(self) {
        let Planned {
            outcome: _,
            course: _,
        } = self;
    }
}

impl Planned {
    /// What becomes of the line.
    pub fn course(&self) -> Course
        ensures { result ≡ self.now.course }
    {
        self.course
    }

    /// What it brings where it is carried out, None where it stops the disk.
    pub fn outcome(&self) -> Option<&WholeOutcome>
        ensures { option_copied result ≡ self.now.outcome }
    {
        self.outcome.as_ref()
    }

    fn into_parts(self) -> (Option<WholeOutcome>, Course)
        ensures { result ≡ (self.outcome, self.course) }
    {
        let Planned { outcome, course } = self;
        (outcome, course)
    }
}

impl<'a> Playing<'a> {
    /// A new node with this configuration, in its first boot, on an empty journal.
    pub fn start(alloc: Global, config: &'a Config) -> Result<Playing<'a>, AllocError>
        ensures journal { IfOk result IsOnJournal }
        ensures plays { IfOk result (λ playing. IsPlaying playing (given_by (contents_of config.now)) config.now.sessions (going_on (opened config.now))) }
    {
        reopened_nodes_may_start();
        states_are_valid();
        let (mut store, map) = recovered(alloc, config)?;
        let whole = boot(alloc, config, &mut store, map)?;
        Ok(Playing {
            alloc,
            config,
            whole,
            verdicts: TableVerdicts::new(config)?,
            store,
            stop: None,
        })
    }

    /// Makes of the node what a line of a recording makes of it, and gives what is sent. A change that lasts is committed before it is put in
    /// place. Where the disk stops in the line nothing is sent, and the node is reopened with what the disk has. Where memory is
    /// wanting the node stays as it is, and its journal has what it had or that with the line's change, unless the disk was to
    /// stop in the line: then the reopening may have begun. No more is committed to it.
    pub fn step(&mut self, event: &Event) -> Result<SentList, AllocError>
        requires { IsOnJournal self.old }
        ensures journal { OnOk result (IsOnJournal self.new) }
        ensures config { self.new.config ≡ self.old.config }
        ensures steps { (given : Environment) (sessions : List SessionRow) (g : Going) → IsPlaying self.old given sessions g → IfOk result (StepsTo given sessions g event.now self.new) }
        ensures stays { OnErr result (self.new.whole ≡ self.old.whole) }
        ensures left { OnErr result (IsLeftBy self.old event.now self.new) }
    {
        let planned = self.plan(event)?;
        self.carry_out(planned)
    }

    /// Plans a line: what becomes of it, and what it brings. It changes nothing.
    pub fn plan(&self, event: &Event) -> Result<Planned, AllocError>
        requires { IsOnJournal self.now }
        ensures made { IfOk result (IsMade self.now) }
        ensures planned { (given : Environment) (sessions : List SessionRow) (g : Going) → IsPlaying self.now given sessions g → IfOk result (IsPlannedLine given g event.now) }
    {
        commits_lead_on();
        lines_make_calls_where_what_lasts_changes();
        let outcome = self.whole.plan(event, &self.verdicts)?;
        let course = course_of(event, changes(&outcome), self.stop);
        Ok(Planned { outcome, course })
    }

    /// Makes of the node what a planned line makes of it, and gives what is sent, as `step` does.
    pub fn carry_out(&mut self, planned: Planned) -> Result<SentList, AllocError>
        requires journal { IsOnJournal self.old }
        requires made { IsMade self.old planned }
        ensures journal { OnOk result (IsOnJournal self.new) }
        ensures config { self.new.config ≡ self.old.config }
        ensures steps { (given : Environment) (sessions : List SessionRow) (g : Going) (event : Line) → IsPlaying self.old given sessions g → IsPlannedLine given g event planned
            → IfOk result (StepsTo given sessions g event self.new) }
        ensures stays { OnErr result (self.new.whole ≡ self.old.whole) }
        ensures left { OnErr result (IsLeft planned.course planned.outcome self.old.store self.new.store) }
    {
        let (outcome, course) = planned.into_parts();
        match course {
            Course::Goes(stop) => self.go_on(outcome, stop),
            Course::Stops { by, survives: _ } => self.stop_in(outcome, by),
        }
    }

    // A line that is carried out, behind which this stop is to come.
    fn go_on(
        &mut self,
        outcome: Option<WholeOutcome>,
        stop: Option<ComingStop>,
    ) -> Result<SentList, AllocError>
        requires journal { IsOnJournal self.old }
        requires made { IfSome outcome (IsPlanned self.old.whole.interactions.state self.old.whole.interactions.ledger) }
        ensures journal { OnOk result (IsOnJournal self.new) }
        ensures config { self.new.config ≡ self.old.config }
        ensures goes { (given : Environment) (sessions : List SessionRow) (g : Going) (event : Line) → IsPlaying self.old given sessions g → Brings given g event outcome
            → IfOk result (GoesTo given sessions g event (coming stop) self.new) }
        ensures stays { OnErr result (self.new.whole ≡ self.old.whole) }
        ensures left { OnErr result (HasChangeOrNot outcome self.old.store self.new.store) }
    {
        stops_leave_all();
        commits_lead_on();
        states_may_be_committed();
        maps_are_maps();
        let Some(mut outcome) = outcome else {
            self.stop = stop;
            return Ok(SentList::new(self.alloc));
        };
        commit_if_any(&mut self.store, outcome.change())?;
        let sent = outcome.take_sent(self.alloc);
        self.whole.apply(outcome);
        self.stop = stop;
        Ok(sent)
    }

    // A line in which the disk stops: nothing is sent.
    fn stop_in(
        &mut self,
        outcome: Option<WholeOutcome>,
        by: ComingStop,
    ) -> Result<SentList, AllocError>
        requires journal { IsOnJournal self.old }
        requires made { IfSome outcome (IsPlanned self.old.whole.interactions.state self.old.whole.interactions.ledger) }
        requires stops { IfSome outcome (StopsAt by) }
        ensures journal { OnOk result (IsOnJournal self.new) }
        ensures config { self.new.config ≡ self.old.config }
        ensures stops { (given : Environment) (sessions : List SessionRow) (g : Going) (event : Line) → IsPlaying self.old given sessions g → Brings given g event outcome
            → IfOk result (ReopensTo given sessions g event (survives (stop_in by)) self.new) }
        ensures stays { OnErr result (self.new.whole ≡ self.old.whole) }
    {
        stops_leave_all();
        self.lose_power(&outcome, by)?;
        self.reopen()?;
        Ok(SentList::new(self.alloc))
    }

    // The disk stops in the commit of what a line brings, or at a line that commits nothing, and is restarted. All that was written before is
    // safe, so that a stop between two commits loses nothing, whatever its fate.
    fn lose_power(
        &mut self,
        outcome: &Option<WholeOutcome>,
        by: ComingStop,
    ) -> Result<(), AllocError>
        requires journal { IsOnJournal self.old }
        requires made { IfSome outcome.now (IsPlanned self.old.whole.interactions.state self.old.whole.interactions.ledger) }
        requires stops { IfSome outcome.now (StopsAt by) }
        ensures rests { OnOk result (IsAtRest self.new (left_node self.old outcome.now by) (left_ceiling self.old outcome.now by)) }
        ensures stays { self.new ≡ record self.old { store = self.new.store } }
    {
        journals_are_recovered();
        commits_lead_on();
        states_may_be_committed();
        maps_are_maps();
        match outcome {
            Some(outcome) => {
                commit_stopped(&mut self.store, outcome.change(), by.calls, by.fate)
            }
            None => Ok(()),
        }
    }

    // Starts the node again with what the disk has. The new boot takes the place of the old one once it is on the journal.
    fn reopen(&mut self) -> Result<(), AllocError>
        requires rests { RestsSomehow self.old }
        ensures journal { OnOk result (IsOnJournal self.new) }
        ensures config { self.new.config ≡ self.old.config }
        ensures reopened { (s : NodeState) (ceiling : ℕ) → IsAtRest self.old s ceiling → OnOk result (IsReopened s ceiling self.new) }
        ensures stays { OnErr result (self.new.whole ≡ self.old.whole) }
    {
        states_are_reopened();
        reopenings_roll_back();
        let Ok(map) = self.store.reopen(self.alloc, self.config) else {
            return Err(AllocError);
        };
        let whole = boot(self.alloc, self.config, &mut self.store, map)?;
        self.whole = whole;
        self.stop = None;
        Ok(())
    }
}

// The store of an empty journal, and the map with which a new node goes on.
fn recovered(alloc: Global, config: &Config) -> Result<(Store<MemDisk>, Durable), AllocError>
    ensures ready { IfOk result (λ both. IsReady both.0) }
    ensures told { IfOk result (λ both. told_map both.0 ≡ both.1) }
    ensures new { IfOk result (λ both. both.1 ≡ new_map (contents_of config.now)) }
{
    let disk = MemDisk::new(alloc, &[], &[])?;
    match Store::recover(alloc, disk, config) {
        Ok(both) => Ok(both),
        Err(_) => Err(AllocError),
    }
}

// The boot behind a map that the store tells, committed first.
fn boot(
    alloc: Global,
    config: &Config,
    store: &mut Store<MemDisk>,
    map: Durable,
) -> Result<Whole, AllocError>
    requires ready { IsReady store.old }
    requires told { told_map store.old ≡ map }
    requires may { MayBoot config.now map }
    ensures started { IfOk result (IsStarted map config.now) }
    ensures keeps { IfOk result (λ whole. Keeps store.new (durable whole.interactions.state.node whole.interactions.ledger.history.numbers.ceiling)) }
    ensures valid { IfOk result (λ whole. IsValid whole.interactions.state.node) }
    ensures within { IfOk result (λ whole. whole.interactions.ledger.history.numbers.ceiling ≤ 2 ^ 62) }
{
    states_may_be_committed();
    maps_are_maps();
    let counts = counts_one_more(alloc, &map)?;
    if !counts {
        return Err(AllocError);
    }
    let (whole, first) = Whole::start(alloc, map, config)?;
    commit(store, first.as_slice())?;
    Ok(whole)
}

// What becomes of a line, by whether it has something to commit, where this stop is to come.
fn course_of(event: &Event, changes: bool, stop: Option<ComingStop>) -> Course
    ensures course { course_in result ≡ course_by event.now changes (coming stop) }
    ensures told { IsTold result }
{
    match event {
        Event::Stop { calls, fate } => course_of_stop(*calls, *fate),
        _ => course_of_line(changes, stop),
    }
}

// Whether a line has something to commit.
fn changes(outcome: &Option<WholeOutcome>) -> bool
    ensures { result ≡ has_change outcome.now }
{
    match outcome {
        Some(outcome) => !outcome.change().is_empty(),
        None => false,
    }
}
