//! Where a fabric's mark of some number is in a run.

ghost use Rattle.std.specs.Prelude.{OnOk};
ghost use Rattle.mt_play.specs.Plays.{IsMade, IsOnJournal};

use mt_marks::Mark;
use mt_model::{Config, Event};
use mt_play::{ComingStop, Course, Planned, Playing};
use std::alloc::{AllocError, Global};

/// What a mark tells.
#[derive(Clone, Copy, PartialEq, Eq)]
pub(crate) enum Kind {
    /// An event that the fabric sees.
    Seen,
    /// That the node was reopened.
    Reopened,
    /// That the fabric enters the table, or leaves it.
    Enters,
    Leaves,
}

/// A mark of a run.
#[derive(Drop)]
pub(crate) struct Stand {
    pub kind: Kind,
    /// The line of the recording at which it is, from 1: for a reopening the one in which the disk stopped.
    pub line: u64,
    /// What is public to the fabric, where the mark says that.
    pub mark: Option<Mark>,
}

// How far a run is on the way to the mark.
#[derive(Drop)]
struct Way {
    fabric: u8,
    line: u64,
    // how many marks are to come, the one that is looked for among them
    left: u64,
    found: Option<Stand>,
}

/// The fabric's mark of this number, counted from 1, in a run of these events; None where it has fewer.
pub(crate) fn stand_of(
    alloc: Global,
    config: &Config,
    fabric: u8,
    events: &[Event],
    number: u64,
) -> Result<Option<Stand>, AllocError> {
    let mut node = Playing::start(alloc, config)?;
    let mut way = Way {
        fabric,
        line: 1,
        left: number,
        found: None,
    };
    for event in events {
        way.line = way.line.saturating_add(1);
        way.pass(&mut node, event)?;
        if way.found.is_some() {
            break;
        }
    }
    let Way { found, .. } = way;
    Ok(found)
}

impl Way {
    // Plays a line, and looks for the mark among those that it makes.
    fn pass(&mut self, node: &mut Playing<'_>, event: &Event) -> Result<(), AllocError>
        requires { IsOnJournal node.old }
        ensures { OnOk result (IsOnJournal node.new) }
    {
        if let Some(mark) = node.mark(self.fabric, event)? {
            self.count(Kind::Seen, Some(mark));
        }
        let planned = node.plan(event)?;
        match planned.course() {
            Course::Goes(_) => self.go_on(node, event, planned),
            Course::Stops { by, .. } => self.stop_in(node, planned, by),
        }
    }

    // A line that is carried out: it marks where the fabric enters the table, or leaves it by a line of others.
    fn go_on(
        &mut self,
        node: &mut Playing<'_>,
        event: &Event,
        planned: Planned,
    ) -> Result<(), AllocError>
        requires journal { IsOnJournal node.old }
        requires made { IsMade node.old planned }
        ensures { OnOk result (IsOnJournal node.new) }
    {
        let was = node.has(self.fabric);
        let is_own = node.acts_for(event) == self.fabric;
        node.carry_out(planned)?;
        match (was, node.has(self.fabric)) {
            (false, true) => self.count(Kind::Enters, None),
            (true, false) if !is_own => self.count(Kind::Leaves, None),
            _ => {}
        }
        Ok(())
    }

    // A line in which the disk stops: it marks the reopening, and that this took the fabric where it did.
    fn stop_in(
        &mut self,
        node: &mut Playing<'_>,
        planned: Planned,
        by: ComingStop,
    ) -> Result<(), AllocError>
        requires journal { IsOnJournal node.old }
        requires made { IsMade node.old planned }
        ensures { OnOk result (IsOnJournal node.new) }
    {
        let stop = Event::Stop {
            calls: by.asked,
            fate: by.fate,
        };
        let was = node.has(self.fabric);
        let mark = node.shown(self.fabric, &stop)?;
        node.carry_out(planned)?;
        self.count(Kind::Reopened, Some(mark));
        if was && !node.has(self.fabric) {
            self.count(Kind::Leaves, None);
        }
        Ok(())
    }

    // Counts a mark, and keeps it where it is the one that is looked for.
    fn count(&mut self, kind: Kind, mark: Option<Mark>) {
        if self.left == 1 {
            self.found = Some(Stand {
                kind,
                line: self.line,
                mark,
            });
        }
        self.left = self.left.saturating_sub(1);
    }
}
