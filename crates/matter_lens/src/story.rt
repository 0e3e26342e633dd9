//! The recording, line by line, with what came of each.

ghost use Rattle.std.specs.Prelude.{OnOk};
ghost use Rattle.mt_play.specs.Plays.{IsOnJournal};

use crate::faults::Fault;
use crate::options::Options;
use crate::why;
use mt_lens::{Came, DiskStop, Line, Page, Teller, show_object, show_words};
use mt_model::{Config, Event, Events};
use mt_play::{Course, Planned, Playing};
use std::alloc::{AllocError, Global};
use std::io::{self, IsTerminal, Write};

/// How many bytes of text are written at a time.
const PART: usize = 65_536;

/// What has been told, and what that needs.
#[derive(Drop)]
struct Story<'a> {
    alloc: Global,
    options: Options<'a>,
    config: &'a Config,
    // what stands in front of the page, where it is told why
    text: Vec<u8>,
    page: Page,
    teller: Teller,
}

/// Plays the recording, and shows each line with what came of it.
pub(crate) fn tell(
    rt: &HostRuntime,
    options: &Options<'_>,
    config: &Config,
    events: &Events,
) -> Result<(), Fault> {
    let alloc = rt.alloc();
    let teller = Teller::new(alloc, config, options.fabric)?;
    let mut node = Playing::start(alloc, config)?;
    let mut story = Story {
        alloc,
        options: *options,
        config,
        text: Vec::new(alloc),
        page: Page::new(alloc, rt.stdout().is_terminal()),
        teller,
    };
    story.play(rt, &mut node, events.as_slice())
}

impl Story<'_> {
    // Plays the lines.
    fn play(
        &mut self,
        rt: &HostRuntime,
        node: &mut Playing<'_>,
        events: &[Event],
    ) -> Result<(), Fault>
        requires { IsOnJournal node.old }
    {
        let mut line = 2u64;
        for event in events {
            self.step(node, line, event)?;
            self.write_part(rt)?;
            line = line.saturating_add(1);
        }
        self.write(rt)
    }

    // Writes what has been told, where it is long.
    fn write_part(&mut self, rt: &HostRuntime) -> Result<(), Fault> {
        if self.page.len() < PART && self.text.len() < PART {
            return Ok(());
        }
        self.write(rt)
    }

    // Plays a line and tells of it.
    fn step(&mut self, node: &mut Playing<'_>, line: u64, event: &Event) -> Result<(), AllocError>
        requires { IsOnJournal node.old }
        ensures { OnOk result (IsOnJournal node.new) }
    {
        let planned = node.plan(event)?;
        self.tell(node, line, event, &planned)?;
        node.carry_out(planned)?;
        Ok(())
    }

    // Tells of a line that the node is about to play, where it is to be shown.
    fn tell(
        &mut self,
        node: &Playing<'_>,
        number: u64,
        event: &Event,
        planned: &Planned,
    ) -> Result<(), AllocError> {
        let line = Line {
            number,
            event,
            sessions: node.sessions(),
            armed: node.armed(),
            came: came_of(planned),
        };
        let Some(told) = self.teller.told(&line)? else {
            return Ok(());
        };
        if self.options.words {
            show_words(&mut self.page, &told);
        }
        if self.options.words && self.options.why {
            self.tell_why(node, event, planned)?;
        }
        if self.options.json {
            show_object(&mut self.page, &told);
        }
        self.page.whole()?;
        Ok(())
    }

    // Tells why a line is sent nothing or is refused something, behind what is on the page.
    fn tell_why(
        &mut self,
        node: &Playing<'_>,
        event: &Event,
        planned: &Planned,
    ) -> Result<(), AllocError> {
        self.text.extend_from_slice(self.page.whole()?)?;
        self.page.cut(0);
        why::tell(
            self.alloc,
            &mut self.text,
            self.config,
            node,
            event,
            planned,
        )
    }

    // Writes what has been told.
    fn write(&mut self, rt: &HostRuntime) -> Result<(), Fault> {
        let Ok(()) = io::writer(rt).write_all(self.text.as_slice()) else {
            return Err(Fault::Unwritten);
        };
        self.text.clear();
        match io::writer(rt).write_all(self.page.whole()?) {
            Ok(()) => {
                self.page.cut(0);
                Ok(())
            }
            Err(_) => Err(Fault::Unwritten),
        }
    }
}

// What is to come of a planned line.
fn came_of(planned: &Planned) -> Came<'_> {
    match planned.course() {
        Course::Goes(_) => Came::Sent(match planned.outcome() {
            Some(outcome) => outcome.sent.as_slice(),
            None => &[],
        }),
        Course::Stops { by, survives } => Came::Stopped(DiskStop {
            calls: by.asked,
            fate: by.fate,
            change: match planned.outcome() {
                Some(outcome) => outcome.change(),
                None => &[],
            },
            survives,
        }),
    }
}
