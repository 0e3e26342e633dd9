//! Runs as they are shown to people.

ghost use Rattle.std.specs.Prelude.{OnOk};
ghost use Rattle.mt_play.specs.Plays.{IsOnJournal};

use cases_page::{Page, byte, word};
use mt_files::{config as configuration, events};
use mt_lens::{Came, DiskStop, Line, Teller, show_faulty_line, show_words};
use mt_model::{Config, Event, LineFault};
use mt_play::{Course, Planned, Playing};
use std::alloc::{AllocError, Global};
use std::{fs, io};

/// The run that is shown: the node, and who tells of it.
struct Show<'a> {
    node: Playing<'a>,
    teller: Teller,
}

impl<'a> Drop for Show<'a> {
    fn drop(self) {
        let Show { node: _, teller: _ } = self;
    }
}

/// Tells what is shown of a case in words. A case is `NAME|FABRIC|CONFIGURATION|RECORDING`: of the fabric alone, or of `all`.
/// The configuration is the name of a file; in the recording `/` ends a line, `\` stands for a carriage return and `^` for
/// an escape.
pub(crate) fn tell(rt: &HostRuntime, page: &mut Page, case: &str) -> io::Result<()> {
    let alloc = rt.alloc();
    let words: Vec<&str> = case.split('|').collect(alloc)?;
    let bytes = fs::read(rt, word(&words, 2))?;
    page.add(word(&words, 0));
    page.line(":");
    match configuration(alloc, &bytes) {
        Ok(config) => tell_run(alloc, page, &config, &words)?,
        Err(_) => page.line("no configuration"),
    }
    Ok(())
}

fn tell_run(
    alloc: Global,
    page: &mut Page,
    config: &Config,
    words: &[&str],
) -> Result<(), AllocError> {
    let recording = spelled(alloc, word(words, 3))?;
    let bytes = recording.as_bytes();
    let shown = match events(alloc, bytes) {
        Ok(events) => played(alloc, config, fabric(words), events.as_slice())?,
        Err(fault) => faulty(alloc, bytes, fault),
    };
    page.add_lossy(shown.whole()?);
    Ok(())
}

// The one fabric that is shown, None where all are.
fn fabric(words: &[&str]) -> Option<u8> {
    if word(words, 1) == "all" {
        return None;
    }
    Some(byte(words, 1))
}

// What is wrong with a recording that is none for one of its lines.
fn faulty(alloc: Global, recording: &[u8], fault: LineFault) -> mt_lens::Page {
    let mut page = mt_lens::Page::new(alloc, false);
    if let LineFault::Line { line, kind } = fault {
        show_faulty_line(&mut page, recording, line, kind);
    }
    page
}

fn spelled(alloc: Global, recording: &str) -> Result<String, AllocError> {
    let text = recording.replace(alloc, '/', "\n")?;
    let text = text.as_str().replace(alloc, '\\', "\r")?;
    text.as_str().replace(alloc, '^', "\x1b")
}

fn played(
    alloc: Global,
    config: &Config,
    fabric: Option<u8>,
    events: &[Event],
) -> Result<mt_lens::Page, AllocError> {
    let mut show = Show {
        node: Playing::start(alloc, config)?,
        teller: Teller::new(alloc, config, fabric)?,
    };
    let mut page = mt_lens::Page::new(alloc, false);
    let mut number = 2u64;
    for event in events {
        show.play(&mut page, number, event)?;
        number = number.saturating_add(1);
    }
    Ok(page)
}

impl<'a> Show<'a> {
    // Plays a line; what is to be shown of it is on the page.
    fn play(
        &mut self,
        page: &mut mt_lens::Page,
        number: u64,
        event: &Event,
    ) -> Result<(), AllocError>
        requires { IsOnJournal self.old.node }
        ensures { OnOk result (IsOnJournal self.new.node) }
    {
        let planned = self.node.plan(event)?;
        let came = came_of(&planned);
        tell_line(&self.node, &mut self.teller, page, number, event, came)?;
        self.node.carry_out(planned)?;
        Ok(())
    }
}

// Tells of a line that the node is about to play, where it is to be shown.
fn tell_line(
    node: &Playing<'_>,
    teller: &mut Teller,
    page: &mut mt_lens::Page,
    number: u64,
    event: &Event,
    came: Came<'_>,
) -> Result<(), AllocError> {
    let line = Line {
        number,
        event,
        sessions: node.sessions(),
        armed: node.armed(),
        came,
    };
    if let Some(told) = teller.told(&line)? {
        show_words(page, &told);
    }
    Ok(())
}

// What is to come of a planned line.
fn came_of(planned: &Planned) -> Came<'_> {
    match planned.course() {
        Course::Goes(_) => Came::Sent(match planned.outcome() {
            Some(outcome) => outcome.sent.as_slice(),
            None => &[],
        }),
        Course::Stops { by, survives } => Came::Stopped(DiskStop {
            calls: by.asked,
            fate: by.fate,
            change: match planned.outcome() {
                Some(outcome) => outcome.change(),
                None => &[],
            },
            survives,
        }),
    }
}
