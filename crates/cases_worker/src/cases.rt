//! What a case says. It is `NAME|CONFIGURATION|WORKERS|SENDS|COMMITS|RECORDING`: the name of the configuration's file, how many
//! workers there are, the numbers of the calls that fail, of each outlet and of the keeper, and a recording without its head, in
//! which `/` ends a line. Its `D` lines are the datagrams that come, and each `T` line is a wake.

ghost use Rattle.std.specs.Prelude.{◌≤◌, All, IfOk};
ghost use Rattle.cases_worker.specs.declared.cases.TheConstants.{WORKERS};
ghost use Rattle.mt_files.specs.Form.{HasForm};

use cases_page::{id, no_case, word};
use mt_files::{config as configuration, events, events_have_a_form};
use mt_model::{Config, Events};
use std::alloc::{AllocError, Global};
use std::{fs, io};

/// The most workers of a case.
pub(crate) const WORKERS: u32 = 8;

/// A case.
#[derive(Drop)]
pub(crate) struct Case {
    pub(crate) name: String,
    pub(crate) config: Config,
    pub(crate) workers: u32,
    pub(crate) sends: Vec<u64>,
    pub(crate) commits: Vec<u64>,
    recording: String,
    pub(crate) ghost few: { workers ≤ WORKERS },
}

impl Case {
    /// What comes.
    pub(crate) fn events(&self, alloc: Global) -> io::Result<Events>
        ensures { IfOk result (All HasForm) }
    {
        events_have_a_form();
        let Ok(events) = events(alloc, self.recording.as_bytes()) else {
            return Err(no_case());
        };
        Ok(events)
    }
}

/// The case of a line.
pub(crate) fn read(rt: &HostRuntime, line: &str) -> io::Result<Case> {
    let alloc = rt.alloc();
    let words: Vec<&str> = line.split('|').collect(alloc)?;
    let bytes = fs::read(rt, word(&words, 1))?;
    let Ok(config) = configuration(alloc, &bytes) else {
        return Err(no_case());
    };
    let lines = word(&words, 5).replace(alloc, '/', "\n")?;
    let mut recording = String::from_str(alloc, "matter-record 1\n")?;
    recording.push_str(lines.as_str())?;
    Ok(Case {
        name: String::from_str(alloc, word(&words, 0))?,
        config,
        workers: id(&words, 2).clamp(1, WORKERS),
        sends: numbers(alloc, word(&words, 3))?,
        commits: numbers(alloc, word(&words, 4))?,
        recording,
    })
}

// The numbers of a text, between which spaces stand.
fn numbers(alloc: Global, text: &str) -> Result<Vec<u64>, AllocError> {
    let mut all = Vec::new(alloc);
    for word in text.split_whitespace() {
        if let Ok(number) = word.parse::<u64>() {
            all.push(number)?;
        }
    }
    Ok(all)
}
