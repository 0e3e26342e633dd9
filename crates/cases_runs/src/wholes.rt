//! Whether what is a fabric's own is the same behind two recordings.

use cases_page::{Page, byte, word};
use mt_files::{config as configuration, events};
use mt_model::{Config, Event};
use mt_play::Playing;
use std::alloc::{AllocError, Global};
use std::{fs, io};

/// Tells of a case whether the two are alike. A case is `NAME|FABRIC|CONFIGURATION|FIRST|SECOND`. The configuration is
/// the name of a file; in a recording `/` ends a line.
pub(crate) fn tell(rt: &HostRuntime, page: &mut Page, case: &str) -> io::Result<()> {
    let alloc = rt.alloc();
    let words: Vec<&str> = case.split('|').collect(alloc)?;
    let bytes = fs::read(rt, word(&words, 2))?;
    page.add(word(&words, 0));
    match configuration(alloc, &bytes) {
        Ok(config) => page.line(told(alloc, &config, &words)?),
        Err(_) => page.line(": no configuration"),
    }
    Ok(())
}

// A recording that can't be read is none.
fn told(alloc: Global, config: &Config, words: &[&str]) -> Result<&'static str, AllocError> {
    let fabric = byte(words, 1);
    let one = behind(alloc, config, word(words, 3))?;
    let other = behind(alloc, config, word(words, 4))?;
    Ok(match (&one, &other) {
        (Some(one), Some(other)) if one.alike(other, fabric) => ": alike",
        (Some(_), Some(_)) => ": not alike",
        _ => ": no recording",
    })
}

// The node behind a recording.
fn behind<'a>(
    alloc: Global,
    config: &'a Config,
    recording: &str,
) -> Result<Option<Playing<'a>>, AllocError> {
    let text = recording.replace(alloc, '/', "\n")?;
    match events(alloc, text.as_bytes()) {
        Ok(events) => Ok(Some(played(alloc, config, events.as_slice())?)),
        Err(_) => Ok(None),
    }
}

fn played<'a>(
    alloc: Global,
    config: &'a Config,
    events: &[Event],
) -> Result<Playing<'a>, AllocError> {
    let mut node = Playing::start(alloc, config)?;
    for event in events {
        node.step(event)?;
    }
    Ok(node)
}
