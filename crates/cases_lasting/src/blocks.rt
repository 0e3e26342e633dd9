//! What lasts of a node, case by case. A case is a block of lines: `case NAME CONFIGURATION`, the configuration the name of a file; then
//! the lines of a recording behind its head; then `end`.

use crate::plays::told;
use cases_page::{Page, no_case, word};
use mt_files::{config as configuration, events};
use std::alloc::{AllocError, Global};
use std::{fs, io};

// The first line of each recording.
const HEAD: &str = "matter-record 1\n";

/// Tells what is kept behind the recording of each case.
pub(crate) fn tell(rt: &HostRuntime, page: &mut Page, text: &str) -> io::Result<()> {
    let alloc = rt.alloc();
    let mut words = String::new(alloc);
    let mut recording = String::from_str(alloc, HEAD)?;
    for line in text.lines() {
        if let Some(case) = line.strip_prefix("case ") {
            words = String::from_str(alloc, case)?;
            recording = String::from_str(alloc, HEAD)?;
        } else if line == "end" {
            tell_case(rt, page, words.as_str(), recording.as_bytes())?;
        } else {
            push_line(&mut recording, line)?;
        }
    }
    Ok(())
}

fn push_line(recording: &mut String, line: &str) -> Result<(), AllocError> {
    recording.push_str(line)?;
    recording.push_str("\n")
}

fn tell_case(rt: &HostRuntime, page: &mut Page, words: &str, recording: &[u8]) -> io::Result<()> {
    let alloc = rt.alloc();
    let words: Vec<&str> = words.split(' ').collect(alloc)?;
    let bytes = fs::read(rt, word(&words, 1))?;
    page.line(word(&words, 0));
    tell_recording(alloc, page, &bytes, recording)
}

fn tell_recording(
    alloc: Global,
    page: &mut Page,
    config: &[u8],
    recording: &[u8],
) -> io::Result<()> {
    let Ok(config) = configuration(alloc, config) else {
        return Err(no_case());
    };
    let Ok(events) = events(alloc, recording) else {
        return Err(no_case());
    };
    told(alloc, page, &config, events.as_slice())?;
    Ok(())
}
