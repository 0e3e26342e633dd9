//! Recordings: what keeps a text from being one, or its events, written again.

use crate::pieces::spelled;
use cases_page::Page;
use mt_files::{events, write_event};
use mt_model::Event;
use std::alloc::{AllocError, Global};

/// Tells a case, and the first fault of the recording that it is, or its events, written again. In a case `/`
/// ends a line, and `\` stands for a carriage return.
pub(crate) fn tell(alloc: Global, page: &mut Page, case: &str) -> Result<(), AllocError> {
    let text = recording(alloc, case)?;
    match events(alloc, text.as_bytes()) {
        Ok(events) => {
            page.add_number(events.len() as u64);
            tell_case(page, " events: ", case);
            tell_events(alloc, page, events.as_slice());
        }
        Err(fault) => {
            page.add_shown(&fault);
            tell_case(page, ": ", case);
        }
    }
    Ok(())
}

fn tell_case(page: &mut Page, word: &str, case: &str) {
    page.add(word);
    page.line(case);
}

fn tell_events(alloc: Global, page: &mut Page, events: &[Event]) {
    for event in events {
        let mut line = Vec::new(alloc);
        if write_event(event, &mut line).is_err() {
            page.leave_gap();
        }
        page.add_lossy(&line);
    }
}

fn recording(alloc: Global, case: &str) -> Result<String, AllocError> {
    let text = spelled(alloc, case, '~')?;
    let text = text.as_str().replace(alloc, '/', "\n")?;
    text.as_str().replace(alloc, '\\', "\r")
}
