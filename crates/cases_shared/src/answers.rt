//! Answers, as they are printed.

use cases_page::{Page, no_case};
use mt_files::write_event;
use mt_im_out::chunks;
use mt_model::{Event, Reply};
use mt_shared::{ActFault, Answer, Stamped, Stop};
use std::alloc::{AllocError, Global};
use std::io;

/// Adds what a call answered: its place, its time, and the answer; or why it was refused.
pub(crate) fn add_acted(
    alloc: Global,
    page: &mut Page,
    acted: &Result<Stamped, ActFault>,
) -> Result<(), AllocError> {
    match acted {
        Ok(stamped) => {
            page.add_number(stamped.place);
            page.add(" at ");
            page.add_number(stamped.ms);
            add_answer(alloc, page, &stamped.answer)?;
        }
        Err(ActFault::Stopped(stop)) => add_stop(page, *stop),
        Err(ActFault::RecordFull { .. }) => page.add("full"),
        Err(ActFault::Memory) => page.add("no memory"),
    }
    page.end_line();
    Ok(())
}

// Of whom the answer is, which sessions end, and its payloads, each with its opcode.
fn add_answer(alloc: Global, page: &mut Page, answer: &Answer) -> Result<(), AllocError> {
    if let Some(fabric) = answer.fabric {
        page.add(" of ");
        page.add_number(u64::from(fabric));
    }
    for session in answer.closed.as_slice() {
        page.add(" ends ");
        page.add_number(u64::from(*session));
    }
    add_reply(alloc, page, &answer.reply)
}

// The payloads of a reply, each with its opcode.
fn add_reply(alloc: Global, page: &mut Page, reply: &Reply) -> Result<(), AllocError> {
    for payload in chunks(alloc, reply)?.as_slice() {
        page.add(" ");
        page.add_hex(&[payload.opcode]);
        page.add(" ");
        page.add_hex(payload.bytes.as_slice());
    }
    Ok(())
}

/// Adds a stop: its place, and how many faults the keeper counted before it and behind it.
pub(crate) fn add_stop(page: &mut Page, stop: Stop) {
    page.add("stopped at ");
    page.add_number(stop.place);
    page.add(", faults ");
    page.add_number(stop.before);
    page.add(" to ");
    page.add_number(stop.after);
}

/// The line of what was told.
pub(crate) fn line_of(alloc: Global, event: &Event) -> io::Result<String> {
    let mut line = Vec::new(alloc);
    write_event(event, &mut line)?;
    line.pop();
    let Ok(text) = String::from_utf8(line) else {
        return Err(no_case());
    };
    Ok(text)
}
