//! Datagrams as lines.

use cases_page::Page;
use mt_files::{events, write_sent};
use mt_model::{Event, Sent, To};
use mt_outside::Peer;
use mt_tlv::Bytes;
use std::alloc::{AllocError, Global};

// The node's id of the session on which they are sent; no line has it.
const SESSION: u16 = 1;

/// Tells the line of each datagram of a recording, in which `/` ends a line, as it is sent back at once.
pub(crate) fn tell_sent(alloc: Global, page: &mut Page, case: &str) -> Result<(), AllocError> {
    let text = case.replace(alloc, '/', "\n")?;
    match events(alloc, text.as_bytes()) {
        Ok(events) => tell_events(alloc, page, events.as_slice()),
        Err(_) => {
            page.add("no recording: ");
            page.line(case);
            Ok(())
        }
    }
}

fn tell_events(alloc: Global, page: &mut Page, events: &[Event]) -> Result<(), AllocError> {
    for event in events {
        if let Event::Datagram { ms, peer, bytes } = event {
            tell_datagram(alloc, page, *ms, *peer, bytes)?;
        }
    }
    Ok(())
}

fn tell_datagram(
    alloc: Global,
    page: &mut Page,
    ms: u64,
    peer: Peer,
    bytes: &Bytes,
) -> Result<(), AllocError> {
    let sent = Sent {
        ms,
        to: To::Session {
            session: SESSION,
            peer,
        },
        bytes: bytes.copy()?,
    };
    let mut line = Vec::new(alloc);
    write_sent(&sent, &mut line)?;
    page.add_lossy(&line);
    Ok(())
}
