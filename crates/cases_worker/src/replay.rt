//! What a node alone sends for the lines of a book, and whether that is what an outlet was given.

use crate::work::owner_of;
use cases_page::{Page, no_case};
use mt_files::{read_output, write_event};
use mt_model::{Config, Event, ExactCopy, Sent, SentList, To};
use mt_outside::{MemSink, MemSource, Parcel, Peer};
use mt_shared::Entry;
use mt_top::replay_with;
use std::alloc::{AllocError, Global};
use std::io;

/// What a node alone sends, with this configuration, for the lines of a book at the times at which they were done.
pub(crate) fn replayed(alloc: Global, config: &Config, book: &[Entry]) -> io::Result<SentList> {
    let mut text = Vec::from_slice(alloc, b"matter-record 1\n")?;
    for entry in book {
        if entry.stop.is_none() {
            write_event(&done_event(entry)?, &mut text)?;
        }
    }
    let mut source = MemSource::new(alloc, &text, &[])?;
    let mut sink = MemSink::new(alloc, &[])?;
    if replay_with(alloc, config, &mut source, &mut sink) != 0 {
        return Err(no_case());
    }
    match read_output(alloc, sink.bytes()) {
        Ok(sent) => Ok(sent),
        Err(_) => Err(no_case()),
    }
}

/// What an entry's line tells, at the time at which it was done.
pub(crate) fn done_event(entry: &Entry) -> Result<Event, AllocError> {
    let done = entry.ms;
    match &entry.call.event {
        Event::Datagram { ms: _, peer, bytes } => Ok(Event::Datagram {
            ms: done,
            peer: *peer,
            bytes: bytes.copy()?,
        }),
        Event::Tick { ms: _ } => Ok(Event::Tick { ms: done }),
        Event::Report {
            ms: _,
            fabric,
            subscription,
        } => Ok(Event::Report {
            ms: done,
            fabric: *fabric,
            subscription: *subscription,
        }),
        Event::Resend { ms: _, session } => Ok(Event::Resend {
            ms: done,
            session: *session,
        }),
        other => other.copy(),
    }
}

/// Adds whether an outlet was given what a node alone sends to the peers of its worker's sessions: all of it, the first of it, or
/// else the first that differs.
pub(crate) fn add_compared(
    alloc: Global,
    page: &mut Page,
    config: &Config,
    number: u32,
    workers: u32,
    given: &[Parcel],
    sent: &[Sent],
) -> io::Result<()> {
    let mut mine = Page::new(alloc);
    for parcel in given {
        add_message(&mut mine, parcel.to, parcel.bytes.as_slice());
    }
    let mut theirs = Page::new(alloc);
    for message in sent {
        add_sent(&mut theirs, config, number, workers, message);
    }
    add_difference(page, given.len(), mine.whole()?, theirs.whole()?);
    Ok(())
}

fn add_sent(page: &mut Page, config: &Config, number: u32, workers: u32, message: &Sent) {
    let session = session_of(config, message.bytes.as_slice());
    let owner = session.map(|session| owner_of(session, workers));
    match message.to {
        To::Session { peer, .. } if owner == Some(number) => {
            add_message(page, peer, message.bytes.as_slice());
        }
        _ => {}
    }
}

// The node's id of the session to whose peer a datagram goes, which names the peer's.
fn session_of(config: &Config, bytes: &[u8]) -> Option<u16> {
    let low = *bytes.get(1)?;
    let high = *bytes.get(2)?;
    let named = u16::from_le_bytes([low, high]);
    for row in config.sessions.as_slice() {
        if row.boot == 1 && row.peer_session == named {
            return Some(row.session);
        }
    }
    None
}

/// Adds a datagram and to whom it goes, as a line.
pub(crate) fn add_message(page: &mut Page, to: Peer, bytes: &[u8]) {
    page.add_hex(&to.ip);
    page.add_hex(&to.port.to_be_bytes());
    page.add(" ");
    page.add_hex(bytes);
    page.end_line();
}

fn add_difference(page: &mut Page, count: usize, mine: &str, theirs: &str) {
    if mine == theirs {
        page.add("as replayed");
    } else if theirs.starts_with(mine) {
        page.add("the first ");
        page.add_number(count as u64);
        page.add(" as replayed");
    } else {
        add_first(page, mine, theirs);
    }
}

fn add_first(page: &mut Page, mine: &str, theirs: &str) {
    let mut others = theirs.lines();
    for line in mine.lines() {
        let other = others.next().unwrap_or("nothing");
        if line != other {
            page.add("given ");
            page.add(line);
            page.add(", replayed ");
            page.add(other);
            return;
        }
    }
}
