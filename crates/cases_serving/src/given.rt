//! What was given to outlets, and what is sent, over a session.

use cases_page::Page;
use mt_model::{Sent, To};
use mt_outside::{MemOutlet, Peer};
use std::alloc::Global;

/// What the outlets were given over the session that has this number at its peer, a line for each datagram.
pub(crate) fn given_over(alloc: Global, session: u16, outlets: &[MemOutlet]) -> Page {
    let mut lines = Page::new(alloc);
    for outlet in outlets {
        add_given(&mut lines, session, outlet);
    }
    lines
}

fn add_given(lines: &mut Page, session: u16, outlet: &MemOutlet) {
    for parcel in outlet.given() {
        add_over(lines, session, parcel.to, parcel.bytes.as_slice());
    }
}

/// What is sent over it, likewise.
pub(crate) fn sent_over(alloc: Global, session: u16, sent: &[Sent]) -> Page {
    let mut lines = Page::new(alloc);
    for message in sent {
        if let To::Session { peer, .. } = message.to {
            add_over(&mut lines, session, peer, message.bytes.as_slice());
        }
    }
    lines
}

// Adds a datagram, where it goes over this session.
fn add_over(lines: &mut Page, session: u16, to: Peer, bytes: &[u8]) {
    if session_of(bytes) == Some(session) {
        lines.add_number(u64::from(session));
        lines.add(" ");
        lines.add_hex(&to.ip);
        lines.add_hex(&to.port.to_be_bytes());
        lines.add(" ");
        lines.add_hex(bytes);
        lines.end_line();
    }
}

// The number of the session at the peer, which the header names.
fn session_of(bytes: &[u8]) -> Option<u16> {
    let low = *bytes.get(1)?;
    let high = *bytes.get(2)?;
    Some(u16::from_le_bytes([low, high]))
}
