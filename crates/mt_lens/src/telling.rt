//! A line of a recording and what came of it, in words.

ghost use Rattle.std.specs.Io.{StartsWith};

use crate::answers::show_answer;
use crate::page::{Colour, Page};
use crate::restarts::{show_restart, show_stop};
use crate::told::{Content, Expiry, Letter, Message, Outcome, Owner, Told};
use crate::words::{ITEM, MESSAGE, show_malformed, show_message_name, show_request};
use mt_frame::ProtocolHeader;
use mt_im::decode;
use mt_model::opcode::STATUS_RESPONSE;
use mt_model::{Auth, Event, Standing, To};
use mt_outside::Peer;

/// The protocol of the interaction model, and the one of secure channels with its acknowledgement
/// (Matter Core Specification, section 4.4.3, Protocol Header).
pub(crate) const INTERACTION_MODEL: u16 = 1;

const SECURE_CHANNEL: u16 = 0;

const ACKNOWLEDGEMENT: u8 = 0x10;

/// Adds what a line tells and what was sent for it, in words. Where there is no memory for that, the page knows.
pub fn show_words(page: &mut Page, told: &Told<'_>)
    ensures kept { StartsWith page.new page.old }
{
    let mut line = page.fresh(told.room());
    show_line(&mut line, told);
    page.append(&line);
}

fn show_line(page: &mut Page, told: &Told<'_>) {
    page.begin(Colour::Head);
    if told.is_of_others {
        show_others(page, told.event);
    } else {
        show_event(page, told);
    }
    page.end();
    show_asked(page, told);
    match &told.outcome {
        Outcome::Sent(messages) => show_messages(page, told.event, messages.as_slice()),
        Outcome::Restarted(restart) => show_restart(page, restart),
    }
}

// A line of which nothing is told but when it was.
fn show_others(page: &mut Page, event: &Event) {
    match event {
        Event::Ask { ms, .. }
        | Event::Datagram { ms, .. }
        | Event::Tick { ms }
        | Event::Report { ms, .. }
        | Event::Resend { ms, .. } => show_time(page, *ms),
        Event::Stop { .. } => page.blanks(MESSAGE),
    }
    page.text("a line of others")
}

// When it was, and what happened or who asks.
fn show_event(page: &mut Page, told: &Told<'_>) {
    match told.event {
        Event::Ask {
            ms,
            fabric,
            node,
            cats,
            ..
        } => {
            show_time(page, *ms);
            show_actor(page, *fabric, *node, cats)
        }
        Event::Datagram { ms, peer, .. } => {
            show_time(page, *ms);
            show_peer(page, peer)
        }
        Event::Tick { ms } => {
            show_time(page, *ms);
            show_passing(page, told.expiry)
        }
        Event::Report {
            ms,
            fabric,
            subscription,
        } => {
            show_time(page, *ms);
            page.text("fabric ");
            page.number(*fabric as u64);
            page.text(", subscription ");
            page.number(*subscription as u64);
            page.text(" may report")
        }
        Event::Resend { ms, session } => {
            show_time(page, *ms);
            page.text("session ");
            page.number(*session as u64);
            page.text(" may send again what was not acknowledged")
        }
        Event::Stop { calls, fate } => show_stop(page, *calls, *fate),
    }
}

// What a step of time came to.
fn show_passing(page: &mut Page, expiry: Option<Expiry>) {
    let Some(expiry) = expiry else {
        return page.text("time goes on");
    };
    page.text("the fail-safe expires: ");
    show_taken_back(page, expiry)
}

/// What an expiry of the fail-safe takes back.
pub(crate) fn show_taken_back(page: &mut Page, expiry: Expiry) {
    page.text("the networks are those from before");
    if let Some(fabric) = expiry.added {
        page.text(", fabric ");
        page.number(fabric as u64);
        page.text(" leaves");
    }
    if let Some(fabric) = expiry.updated {
        page.text(", fabric ");
        page.number(fabric as u64);
        page.text(" has its earlier credentials");
    }
}

// The time, in a column of its own.
fn show_time(page: &mut Page, ms: u64) {
    let before = page.len();
    page.number(ms);
    page.text(" ms ");
    let width = page.len().saturating_sub(before);
    page.blanks(MESSAGE.saturating_sub(width))
}

// Who asks.
fn show_actor(page: &mut Page, fabric: u8, node: u64, cats: &[u32; 3]) {
    if fabric == 0 {
        return page.text("the commissioner over PASE");
    }
    page.text("fabric ");
    page.number(fabric as u64);
    page.text(", node ");
    page.octets(&node.to_be_bytes());
    let mut is_first = true;
    for cat in cats {
        if *cat != 0 {
            page.text(if is_first { " with CAT " } else { ", CAT " });
            is_first = false;
            show_cat(page, *cat);
        }
    }
}

fn show_cat(page: &mut Page, cat: u32) {
    let [a, b, c, d] = cat.to_be_bytes();
    page.octets(&[a, b]);
    page.text(" version ");
    page.number(u16::from_be_bytes([c, d]) as u64)
}

// An address and a port.
fn show_peer(page: &mut Page, peer: &Peer) {
    let [a, b, c, d, e, f, g, h, i, j, k, l, m, n, o, p] = peer.ip;
    if [a, b, c, d, e, f, g, h, i, j] == [0; 10] && [k, l] == [0xff; 2] {
        let mut is_first = true;
        for part in [m, n, o, p] {
            if !is_first {
                page.byte(b'.');
            }
            is_first = false;
            page.number(part as u64);
        }
    } else {
        show_groups(page, &peer.ip)
    }
    page.byte(b':');
    page.number(peer.port as u64)
}

// An address of IPv6 in eight groups.
fn show_groups(page: &mut Page, ip: &[u8; 16]) {
    page.byte(b'[');
    let mut count = 0u8;
    for octet in ip {
        if count > 0 && count % 2 == 0 {
            page.byte(b':');
        }
        count = count.saturating_add(1);
        page.octets(&[*octet]);
    }
    page.byte(b']');
}

// What is asked, behind who asks.
fn show_asked(page: &mut Page, told: &Told<'_>) {
    if let Some(letter) = &told.letter {
        page.text(" sends a datagram");
        return show_letter(page, letter, true);
    }
    let Event::Ask {
        opcode,
        payload,
        ..
    } = told.event
    else {
        return page.end_line();
    };
    let Some(asked) = &told.asked else {
        return page.end_line();
    };
    page.text(if *opcode == STATUS_RESPONSE {
        " sends "
    } else {
        " asks "
    });
    match asked {
        Ok(request) => show_request(page, *opcode, request),
        Err(fault) => show_malformed(page, *opcode, payload.as_slice(), *fault),
    }
}

// What was sent.
fn show_messages(page: &mut Page, event: &Event, messages: &[Message<'_>]) {
    let asker = match event {
        Event::Ask { fabric, .. } => Some(*fabric),
        _ => None,
    };
    if messages.is_empty() && asker.is_some() {
        page.blanks(MESSAGE);
        return page.text("is sent nothing\n");
    }
    for message in messages {
        page.blanks(MESSAGE);
        show_message(page, asker, message);
    }
}

fn show_message(page: &mut Page, asker: Option<u8>, message: &Message<'_>) {
    let bytes = message.sent.bytes.as_slice();
    match message.sent.to {
        To::Plain { fabric, opcode } => {
            if asker != Some(fabric) {
                page.text("fabric ");
                page.number(fabric as u64);
                page.byte(b' ');
            }
            page.text("is sent ");
            show_answer(page, opcode, bytes);
        }
        To::Session { peer, .. } => {
            show_peer(page, &peer);
            page.text(" is sent a datagram");
            match &message.letter {
                Some(letter) => show_letter(page, letter, false),
                None => page.end_line(),
            }
        }
    }
}

// What stands in a datagram: its session and headers, and the message in it.
fn show_letter(page: &mut Page, letter: &Letter, is_received: bool) {
    page.text(" of ");
    page.number(letter.length as u64);
    page.text(" bytes");
    show_session(page, letter);
    match &letter.content {
        Content::Open { header, payload } => {
            show_header(page, header);
            page.end_line();
            page.blanks(MESSAGE);
            page.text(if is_received { "asks " } else { "is sent " });
            show_payload(page, header, payload.as_slice(), is_received)
        }
        Content::Again(header) => {
            show_header(page, header);
            page.text(", which was let in before\n")
        }
        Content::Closed(reason) => {
            page.text(", which can't be opened: ");
            page.begin(Colour::Refusal);
            page.text(reason);
            page.end();
            page.end_line()
        }
    }
}

// The session and the counter that its header names.
fn show_session(page: &mut Page, letter: &Letter) {
    let Some(heading) = letter.heading else {
        return;
    };
    match &letter.owner {
        Some(owner) => show_owner(page, owner),
        None => {
            page.text(" on session ");
            page.number(heading.session as u64);
        }
    }
    page.text(", counter ");
    page.number(heading.counter as u64)
}

fn show_owner(page: &mut Page, owner: &Owner) {
    page.text(" on session ");
    page.number(owner.session as u64);
    if owner.auth == Auth::Pase {
        show_pase(page, owner.fabric())
    } else {
        show_peer_node(page, owner.fabric(), owner.node)
    }
    match owner.standing {
        Standing::Live(_) => {}
        Standing::Waits => page.text(", which waits for its fabric"),
        Standing::Ended => page.text(", which has ended"),
    }
}

// Who asks over a session of PASE, with the fabric that it has joined.
fn show_pase(page: &mut Page, fabric: Option<u8>) {
    page.text(" of PASE");
    if let Some(fabric) = fabric {
        if fabric != 0 {
            page.text(" with fabric ");
            page.number(fabric as u64);
        }
    }
}

// Who asks over a session of CASE, with the fabric for which it is live.
fn show_peer_node(page: &mut Page, fabric: Option<u8>, node: u64) {
    page.text(" of ");
    if let Some(fabric) = fabric {
        page.text("fabric ");
        page.number(fabric as u64);
        page.text(", ");
    }
    page.text("node ");
    page.octets(&node.to_be_bytes())
}

fn show_header(page: &mut Page, header: &ProtocolHeader) {
    page.text(", exchange ");
    page.number(header.exchange as u64);
    if header.initiator {
        page.text(", from its initiator");
    }
    if header.reliable {
        page.text(", reliable");
    }
    match header.acknowledged {
        Some(counter) => {
            page.text(", acknowledges ");
            page.number(counter as u64)
        }
        None => {}
    }
}

// The message of a datagram.
fn show_payload(page: &mut Page, header: &ProtocolHeader, payload: &[u8], is_received: bool) {
    if header.vendor.is_none() && header.protocol == INTERACTION_MODEL {
        return show_interaction(page, header.opcode, payload, is_received);
    }
    let is_acknowledgement = header.vendor.is_none()
        && header.protocol == SECURE_CHANNEL
        && header.opcode == ACKNOWLEDGEMENT;
    if is_acknowledgement {
        return page.text("nothing but the acknowledgement\n");
    }
    page.text("message ");
    page.octets(&[header.opcode]);
    page.text(" of protocol ");
    page.id(header.protocol as u32);
    page.end_line();
    page.blanks(ITEM);
    page.octets(payload);
    page.end_line()
}

fn show_interaction(page: &mut Page, opcode: u8, payload: &[u8], is_received: bool) {
    if !is_received {
        return show_answer(page, opcode, payload);
    }
    match decode(page.alloc(), opcode, payload) {
        Ok(request) => show_request(page, opcode, &request),
        Err(fault) => show_malformed(page, opcode, payload, fault),
    }
}
