//! A line of a recording and what came of it, as an object of JSON in one line.

ghost use Rattle.std.specs.Io.{StartsWith};

use crate::json_answers::put_answer;
use crate::json_messages::{put_malformed, put_request};
use crate::json_objects::Object;
use crate::page::Page;
use crate::telling::INTERACTION_MODEL;
use crate::told::{Content, Expiry, Letter, Message, Outcome, Restart, Told};
use mt_frame::ProtocolHeader;
use mt_im::decode;
use mt_model::{Event, Standing, To};
use mt_outside::Peer;

/// Adds the object of a line and of what was sent for it, with the end of its line. Where there is no memory for that,
/// the page knows.
pub fn show_object(page: &mut Page, told: &Told<'_>)
    ensures kept { StartsWith page.new page.old }
{
    let mut out = Object::on(page, told.room());
    put_told(&mut out, told);
    let mut line = out.into_page();
    line.end_line();
    page.append(&line)
}

fn put_told(out: &mut Object, told: &Told<'_>) {
    out.open();
    put_asked(out, told);
    if told.is_of_others {
        put_others(out, told.line, told.event);
    } else {
        put_event(out, told.line, told.event);
    }
    put_expiry(out, told.expiry);
    match &told.outcome {
        Outcome::Sent(messages) => put_messages(out, messages.as_slice()),
        Outcome::Restarted(restart) => {
            put_messages(out, &[]);
            put_restart(out, restart)
        }
    }
    out.close()
}

// The stop that has come, and how the node starts again.
fn put_restart(out: &mut Object, restart: &Restart) {
    out.key("restart");
    out.open();
    out.number("boot", restart.boot as u64);
    out.number("calls", restart.calls);
    put_expiry(out, restart.expiry);
    out.text("fate", restart.fate.text());
    out.key("sessions");
    out.open_list();
    for session in &restart.sessions {
        out.next_item();
        out.page.number(*session as u64);
    }
    out.close_list();
    if let Some(survives) = restart.survives {
        out.truth("survives", survives);
    }
    out.close()
}

// Whether the fail-safe expires, and for which fabrics.
fn put_expiry(out: &mut Object, expiry: Option<Expiry>) {
    let Some(expiry) = expiry else {
        return;
    };
    out.truth("expires", true);
    if let Some(fabric) = expiry.added {
        out.number("leaves", fabric as u64);
    }
    if let Some(fabric) = expiry.updated {
        out.number("restored", fabric as u64);
    }
}

// When it was, and what happened in which line.
fn put_event(out: &mut Object, line: u64, event: &Event) {
    match event {
        Event::Ask {
            ms,
            fabric,
            node,
            cats,
            ..
        } => {
            put_cats(out, cats);
            out.text("event", "ask");
            out.number("fabric", *fabric as u64);
            put_place_in_time(out, line, *ms);
            put_node(out, *node)
        }
        Event::Datagram { ms, peer, .. } => {
            out.text("event", "datagram");
            put_place_in_time(out, line, *ms);
            put_peer(out, peer)
        }
        Event::Tick { ms } => {
            out.text("event", "time");
            put_place_in_time(out, line, *ms)
        }
        Event::Report {
            ms,
            fabric,
            subscription,
        } => {
            out.text("event", "report");
            out.number("fabric", *fabric as u64);
            put_place_in_time(out, line, *ms);
            out.number("subscription", *subscription as u64)
        }
        Event::Resend { ms, session } => {
            out.text("event", "resend");
            put_place_in_time(out, line, *ms);
            out.number("session", *session as u64)
        }
        Event::Stop { calls, fate } => {
            out.number("calls", *calls);
            out.text("event", "stop");
            out.text("fate", fate.text());
            out.number("line", line)
        }
    }
}

// When a line was of which nothing else is told.
fn put_others(out: &mut Object, line: u64, event: &Event) {
    out.text("event", "others");
    match event {
        Event::Ask { ms, .. }
        | Event::Datagram { ms, .. }
        | Event::Tick { ms }
        | Event::Report { ms, .. }
        | Event::Resend { ms, .. } => put_place_in_time(out, line, *ms),
        Event::Stop { .. } => out.number("line", line),
    }
}

fn put_place_in_time(out: &mut Object, line: u64, ms: u64) {
    out.number("line", line);
    out.number("ms", ms)
}

// An address and a port.
fn put_peer(out: &mut Object, peer: &Peer) {
    out.octets("address", &peer.ip);
    out.number("port", peer.port as u64)
}

// A node id in 16 hex digits.
fn put_node(out: &mut Object, node: u64) {
    out.key("node");
    out.page.byte(b'"');
    out.page.octets(&node.to_be_bytes());
    out.page.byte(b'"')
}

fn put_cats(out: &mut Object, cats: &[u32; 3]) {
    out.key("cats");
    out.open_list();
    for cat in cats {
        if *cat != 0 {
            out.next_item();
            put_cat(out, *cat);
        }
    }
    out.close_list()
}

fn put_cat(out: &mut Object, cat: u32) {
    let [a, b, c, d] = cat.to_be_bytes();
    out.open();
    out.number("identifier", u16::from_be_bytes([a, b]) as u64);
    out.number("version", u16::from_be_bytes([c, d]) as u64);
    out.close()
}

// What was asked.
fn put_asked(out: &mut Object, told: &Told<'_>) {
    if let Some(letter) = &told.letter {
        return put_letter(out, letter, true);
    }
    let Event::Ask {
        opcode,
        payload,
        ..
    } = told.event
    else {
        return;
    };
    let Some(asked) = &told.asked else {
        return;
    };
    out.key("asks");
    out.open();
    match asked {
        Ok(request) => put_request(out, *opcode, request),
        Err(fault) => put_malformed(out, *opcode, payload.as_slice(), *fault),
    }
    out.close()
}

// What was sent.
fn put_messages(out: &mut Object, messages: &[Message<'_>]) {
    out.key("sent");
    out.open_list();
    for message in messages {
        out.next_item();
        out.open();
        put_sent(out, message);
        out.close();
    }
    out.close_list()
}

fn put_sent(out: &mut Object, message: &Message<'_>) {
    match message.sent.to {
        To::Plain { fabric, opcode } => {
            out.number("fabric", fabric as u64);
            put_answer(out, opcode, message.sent.bytes.as_slice())
        }
        To::Session { session, peer } => {
            put_peer(out, &peer);
            match &message.letter {
                Some(letter) if letter.heading.is_some() => put_letter(out, letter, false),
                Some(letter) => {
                    out.number("session", session as u64);
                    put_letter(out, letter, false)
                }
                None => out.number("session", session as u64),
            }
        }
    }
}

// What stands in a datagram: its session and headers, and the message in it.
fn put_letter(out: &mut Object, letter: &Letter, is_received: bool) {
    put_session(out, letter);
    match &letter.content {
        Content::Open { header, payload } => {
            put_header(out, header);
            put_payload(out, header, payload.as_slice(), is_received)
        }
        Content::Again(header) => {
            put_header(out, header);
            out.truth("again", true)
        }
        Content::Closed(reason) => out.text("closed", reason),
    }
}

// The session and the counter that its header names.
fn put_session(out: &mut Object, letter: &Letter) {
    out.number("length", letter.length as u64);
    let Some(heading) = letter.heading else {
        return;
    };
    out.number("counter", heading.counter as u64);
    match &letter.owner {
        Some(owner) => {
            put_standing(out, owner.standing);
            put_node(out, owner.node);
            out.number("session", owner.session as u64)
        }
        None => out.number("session", heading.session as u64),
    }
}

// The fabric for which a session is live, or why it is not.
fn put_standing(out: &mut Object, standing: Standing) {
    match standing {
        Standing::Live(fabric) => out.number("fabric", fabric as u64),
        Standing::Waits => out.text("standing", "waits"),
        Standing::Ended => out.text("standing", "ended"),
    }
}

fn put_header(out: &mut Object, header: &ProtocolHeader) {
    out.number("exchange", header.exchange as u64);
    out.truth("initiator", header.initiator);
    out.number("protocol", header.protocol as u64);
    out.truth("reliable", header.reliable);
    match header.acknowledged {
        Some(counter) => out.number("acknowledges", counter as u64),
        None => {}
    }
}

// The message of a datagram.
fn put_payload(out: &mut Object, header: &ProtocolHeader, payload: &[u8], is_received: bool) {
    let opcode = header.opcode;
    out.key(if is_received { "asks" } else { "message" });
    out.open();
    if header.vendor.is_some() || header.protocol != INTERACTION_MODEL {
        out.octets("bytes", payload);
        out.number("opcode", opcode as u64);
    } else if is_received {
        match decode(out.page.alloc(), opcode, payload) {
            Ok(request) => put_request(out, opcode, &request),
            Err(fault) => put_malformed(out, opcode, payload, fault),
        }
    } else {
        put_answer(out, opcode, payload);
    }
    out.close()
}
