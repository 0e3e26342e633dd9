//! What a line tells: an event, or what is wrong with the line.

ghost use Rattle.std.specs.Prelude.{◌≡◌, ◌≤◌, IfOk};
ghost use Rattle.mt_files.specs.Event.{ask_in, calls_in, datagram_in, line_event, may_ask, report_in, resend_in, session_in, stop_in, subscription_in, tick_in, told_by};
ghost use Rattle.mt_files.specs.Lines.{fields_of};

use crate::field::{fabric, fate, number, opcode, payload, peer, time};
use crate::lines::{cut, five_fields, one_field, three_fields, two_fields};
use crate::subject::read_subject;
use mt_model::limits::{LAST_CALLS, LAST_OPERATIONAL_NODE, PAYLOAD_BYTES, RECEIVED_BYTES};
use mt_model::{Event, LineKind};
use std::alloc::{AllocError, Global};

/// What a line tells, where there was memory for it.
pub type Told = Result<Event, LineKind>;

/// What a line tells, whatever the time.
pub fn event(alloc: Global, line: &[u8]) -> Result<Told, AllocError>
    ensures { IfOk result (λ told. told ≡ line_event line.now) }
{
    let Some((letter, fields)) = cut(b' ', line) else {
        return Ok(Err(LineKind::Form));
    };
    told_by(alloc, letter, fields)
}

// What a line of this letter tells that has these fields.
fn told_by(alloc: Global, letter: &[u8], fields: &[u8]) -> Result<Told, AllocError>
    ensures { IfOk result (λ told. told ≡ told_by letter.now (fields_of fields.now)) }
{
    if letter == b"A".as_slice() {
        ask(alloc, fields)
    } else if letter == b"D".as_slice() {
        datagram(alloc, fields)
    } else if letter == b"T".as_slice() {
        Ok(tick(fields))
    } else if letter == b"R".as_slice() {
        Ok(report(fields))
    } else if letter == b"M".as_slice() {
        Ok(resend(fields))
    } else if letter == b"X".as_slice() {
        Ok(stop(fields))
    } else {
        Ok(Err(LineKind::Form))
    }
}

// `A ms fabric node opcode payload`
fn ask(alloc: Global, fields: &[u8]) -> Result<Told, AllocError>
    ensures { IfOk result (λ told. told ≡ ask_in (fields_of fields.now)) }
{
    let Some((ms, fabric_text, subject_text, opcode_text, text)) = five_fields(fields) else {
        return Ok(Err(LineKind::Form));
    };
    let (Some(ms), Some(fabric)) = (time(ms), fabric(fabric_text)) else {
        return Ok(Err(LineKind::Number));
    };
    let Some(subject) = read_subject(subject_text) else {
        return Ok(Err(LineKind::Hex));
    };
    let Some(opcode) = opcode(opcode_text) else {
        return Ok(Err(LineKind::Hex));
    };
    let node = subject.node;
    let cats = subject.cats;
    if !may_ask(fabric, node, cats) {
        return Ok(Err(LineKind::Hex));
    }
    let Some(payload) = payload(alloc, PAYLOAD_BYTES, text)? else {
        return Ok(Err(LineKind::Hex));
    };
    Ok(Ok(Event::Ask {
        ms,
        fabric,
        node,
        cats,
        opcode,
        payload,
    }))
}

// Fabric 0 asks with node 0 and no CAT, every other fabric with an operational node id.
fn may_ask(fabric: u8, node: u64, cats: [u32; 3]) -> bool
    ensures { result ≡ may_ask fabric node cats }
{
    let [a, b, c] = cats;
    if fabric == 0 {
        node == 0 && a == 0 && b == 0 && c == 0
    } else {
        1 <= node && node <= LAST_OPERATIONAL_NODE
    }
}

// `D ms peer bytes`
fn datagram(alloc: Global, fields: &[u8]) -> Result<Told, AllocError>
    ensures { IfOk result (λ told. told ≡ datagram_in (fields_of fields.now)) }
{
    let Some((ms, peer_text, text)) = three_fields(fields) else {
        return Ok(Err(LineKind::Form));
    };
    let Some(ms) = time(ms) else {
        return Ok(Err(LineKind::Number));
    };
    let Some(peer) = peer(peer_text) else {
        return Ok(Err(LineKind::Hex));
    };
    let Some(bytes) = payload(alloc, RECEIVED_BYTES, text)? else {
        return Ok(Err(LineKind::Hex));
    };
    Ok(Ok(Event::Datagram { ms, peer, bytes }))
}

// `T ms`
fn tick(fields: &[u8]) -> Told
    ensures { result ≡ tick_in (fields_of fields.now) }
{
    let Some(ms) = one_field(fields) else {
        return Err(LineKind::Form);
    };
    let Some(ms) = time(ms) else {
        return Err(LineKind::Number);
    };
    Ok(Event::Tick { ms })
}

// `R ms fabric subscription`
fn report(fields: &[u8]) -> Told
    ensures { result ≡ report_in (fields_of fields.now) }
{
    let Some((ms, fabric_text, subscription_text)) = three_fields(fields) else {
        return Err(LineKind::Form);
    };
    let (Some(ms), Some(fabric), Some(subscription)) = (
        time(ms),
        fabric(fabric_text),
        subscription(subscription_text),
    ) else {
        return Err(LineKind::Number);
    };
    Ok(Event::Report {
        ms,
        fabric,
        subscription,
    })
}

// `M ms session`
fn resend(fields: &[u8]) -> Told
    ensures { result ≡ resend_in (fields_of fields.now) }
{
    let Some((ms, session_text)) = two_fields(fields) else {
        return Err(LineKind::Form);
    };
    let (Some(ms), Some(session)) = (time(ms), session(session_text)) else {
        return Err(LineKind::Number);
    };
    Ok(Event::Resend { ms, session })
}

// `X calls fate`
fn stop(fields: &[u8]) -> Told
    ensures { result ≡ stop_in (fields_of fields.now) }
{
    let Some((calls_text, fate_text)) = two_fields(fields) else {
        return Err(LineKind::Form);
    };
    let Some(fate) = fate(fate_text) else {
        return Err(LineKind::Form);
    };
    let Some(calls) = number(0, LAST_CALLS, calls_text) else {
        return Err(LineKind::Number);
    };
    Ok(Event::Stop { calls, fate })
}

fn subscription(text: &[u8]) -> Option<u32>
    ensures { result ≡ subscription_in text.now }
{
    match number(1, u32::MAX as u64, text) {
        Some(subscription) => Some(subscription as u32),
        None => None,
    }
}

fn session(text: &[u8]) -> Option<u16>
    ensures { result ≡ session_in text.now }
{
    match number(1, u16::MAX as u64, text) {
        Some(session) => Some(session as u16),
        None => None,
    }
}
