//! What a line of an output tells: a message, or what is wrong with the line.

ghost use Rattle.std.specs.Prelude.{◌≡◌, IfOk};
ghost use Rattle.mt_files.specs.Lines.{fields_of};
ghost use Rattle.mt_files.specs.Output.{line_sent, plain_in, sealed_in, sent_by};

use crate::field::{fabric, opcode, payload, peer, time};
use crate::lines::{cut, four_fields, three_fields};
use mt_model::limits::{PAYLOAD_BYTES, RECEIVED_BYTES};
use mt_model::{LineKind, Sent, To};
use std::alloc::{AllocError, Global};

/// The id in the place of a session's, which no line names. No session has it.
const UNNAMED: u16 = 0;

/// What a line tells, where there was memory for it.
pub type Told = Result<Sent, LineKind>;

/// What a line tells, whatever the time.
pub fn sent(alloc: Global, line: &[u8]) -> Result<Told, AllocError>
    ensures { IfOk result (λ told. told ≡ line_sent line.now) }
{
    let Some((letter, fields)) = cut(b' ', line) else {
        return Ok(Err(LineKind::Form));
    };
    sent_by(alloc, letter, fields)
}

// What a line of this letter tells that has these fields.
fn sent_by(alloc: Global, letter: &[u8], fields: &[u8]) -> Result<Told, AllocError>
    ensures { IfOk result (λ told. told ≡ sent_by letter.now (fields_of fields.now)) }
{
    if letter == b"S".as_slice() {
        sealed(alloc, fields)
    } else if letter == b"P".as_slice() {
        plain(alloc, fields)
    } else {
        Ok(Err(LineKind::Form))
    }
}

// `S ms peer bytes`
fn sealed(alloc: Global, fields: &[u8]) -> Result<Told, AllocError>
    ensures { IfOk result (λ told. told ≡ sealed_in (fields_of fields.now)) }
{
    let Some((ms, peer_text, text)) = three_fields(fields) else {
        return Ok(Err(LineKind::Form));
    };
    let Some(ms) = time(ms) else {
        return Ok(Err(LineKind::Number));
    };
    let Some(peer) = peer(peer_text) else {
        return Ok(Err(LineKind::Hex));
    };
    let Some(bytes) = payload(alloc, RECEIVED_BYTES, text)? else {
        return Ok(Err(LineKind::Hex));
    };
    let to = To::Session {
        session: UNNAMED,
        peer,
    };
    Ok(Ok(Sent { ms, to, bytes }))
}

// `P ms fabric opcode payload`
fn plain(alloc: Global, fields: &[u8]) -> Result<Told, AllocError>
    ensures { IfOk result (λ told. told ≡ plain_in (fields_of fields.now)) }
{
    let Some((ms, fabric_text, opcode_text, text)) = four_fields(fields) else {
        return Ok(Err(LineKind::Form));
    };
    let (Some(ms), Some(fabric)) = (time(ms), fabric(fabric_text)) else {
        return Ok(Err(LineKind::Number));
    };
    let Some(opcode) = opcode(opcode_text) else {
        return Ok(Err(LineKind::Hex));
    };
    let Some(bytes) = payload(alloc, PAYLOAD_BYTES, text)? else {
        return Ok(Err(LineKind::Hex));
    };
    let to = To::Plain { fabric, opcode };
    Ok(Ok(Sent { ms, to, bytes }))
}
