//! A script, read whole.

ghost use Rattle.std.specs.Prelude.{◌≡◌, ◌⊎◌, ◌+◌, ◌≤◌, length, IfOk, IfErr, OnOk, Ok, Err};
ghost use Rattle.mt_files.specs.Lines.{fields_of, lines_of};
ghost use Rattle.mt_ctl.specs.Script.{line_step, line_told, node_in, ours_in, request_in, script_of, sent_on, steps_from};
ghost use Rattle.mt_ctl.specs.Steps.{AreShort};

use crate::field::{ack, exchange};
use crate::steps::{Kind, STEP_BYTES, Step, Steps};
use mt_files::{cut, cut_line, five_fields, opcode, payload, three_fields, time};
use mt_model::limits::LINE_BYTES;
use mt_model::{LineFault, LineKind};
use std::alloc::{AllocError, Global};

/// The most lines of a script, its head among them.
const SCRIPT_LINES: u64 = 65_536;

/// The most bytes of a script.
const SCRIPT_BYTES: usize = 16_777_216;

// What a line sends, where there was memory for it.
type Told = Result<Step, LineKind>;

/// The messages of a script, in the order of its lines, or its first fault.
pub fn script(alloc: Global, bytes: &[u8]) -> Result<Steps, LineFault>
    ensures read { IfOk result (λ steps. script_of bytes.now ≡ Ok steps) }
    ensures refused { IfErr result (λ fault. (fault ≡ LineFault.Memory) ⊎ (script_of bytes.now ≡ Err fault)) }
    ensures short { IfOk result (λ steps. AreShort steps) }
{
    if bytes.len() > SCRIPT_BYTES {
        return Err(LineFault::TooLong);
    }
    let without_head = LineFault::Line {
        line: 1,
        kind: LineKind::Head,
    };
    if bytes.is_empty() {
        return Err(without_head);
    }
    let (first, lines) = cut_line(bytes);
    if first.len() > LINE_BYTES {
        return Err(LineFault::TooLong);
    }
    if first != b"matter-script 1".as_slice() {
        return Err(without_head);
    }
    steps_behind_head(alloc, lines)
}

// The steps of the lines behind the head.
fn steps_behind_head(alloc: Global, lines: &[u8]) -> Result<Steps, LineFault>
    ensures read { IfOk result (λ steps. steps_from 2 0 (lines_of lines.now) ≡ Ok steps) }
    ensures refused { IfErr result (λ fault. (fault ≡ LineFault.Memory) ⊎ (steps_from 2 0 (lines_of lines.now) ≡ Err fault)) }
    ensures short { IfOk result (λ steps. AreShort steps) }
{
    let mut steps = Vec::new(alloc);
    let mut number = 2;
    let mut before = 0;
    let mut rest = lines;
    while !rest.is_empty() {
        let (line, behind) = cut_line(rest);
        let step = told(alloc, number, before, line)?;
        number += 1;
        before = step.ms;
        rest = behind;
        steps.push(step)?;
    }
    Ok(Steps::from_vec(steps))
}

// What the line of this number sends, behind lines up to this time.
fn told(alloc: Global, number: u64, before: u64, line: &[u8]) -> Result<Step, LineFault>
    ensures read { IfOk result (λ step. line_told number before line.now ≡ Ok step) }
    ensures refused { IfErr result (λ fault. (fault ≡ LineFault.Memory) ⊎ (line_told number before line.now ≡ Err fault)) }
    ensures counted { OnOk result (number ≤ 65536) }
    ensures short { IfOk result (λ step. length step.payload ≤ 1198) }
{
    if line.len() > LINE_BYTES || number > SCRIPT_LINES {
        return Err(LineFault::TooLong);
    }
    let step = match step_of(alloc, line)? {
        Ok(step) => step,
        Err(kind) => return Err(LineFault::Line { line: number, kind }),
    };
    if step.ms < before {
        return Err(LineFault::Line {
            line: number,
            kind: LineKind::Time,
        });
    }
    Ok(step)
}

// What a line sends, whatever the time.
fn step_of(alloc: Global, line: &[u8]) -> Result<Told, AllocError>
    ensures { IfOk result (λ told. told ≡ line_step line.now) }
{
    let Some((letter, fields)) = cut(b' ', line) else {
        return Ok(Err(LineKind::Form));
    };
    sent_on(alloc, letter, fields)
}

// What a line of this letter sends that has these fields.
fn sent_on(alloc: Global, letter: &[u8], fields: &[u8]) -> Result<Told, AllocError>
    ensures { IfOk result (λ told. told ≡ sent_on letter.now (fields_of fields.now)) }
{
    if letter == b"Q".as_slice() {
        request(alloc, fields)
    } else if letter == b"F".as_slice() {
        ours(alloc, fields)
    } else if letter == b"G".as_slice() {
        nodes(alloc, fields)
    } else {
        Ok(Err(LineKind::Form))
    }
}

// `Q ms opcode payload`
fn request(alloc: Global, fields: &[u8]) -> Result<Told, AllocError>
    ensures { IfOk result (λ told. told ≡ request_in (fields_of fields.now)) }
{
    let Some((ms, opcode_text, text)) = three_fields(fields) else {
        return Ok(Err(LineKind::Form));
    };
    let Some(ms) = time(ms) else {
        return Ok(Err(LineKind::Number));
    };
    let Some(opcode) = opcode(opcode_text) else {
        return Ok(Err(LineKind::Hex));
    };
    let Some(payload) = payload(alloc, STEP_BYTES, text)? else {
        return Ok(Err(LineKind::Hex));
    };
    Ok(Ok(Step {
        ms,
        kind: Kind::New,
        opcode,
        payload,
    }))
}

// `F ms exchange ack opcode payload`
fn ours(alloc: Global, fields: &[u8]) -> Result<Told, AllocError>
    ensures { IfOk result (λ told. told ≡ ours_in (fields_of fields.now)) }
{
    let Some((ms, exchange_text, ack_text, opcode_text, text)) = five_fields(fields) else {
        return Ok(Err(LineKind::Form));
    };
    let (Some(ms), Some(exchange), Some(ack)) = (time(ms), exchange(exchange_text), ack(ack_text))
    else {
        return Ok(Err(LineKind::Number));
    };
    let Some(opcode) = opcode(opcode_text) else {
        return Ok(Err(LineKind::Hex));
    };
    let Some(payload) = payload(alloc, STEP_BYTES, text)? else {
        return Ok(Err(LineKind::Hex));
    };
    Ok(Ok(Step {
        ms,
        kind: Kind::Ours { exchange, ack },
        opcode,
        payload,
    }))
}

// `G ms exchange ack opcode payload`
fn nodes(alloc: Global, fields: &[u8]) -> Result<Told, AllocError>
    ensures { IfOk result (λ told. told ≡ node_in (fields_of fields.now)) }
{
    let Some((ms, exchange_text, ack_text, opcode_text, text)) = five_fields(fields) else {
        return Ok(Err(LineKind::Form));
    };
    let (Some(ms), Some(exchange), Some(ack)) = (time(ms), exchange(exchange_text), ack(ack_text))
    else {
        return Ok(Err(LineKind::Number));
    };
    let Some(opcode) = opcode(opcode_text) else {
        return Ok(Err(LineKind::Hex));
    };
    let Some(payload) = payload(alloc, STEP_BYTES, text)? else {
        return Ok(Err(LineKind::Hex));
    };
    Ok(Ok(Step {
        ms,
        kind: Kind::Node { exchange, ack },
        opcode,
        payload,
    }))
}
