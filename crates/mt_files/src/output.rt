//! What is sent, as lines, and such lines read.

ghost use Rattle.std.specs.Prelude.{◌≡◌, ◌⊎◌, ◌++◌, ◌≤◌, All, length, IfOk, IfErr, OnOk, OnErr, Ok, Err};
ghost use Rattle.std.specs.Io.{StartsWith};
ghost use Rattle.mt_files.specs.Lines.{ended, lines_of};
ghost use Rattle.mt_files.specs.Output.{line_told, messages_from, output_of, sent_line};

use crate::lines::cut_line;
use crate::sent;
use crate::writing::{push_head, push_message, push_number, push_payload, push_peer};
use mt_model::limits::{LINE_BYTES, RECORDING_BYTES, RECORDING_LINES};
use mt_model::{LineFault, LineKind, Sent, SentList, To};
use std::alloc::{AllocError, Global};

// The most bytes that a line has beside those of its payload.
const ROOM_BESIDE: usize = 64;

/// Appends the line of a message, with its end. After a refusal `out` is as before.
pub fn write_sent(sent: &Sent, out: &mut Vec<u8>) -> Result<(), AllocError>
    ensures ok { OnOk result (out.new.items ≡ out.old.items ++ ended (sent_line sent.now)) }
    ensures err { OnErr result (out.new.items ≡ out.old.items) }
{
    let payload = sent.bytes.as_slice();
    out.reserve(payload.len().saturating_mul(2).saturating_add(ROOM_BESIDE))?;
    let before = out.len();
    match push_sent(sent, out) {
        Ok(()) => Ok(()),
        Err(error) => {
            out.truncate(before);
            Err(error)
        }
    }
}

fn push_sent(sent: &Sent, out: &mut Vec<u8>) -> Result<(), AllocError>
    ensures written { OnOk result (out.new.items ≡ out.old.items ++ ended (sent_line sent.now)) }
    ensures kept { StartsWith out.new.items out.old.items }
{
    match &sent.to {
        To::Session { peer, .. } => {
            push_head(b'S', sent.ms, out)?;
            push_peer(*peer, out)?;
            push_payload(sent.bytes.as_slice(), out)
        }
        To::Plain { fabric, opcode } => {
            push_head(b'P', sent.ms, out)?;
            push_number(*fabric as u64, out)?;
            push_message(*opcode, sent.bytes.as_slice(), out)
        }
    }
}

/// The messages of an output, in the order of its lines, or its first fault. An output has no head, and its
/// limits are those of a recording. No line names the session to whose peer a datagram goes: in what is
/// read it is 0, which no session has.
pub fn read_output(alloc: Global, bytes: &[u8]) -> Result<SentList, LineFault>
    ensures read { IfOk result (λ messages. output_of bytes.now ≡ Ok messages) }
    ensures refused { IfErr result (λ fault. (fault ≡ LineFault.Memory) ⊎ (output_of bytes.now ≡ Err fault)) }
    ensures short { IfOk result (λ messages. All (λ message. length message.bytes ≤ 1280) messages) }
{
    if bytes.len() > RECORDING_BYTES {
        return Err(LineFault::TooLong);
    }
    messages(alloc, bytes)
}

// The messages of lines, the first of which has number 1.
fn messages(alloc: Global, lines: &[u8]) -> Result<SentList, LineFault>
    ensures read { IfOk result (λ messages. messages_from 1 0 (lines_of lines.now) ≡ Ok messages) }
    ensures refused { IfErr result (λ fault. (fault ≡ LineFault.Memory) ⊎ (messages_from 1 0 (lines_of lines.now) ≡ Err fault)) }
{
    let mut messages = Vec::new(alloc);
    let mut number = 1;
    let mut before = 0;
    let mut rest = lines;
    while !rest.is_empty() {
        let (line, behind) = cut_line(rest);
        let message = told(alloc, number, before, line)?;
        number += 1;
        before = message.ms;
        rest = behind;
        messages.push(message)?;
    }
    Ok(SentList::from_vec(messages))
}

// What the line of this number tells, behind lines up to this time.
fn told(alloc: Global, number: u64, before: u64, line: &[u8]) -> Result<Sent, LineFault>
    ensures read { IfOk result (λ message. line_told number before line.now ≡ Ok message) }
    ensures refused { IfErr result (λ fault. (fault ≡ LineFault.Memory) ⊎ (line_told number before line.now ≡ Err fault)) }
    ensures counted { OnOk result (number ≤ RECORDING_LINES) }
{
    if line.len() > LINE_BYTES || number > RECORDING_LINES as u64 {
        return Err(LineFault::TooLong);
    }
    let message = match sent::sent(alloc, line)? {
        Ok(message) => message,
        Err(kind) => return Err(LineFault::Line { line: number, kind }),
    };
    if message.ms < before {
        return Err(LineFault::Line {
            line: number,
            kind: LineKind::Time,
        });
    }
    Ok(message)
}
