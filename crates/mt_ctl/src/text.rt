//! What is shown, as lines.

ghost use Rattle.std.specs.Prelude.{◌≡◌, ◌++◌, ◌∷◌, [], OnOk, OnErr};
ghost use Rattle.std.specs.Io.{StartsWith};
ghost use Rattle.mt_files.specs.Field.{payload_text};
ghost use Rattle.mt_files.specs.Lines.{ended};
ghost use Rattle.mt_ctl.specs.Text.{ack_text, is_standalone as is_standalone_header, kind_text, opcode_text, shown_line, side_text};

use crate::showing::Shown;
use mt_files::{push_head, push_hex, push_number, push_payload};
use mt_frame::ProtocolHeader;
use std::alloc::AllocError;

/// The secure channel's number among the protocols.
const SECURE_CHANNEL: u16 = 0;

/// The secure channel's opcode of a message that acknowledges and says nothing else.
const STANDALONE_ACKNOWLEDGEMENT: u8 = 0x10;

/// Appends the line of an item, with its end. After a refusal `out` is as before.
pub fn write_shown(item: &Shown, out: &mut Vec<u8>) -> Result<(), AllocError>
    ensures ok { OnOk result (out.new.items ≡ out.old.items ++ ended (shown_line item.now)) }
    ensures err { OnErr result (out.new.items ≡ out.old.items) }
{
    let before = out.len();
    match push_shown(item, out) {
        Ok(()) => Ok(()),
        Err(error) => {
            out.truncate(before);
            Err(error)
        }
    }
}

fn push_shown(item: &Shown, out: &mut Vec<u8>) -> Result<(), AllocError>
    ensures written { OnOk result (out.new.items ≡ out.old.items ++ ended (shown_line item.now)) }
    ensures kept { StartsWith out.new.items out.old.items }
{
    match item {
        Shown::Opened {
            ms,
            header,
            payload,
        } => {
            push_head(b'V', *ms, out)?;
            push_number(header.exchange as u64, out)?;
            push_side(*header, out)?;
            push_message(*header, payload.as_slice(), out)
        }
        Shown::Closed { ms, kind } => {
            push_head(b'N', *ms, out)?;
            out.extend_from_slice(kind_word(*kind).as_bytes())?;
            out.push(b'\n')?;
            Ok(())
        }
    }
}

// Who began the exchange.
fn push_side(header: ProtocolHeader, out: &mut Vec<u8>) -> Result<(), AllocError>
    ensures written { OnOk result (out.new.items ≡ out.old.items ++ (side_text header ++ 32 ∷ [])) }
    ensures kept { StartsWith out.new.items out.old.items }
{
    if header.initiator {
        out.extend_from_slice(b"node ")
    } else {
        out.extend_from_slice(b"ours ")
    }
}

// The last three fields of a message.
fn push_message(header: ProtocolHeader, payload: &[u8], out: &mut Vec<u8>) -> Result<(), AllocError>
    ensures written { OnOk result (out.new.items ≡ out.old.items
        ++ (opcode_text header ++ 32 ∷ (ack_text header.acknowledged ++ 32 ∷ ended (payload_text payload.now)))) }
    ensures kept { StartsWith out.new.items out.old.items }
{
    push_opcode(header, out)?;
    push_ack(header.acknowledged, out)?;
    push_payload(payload, out)
}

// An opcode in two hex digits, or `ack`.
fn push_opcode(header: ProtocolHeader, out: &mut Vec<u8>) -> Result<(), AllocError>
    ensures written { OnOk result (out.new.items ≡ out.old.items ++ (opcode_text header ++ 32 ∷ [])) }
    ensures kept { StartsWith out.new.items out.old.items }
{
    if is_standalone(header) {
        return out.extend_from_slice(b"ack ");
    }
    push_hex([header.opcode].as_slice(), out)?;
    out.push(b' ')?;
    Ok(())
}

fn is_standalone(header: ProtocolHeader) -> bool
    ensures { result ≡ is_standalone_header header }
{
    header.vendor.is_none()
        && header.protocol == SECURE_CHANNEL
        && header.opcode == STANDALONE_ACKNOWLEDGEMENT
}

// A counter that is acknowledged, or `-`.
fn push_ack(acknowledged: Option<u32>, out: &mut Vec<u8>) -> Result<(), AllocError>
    ensures written { OnOk result (out.new.items ≡ out.old.items ++ (ack_text acknowledged ++ 32 ∷ [])) }
    ensures kept { StartsWith out.new.items out.old.items }
{
    match acknowledged {
        Some(counter) => push_number(counter as u64, out),
        None => out.extend_from_slice(b"- "),
    }
}

// The word of a kind.
fn kind_word(kind: u8) -> &'static str
    ensures { result.now ≡ kind_text kind }
{
    match kind {
        1 => "frame",
        2 => "other",
        3 => "sealed",
        4 => "duplicate",
        5 => "old",
        _ => "source",
    }
}
