//! Fields as they are written: each is appended to what is there, with the space behind it, or, where it
//! is the last of its line, with the line's end. Where memory runs out, what was there stays in front.

ghost use Rattle.std.specs.Prelude.{◌≡◌, ◌<◌, ◌*◌, ◌++◌, ◌∷◌, [], length, slice_index, OnOk, decimal};
ghost use Rattle.std.specs.Io.{StartsWith};
ghost use Rattle.hex.specs.Hex.{encode_lower, lower_digits};
ghost use Rattle.mt_files.specs.Field.{payload_text, peer_text};
ghost use Rattle.mt_files.specs.Lines.{ended};

use itoa::Buffer;
use mt_outside::Peer;
use std::alloc::AllocError;

// How many bytes are written in hex at a time. The digits are written over zeroes, and longer runs of those are
// filled byte by byte.
const PART: usize = 512;

/// The letter of a line.
pub fn push_letter(letter: u8, out: &mut Vec<u8>) -> Result<(), AllocError>
    ensures written { OnOk result (out.new.items ≡ out.old.items ++ letter ∷ 32 ∷ []) }
    ensures kept { StartsWith out.new.items out.old.items }
{
    out.extend_from_slice(&[letter, b' '])
}

/// The letter of a line and a number, its first two fields.
pub fn push_head(letter: u8, number: u64, out: &mut Vec<u8>) -> Result<(), AllocError>
    ensures written { OnOk result (out.new.items ≡ out.old.items ++ letter ∷ 32 ∷ (decimal number ++ 32 ∷ [])) }
    ensures kept { StartsWith out.new.items out.old.items }
{
    push_letter(letter, out)?;
    push_number(number, out)
}

/// A number in decimal digits.
pub fn push_number(number: u64, out: &mut Vec<u8>) -> Result<(), AllocError>
    ensures written { OnOk result (out.new.items ≡ out.old.items ++ (decimal number ++ 32 ∷ [])) }
    ensures kept { StartsWith out.new.items out.old.items }
{
    push_decimal(number, out)?;
    out.push(b' ')?;
    Ok(())
}

/// A number in decimal digits, as the last field.
pub fn push_last_number(number: u64, out: &mut Vec<u8>) -> Result<(), AllocError>
    ensures written { OnOk result (out.new.items ≡ out.old.items ++ ended (decimal number)) }
    ensures kept { StartsWith out.new.items out.old.items }
{
    push_decimal(number, out)?;
    out.push(b'\n')?;
    Ok(())
}

fn push_decimal(number: u64, out: &mut Vec<u8>) -> Result<(), AllocError>
    ensures written { OnOk result (out.new.items ≡ out.old.items ++ decimal number) }
    ensures kept { StartsWith out.new.items out.old.items }
{
    let mut buffer = Buffer::new();
    out.extend_from_slice(buffer.format(number).as_bytes())
}

/// An opcode in two hex digits and a payload, the last two fields.
pub fn push_message(opcode: u8, payload: &[u8], out: &mut Vec<u8>) -> Result<(), AllocError>
    ensures written { OnOk result (out.new.items ≡ out.old.items ++ (encode_lower (opcode ∷ []) ++ 32 ∷ ended (payload_text payload.now))) }
    ensures kept { StartsWith out.new.items out.old.items }
{
    push_hex([opcode].as_slice(), out)?;
    out.push(b' ')?;
    push_payload(payload, out)
}

/// A peer in 36 hex digits.
pub fn push_peer(peer: Peer, out: &mut Vec<u8>) -> Result<(), AllocError>
    ensures written { OnOk result (out.new.items ≡ out.old.items ++ (peer_text peer ++ 32 ∷ [])) }
    ensures kept { StartsWith out.new.items out.old.items }
{
    push_hex(peer.ip.as_slice(), out)?;
    push_hex(peer.port.to_be_bytes().as_slice(), out)?;
    out.push(b' ')?;
    Ok(())
}

/// Bytes in hex, or `-` for no bytes, as the last field.
pub fn push_payload(bytes: &[u8], out: &mut Vec<u8>) -> Result<(), AllocError>
    ensures written { OnOk result (out.new.items ≡ out.old.items ++ ended (payload_text bytes.now)) }
    ensures kept { StartsWith out.new.items out.old.items }
{
    if bytes.is_empty() {
        return out.extend_from_slice(b"-\n");
    }
    push_hex(bytes, out)?;
    out.push(b'\n')?;
    Ok(())
}

/// Bytes in lower case hex, with nothing behind them.
pub fn push_hex(bytes: &[u8], out: &mut Vec<u8>) -> Result<(), AllocError>
    ensures written { OnOk result (out.new.items ≡ out.old.items ++ encode_lower bytes.now) }
    ensures kept { StartsWith out.new.items out.old.items }
{
    let mut rest = bytes;
    'rest: while rest.len() > PART {
        let (part, behind) = rest.split_at(PART);
        push_part(part, out)?;
        rest = behind;
    }
    push_part(rest, out)
}

fn push_part(bytes: &[u8], out: &mut Vec<u8>) -> Result<(), AllocError>
    ensures written { OnOk result (out.new.items ≡ out.old.items ++ encode_lower bytes.now) }
    ensures kept { StartsWith out.new.items out.old.items }
{
    let before = out.len();
    let end = before.saturating_add(bytes.len().saturating_mul(2));
    out.resize(end, 0)?;
    let (_, room) = out.as_mut_slice().split_at_mut(before);
    if room.len() / 2 != bytes.len() || room.len() % 2 != 0 {
        return Err(AllocError);
    }
    encode(bytes, room);
    Ok(())
}

// The two digits of each byte, the one of its upper bits first. With no table to look into, the compiler
// works out many digits at once.
fn encode(bytes: &[u8], digits: &mut [u8])
    requires { length digits.old ≡ 2 * length bytes.now }
    ensures { digits.new ≡ encode_lower bytes.now }
{
    'bytes: for i in 0..bytes.len() {
        let byte = bytes[i];
        let high = digit(byte / 16);
        let low = digit(byte % 16);
        digits[2 * i] = high;
        digits[2 * i + 1] = low;
    }
}

#[tactic(auto, using(crate::proofs::Digits::decimal_digit, crate::proofs::Digits::letter_digit))]
fn digit(value: u8) -> u8
    requires { value < 16 }
    ensures { result ≡ slice_index lower_digits value }
{
    if value < 10 {
        b'0' + value
    } else {
        b'a' - 10 + value
    }
}
