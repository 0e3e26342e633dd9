//! What a single field tells.

ghost use Rattle.std.specs.Prelude.{◌≡◌, ◌↔◌, ◌≤◌, ◌*◌, if◌then◌else◌, length, Some, None, IfOk, IfSome};
ghost use Rattle.hex.specs.Hex.{decode_of, hex_digit_value};
ghost use Rattle.mt_files.specs.Event.{fabric_in, time_in};
ghost use Rattle.mt_files.specs.Field.{bytes_in, digits_from, fate_in, number_between, ok_of, opcode_in, payload_in, peer_in, port_in, up_to};

use mt_model::limits::{LAST_FABRIC, LAST_TIME};
use mt_outside::{Fate, Peer};
use mt_tlv::Bytes;
use std::alloc::{AllocError, Global};

/// A number of a range, in decimal digits with no sign and no leading zero; None exactly where the text is none.
pub fn number(least: u64, most: u64, text: &[u8]) -> Option<u64>
    ensures value { result ≡ number_between least most text.now }
    ensures within { IfSome result (λ number. number ≤ most) }
{
    let number = match text {
        [] => return None,
        [b'0', _, ..] => return None,
        _ => digits(text, most)?,
    };
    if number < least {
        return None;
    }
    Some(number)
}

// The number of some digits, up to a limit.
fn digits(text: &[u8], most: u64) -> Option<u64>
    ensures value { result ≡ up_to most (digits_from 0 text.now) }
    ensures within { IfSome result (λ number. number ≤ most) }
{
    let mut number = 0u64;
    for digit in text {
        if *digit < b'0' || *digit > b'9' {
            return None;
        }
        let next = number as u128 * 10 + (*digit - b'0') as u128;
        if next > most as u128 {
            return None;
        }
        number = next as u64;
    }
    Some(number)
}

/// A time in ms: 0 to 281,474,976,710,655.
pub fn time(text: &[u8]) -> Option<u64>
    ensures { result ≡ time_in text.now }
{
    number(0, LAST_TIME, text)
}

/// A fabric: 0 to 254, where 0 is the plain PASE session.
pub fn fabric(text: &[u8]) -> Option<u8>
    ensures { result ≡ fabric_in text.now }
{
    match number(0, LAST_FABRIC, text) {
        Some(fabric) => Some(fabric as u8),
        None => None,
    }
}

/// Bytes up to a number of them in hex, or `-` for no bytes.
pub fn payload(alloc: Global, most: usize, text: &[u8]) -> Result<Option<Bytes>, AllocError>
    requires { most ≤ 65535 }
    ensures { IfOk result (λ payload. payload ≡ payload_in most text.now) }
{
    if text.is_empty() {
        return Ok(None);
    }
    if text == b"-".as_slice() {
        return Ok(Some(Bytes::new(alloc)));
    }
    if text.len() > 2 * most {
        return Ok(None);
    }
    if text.len() % 2 != 0 {
        return Ok(None);
    }
    let mut bytes = vec![in alloc; 0u8; text.len() / 2]?;
    if decode(text, bytes.as_mut_slice()) {
        return Ok(Some(Bytes::from_vec(bytes)));
    }
    Ok(None)
}

// Reads a byte from each two digits; false where one is none. It goes on behind one that is none, so that
// the compiler works out many digits at once.
fn decode(text: &[u8], bytes: &mut [u8]) -> bool
    requires { length text.now ≡ 2 * length bytes.old }
    ensures { ok_of (decode_of text.now) ≡ (if result then Some bytes.new else None) }
{
    let mut worst = 0;
    'bytes: for i in 0..bytes.len() {
        let high = digit(text[2 * i]);
        let low = digit(text[2 * i + 1]);
        worst = greatest(worst, high, low);
        bytes[i] = high % 16 * 16 + low % 16;
    }
    worst <= 15
}

fn greatest(a: u8, b: u8, c: u8) -> u8
    ensures { (result ≤ 15) ↔ ((a ≤ 15) × (b ≤ 15) × (c ≤ 15)) }
{
    let most = if a < b { b } else { a };
    if most < c { c } else { most }
}

// The value of a hex digit, in either case; above 15 where it is none.
fn digit(byte: u8) -> u8
    ensures { hex_digit_value byte ≡ up_to 15 (Some result) }
{
    match byte {
        b'0'..=b'9' => byte - b'0',
        b'a'..=b'f' => byte - b'a' + 10,
        b'A'..=b'F' => byte - b'A' + 10,
        _ => 255,
    }
}

/// An opcode in two hex digits.
pub fn opcode(text: &[u8]) -> Option<u8>
    ensures { result ≡ opcode_in text.now }
{
    let mut bytes = [0; 1];
    match hex::decode_to_slice(text, &mut bytes) {
        Ok(()) => Some(bytes[0]),
        Err(_) => None,
    }
}

/// A peer in 36 hex digits: its address, then its port.
pub fn peer(text: &[u8]) -> Option<Peer>
    ensures { result ≡ peer_in text.now }
{
    if text.len() != 36 {
        return None;
    }
    let (ip, port_text) = text.split_at(32);
    let ip = address(ip)?;
    let port = port(port_text)?;
    Some(Peer { ip, port })
}

fn address(text: &[u8]) -> Option<[u8; 16]>
    ensures { result ≡ bytes_in 16 text.now }
{
    let mut bytes = [0; 16];
    match hex::decode_to_slice(text, &mut bytes) {
        Ok(()) => Some(bytes),
        Err(_) => None,
    }
}

fn port(text: &[u8]) -> Option<u16>
    ensures { result ≡ port_in text.now }
{
    let mut bytes = [0; 2];
    match hex::decode_to_slice(text, &mut bytes) {
        Ok(()) => Some(u16::from_be_bytes(bytes)),
        Err(_) => None,
    }
}

/// What becomes of a disk that stops.
pub fn fate(text: &[u8]) -> Option<Fate>
    ensures { result ≡ fate_in text.now }
{
    if text == Fate::Kept.text().as_bytes() {
        Some(Fate::Kept)
    } else if text == Fate::Lost.text().as_bytes() {
        Some(Fate::Lost)
    } else if text == Fate::Torn.text().as_bytes() {
        Some(Fate::Torn)
    } else {
        None
    }
}
