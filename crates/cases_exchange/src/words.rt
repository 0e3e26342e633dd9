//! The words of a line. `-` stands for what is not there.

use cases_page::{byte, hex_bytes, short, word};
use mt_exchange::Key;
use mt_frame::ProtocolHeader;
use mt_model::{Payload, Payloads};
use mt_tlv::Bytes;
use std::alloc::{AllocError, Global};

/// A number of 32 bits, where there is one.
pub(crate) fn number_or_none(words: &[&str], place: usize) -> Option<u32> {
    word(words, place).parse::<u32>().ok()
}

// A time in ms, where there is one.
fn time(words: &[&str], place: usize) -> Option<u64> {
    word(words, place).parse::<u64>().ok()
}

/// The key of an exchange: `theirs` or `ours`, then its id.
pub(crate) fn key(words: &[&str]) -> Key {
    Key {
        exchange: short(words, 2),
        ours: word(words, 1) == "ours",
    }
}

/// The header of a message: its exchange, opcode, protocol, vendor, and what it acknowledges.
pub(crate) fn header(words: &[&str]) -> ProtocolHeader {
    let key = key(words);
    ProtocolHeader {
        initiator: !key.ours,
        reliable: true,
        opcode: byte(words, 3),
        exchange: key.exchange,
        protocol: short(words, 4),
        vendor: word(words, 5).parse::<u16>().ok(),
        acknowledged: number_or_none(words, 6),
    }
}

/// Payloads: their opcode, until when the request behind them is awaited, and the bytes of each.
pub(crate) fn payloads(
    alloc: Global,
    words: &[&str],
    place: usize,
) -> Result<Payloads, AllocError> {
    let mut list = Payloads::new(alloc);
    let opcode = byte(words, place);
    let deadline = time(words, place.saturating_add(1));
    for part in words.iter().skip(place.saturating_add(2)) {
        list.push(Payload {
            opcode,
            bytes: Bytes::from_vec(hex_bytes(alloc, part)),
            deadline,
        })?;
    }
    Ok(list)
}
