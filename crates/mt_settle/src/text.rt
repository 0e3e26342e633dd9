//! The lines of a map.

ghost use Rattle.std.specs.Prelude.{◌≡◌, ◌++◌, IfOk, OnOk};
ghost use Rattle.hex.specs.Hex.{encode_lower};
ghost use Rattle.mt_files.specs.Lines.{ended, text_of};
ghost use Rattle.mt_settle.specs.Settled.{settled_line, settled_lines, value_bytes};

use hex::encode;
use mt_durable::{Durable, Entry};
use mt_tlv::{Tag, write};
use std::alloc::{AllocError, Global};

/// A line for each key, with its value, in hex.
pub(crate) fn text_of(alloc: Global, map: &Durable) -> Result<Vec<u8>, AllocError>
    ensures { IfOk result (λ text. text.items ≡ text_of (settled_lines map.now)) }
{
    let mut text = Vec::new(alloc);
    for entry in map.as_slice() {
        push_line(alloc, entry, &mut text)?;
    }
    Ok(text)
}

fn push_line(alloc: Global, entry: &Entry, text: &mut Vec<u8>) -> Result<(), AllocError>
    ensures { OnOk result (text.new.items ≡ text.old.items ++ ended (settled_line entry.now)) }
{
    let value = value_bytes(alloc, entry)?;
    text.extend_from_slice(b"K ")?;
    push_hex(alloc, entry.key.as_slice(), text)?;
    text.push(b' ')?;
    push_hex(alloc, &value, text)?;
    text.push(b'\n')?;
    Ok(())
}

fn value_bytes(alloc: Global, entry: &Entry) -> Result<Vec<u8>, AllocError>
    ensures { IfOk result (λ bytes. bytes.items ≡ value_bytes entry.now.value) }
{
    let mut bytes = Vec::new(alloc);
    if let Some(value) = &entry.value {
        write(&Tag::Anonymous, value, &mut bytes)?;
    }
    Ok(bytes)
}

fn push_hex(alloc: Global, bytes: &[u8], text: &mut Vec<u8>) -> Result<(), AllocError>
    ensures { OnOk result (text.new.items ≡ text.old.items ++ encode_lower bytes.now) }
{
    let digits = encode(alloc, bytes)?;
    text.extend_from_slice(digits.as_bytes())
}
