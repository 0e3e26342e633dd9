//! A change as the bytes that are committed for it.

ghost use Rattle.std.specs.Prelude.{◌≡◌, ◌++◌, IfOk, OnOk};
ghost use Rattle.mt_tlv.specs.Narrow.{narrow_elements};
ghost use Rattle.mt_durable.specs.Changes.{value_field};
ghost use Rattle.mt_durable.specs.Fronts.{entries_bytes, entry_bytes};
ghost use Rattle.mt_lasting.specs.Changes.{bytes_to_commit, raised};

use crate::keys::key_bytes;
use mt_durable::Entry;
use mt_grammar::Key;
use mt_tlv::{Bytes, Tag, Value, write};
use std::alloc::{AllocError, Global};

// The control octets of an anonymous structure and of an anonymous array, and of the end of either.
const STRUCTURE: u8 = 0x15;

const ARRAY: u8 = 0x16;

const END_OF_CONTAINER: u8 = 0x18;

// How many bytes there is room for at first, so that those of a small change are not moved.
const FIRST_ROOM: usize = 256;

/// The bytes that are committed for a change, with what it says in front of a ceiling of event numbers that is raised from the
/// first of these numbers to the second: none where nothing changes, and then no memory is taken.
pub fn bytes_to_commit(
    alloc: Global,
    ceiling: u64,
    next: u64,
    change: &[Entry],
) -> Result<Bytes, AllocError>
    ensures { IfOk result (λ bytes. bytes ≡ bytes_to_commit (raised ceiling next ++ change.now)) }
{
    if ceiling == next && change.is_empty() {
        return Ok(Bytes::new(alloc));
    }
    let mut out = Vec::with_capacity(alloc, FIRST_ROOM)?;
    out.push(ARRAY)?;
    write_raised(alloc, ceiling, next, &mut out)?;
    write_entries(change, &mut out)?;
    out.push(END_OF_CONTAINER)?;
    Ok(Bytes::from_vec(out))
}

// What a change says of the ceiling.
fn write_raised(alloc: Global, ceiling: u64, next: u64, out: &mut Vec<u8>) -> Result<(), AllocError>
    ensures { OnOk result (out.new.items ≡ out.old.items ++ entries_bytes (raised ceiling next)) }
{
    if ceiling == next {
        return Ok(());
    }
    let entry = Entry {
        key: key_bytes(alloc, &Key::Ceiling)?,
        value: Some(Value::Uint(next)),
    };
    write_entry(&entry, out)
}

fn write_entries(entries: &[Entry], out: &mut Vec<u8>) -> Result<(), AllocError>
    ensures { OnOk result (out.new.items ≡ out.old.items ++ entries_bytes entries.now) }
{
    for entry in entries {
        write_entry(entry, out)?;
    }
    Ok(())
}

// A structure: 0 the key, 1 the value, if there is one.
fn write_entry(entry: &Entry, out: &mut Vec<u8>) -> Result<(), AllocError>
    ensures { OnOk result (out.new.items ≡ out.old.items ++ entry_bytes entry.now) }
{
    out.push(STRUCTURE)?;
    write(&Tag::Context(0), &Value::Octets(entry.key.copy()?), out)?;
    write_value(&entry.value, out)?;
    out.push(END_OF_CONTAINER)?;
    Ok(())
}

fn write_value(value: &Option<Value>, out: &mut Vec<u8>) -> Result<(), AllocError>
    ensures { OnOk result (out.new.items ≡ out.old.items ++ narrow_elements (value_field value.now)) }
{
    match value {
        Some(value) => write(&Tag::Context(1), value, out),
        None => Ok(()),
    }
}
