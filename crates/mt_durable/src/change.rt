//! A change as bytes.

ghost use Rattle.std.specs.Prelude.{◌≡◌, ◌++◌, IfOk, IsTrue, OnErr, OnOk};
ghost use Rattle.mt_durable.specs.Changes.{change_bytes, entry_tree, entry_trees};
ghost use Rattle.mt_durable.specs.Maps.{have_values, keys_ascend};
ghost use Rattle.mt_tlv.specs.View.{elements, tree};

use crate::durable::{Change, Durable, Entry};
use mt_tlv::{Members, Tag, Value, write};
use std::alloc::{AllocError, Global};

/// Writes the bytes of a change at the end. It takes the change apart for it.
pub fn write_change(alloc: Global, change: Change, out: &mut Vec<u8>) -> Result<(), AllocError>
    ensures written { OnOk result (out.new.items ≡ out.old.items ++ change_bytes change) }
    ensures restored { OnErr result (out.new.items ≡ out.old.items) }
{
    let mut structures = Vec::new(alloc);
    for entry in change.into_vec() {
        let structure = structure_of(alloc, entry)?;
        structures.push((Tag::Anonymous, structure))?;
    }
    let array = Value::Array(Members::from_vec(structures));
    write(&Tag::Anonymous, &array, out)
}

/// Writes the image of a map at the end: the bytes of the change that leads to it from the empty map.
pub fn write_image(alloc: Global, map: &Durable, out: &mut Vec<u8>) -> Result<(), AllocError>
    ensures written { OnOk result (out.new.items ≡ out.old.items ++ change_bytes map.now) }
    ensures ascend { OnOk result (IsTrue (keys_ascend map.now)) }
    ensures whole { OnOk result (IsTrue (have_values map.now)) }
    ensures restored { OnErr result (out.new.items ≡ out.old.items) }
{
    write_change(alloc, map.copy()?.into_change(), out)
}

// An entry as a structure.
fn structure_of(alloc: Global, entry: Entry) -> Result<Value, AllocError>
    ensures { IfOk result (λ value. tree value ≡ entry_tree entry) }
{
    let Entry { key, value } = entry;
    let mut members = Vec::new(alloc);
    members.push((Tag::Context(0), Value::Octets(key)))?;
    if let Some(value) = value {
        members.push((Tag::Context(1), value))?;
    }
    Ok(Value::Struct(Members::from_vec(members)))
}
