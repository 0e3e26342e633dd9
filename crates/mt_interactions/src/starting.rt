//! What a node commits first.

ghost use Rattle.std.specs.Prelude.{◌≡◌, ◌∷◌, [], Some, IfOk};
ghost use Rattle.mt_durable.specs.Changes.{change_bytes};
ghost use Rattle.mt_tlv.specs.declared.value.Value.TheVariants.{Uint};
ghost use Rattle.mt_node.specs.mt_regained.Begun.{first_change};

use mt_durable::{Change, Entry, write_change};
use mt_tlv::{Bytes, Value};
use std::alloc::{AllocError, Global};

// The keys of how often the node has started, and of the ceiling of event numbers.
const BOOT: u8 = 1;

const CEILING: u8 = 2;

/// The bytes of the change that a node commits first: the number of its boot, and the ceiling of event numbers that are set aside
/// for it.
pub(crate) fn first_change(alloc: Global, boot: u32, ceiling: u64) -> Result<Bytes, AllocError>
    ensures { IfOk result (λ bytes. bytes ≡ change_bytes (first_change boot ceiling)) }
{
    let boot = number_under(alloc, BOOT, boot as u64)?;
    let ceiling = number_under(alloc, CEILING, ceiling)?;
    let entries = vec![in alloc; boot, ceiling]?;
    let mut bytes = Vec::new(alloc);
    write_change(alloc, Change::from_vec(entries), &mut bytes)?;
    Ok(Bytes::from_vec(bytes))
}

// A number under a key of one byte.
fn number_under(alloc: Global, key: u8, number: u64) -> Result<Entry, AllocError>
    ensures { IfOk result (λ entry. entry ≡ record { key = key ∷ []; value = Some (Uint number) }) }
{
    Ok(Entry {
        key: Bytes::from_slice(alloc, &[key])?,
        value: Some(Value::Uint(number)),
    })
}
