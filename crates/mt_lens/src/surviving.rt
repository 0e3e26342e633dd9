//! What is left of a fail-safe behind a change that was committed.

use crate::told::Expiry;
use mt_durable::{Change, Durable, read_change};
use mt_grammar::{Key, kept_in, key_in};
use std::alloc::{AllocError, Global};

/// What an expiry takes back of the fail-safe that is armed behind a change, None where none is: what it takes back of the
/// one before, where the change does not say. Bytes that are no change of a node are taken as want of memory.
pub(crate) fn surviving_expiry(
    alloc: Global,
    bytes: &[u8],
    before: Option<Expiry>,
) -> Result<Option<Expiry>, AllocError> {
    let Ok(change) = read_change(alloc, bytes) else {
        return Err(AllocError);
    };
    if !names_failsafe(&change) {
        return Ok(before);
    }
    let mut map = Durable::new(alloc);
    map.merge(change)?;
    let Some(contents) = kept_in(alloc, &map)? else {
        return Err(AllocError);
    };
    Ok(
        contents.failsafe.as_ref().map(|armed| Expiry {
            added: armed.added,
            updated: armed.updated,
        }),
    )
}

fn names_failsafe(change: &Change) -> bool {
    for entry in change.as_slice() {
        if let Some(Key::Failsafe) = key_in(entry.key.as_slice()) {
            return true;
        }
    }
    false
}
