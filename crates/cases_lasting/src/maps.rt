//! The map that is kept of a node, as it is printed.

use cases_page::Page;
use mt_durable::{Durable, Entry, write_image};
use mt_grammar::is_in_grammar;
use mt_tlv::{Tag, Value, write};
use std::alloc::{AllocError, Global};

/// Adds each key with its value, whether the map is in the grammar of states, and how many bytes its image has.
pub(crate) fn add_kept(alloc: Global, page: &mut Page, kept: &Durable) -> Result<(), AllocError> {
    for entry in kept.as_slice() {
        add_entry(alloc, page, entry)?;
    }
    page.line(grammar(is_in_grammar(alloc, kept)?));
    let mut image = Vec::new(alloc);
    write_image(alloc, kept, &mut image)?;
    page.add("image ");
    page.add_number(image.len() as u64);
    page.end_line();
    Ok(())
}

fn grammar(is_in: bool) -> &'static str {
    if is_in {
        "in the grammar"
    } else {
        "not in the grammar"
    }
}

// A key and the bytes of its value, both in hex.
fn add_entry(alloc: Global, page: &mut Page, entry: &Entry) -> Result<(), AllocError> {
    page.add("K ");
    page.add_hex(entry.key.as_slice());
    if let Some(value) = &entry.value {
        add_value(alloc, page, value)?;
    }
    page.end_line();
    Ok(())
}

/// Adds the bytes of a value in hex, behind a space.
pub(crate) fn add_value(alloc: Global, page: &mut Page, value: &Value) -> Result<(), AllocError> {
    let mut bytes = Vec::new(alloc);
    write(&Tag::Anonymous, value, &mut bytes)?;
    page.add(" ");
    page.add_hex(&bytes);
    Ok(())
}
