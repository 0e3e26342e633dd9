//! Numbers of calls.

use std::alloc::{AllocError, Global};

/// The numbers of a text, between which spaces stand.
pub(crate) fn numbers(alloc: Global, text: &str) -> Result<Vec<u64>, AllocError> {
    let mut all = Vec::new(alloc);
    for word in text.split_whitespace() {
        if let Ok(number) = word.parse::<u64>() {
            all.push(number)?;
        }
    }
    Ok(all)
}
