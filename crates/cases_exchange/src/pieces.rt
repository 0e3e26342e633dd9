//! Long texts, written short in a table.

use std::alloc::{AllocError, Global};

/// The text in which each piece between two marks, `count:part`, stands for so many times the part. In a part
/// `#` is the number of its turn, from 1, and `@` the same in 16 digits.
pub(crate) fn spelled(alloc: Global, text: &str, mark: char) -> Result<String, AllocError> {
    let mut all = String::new(alloc);
    let mut is_piece = false;
    for part in text.split(mark) {
        match part.split_once(':') {
            Some((count, part)) if is_piece => push_turns(&mut all, alloc, count, part)?,
            _ => all.push_str(part)?,
        }
        is_piece = !is_piece;
    }
    Ok(all)
}

fn push_turns(all: &mut String, alloc: Global, count: &str, part: &str) -> Result<(), AllocError> {
    let count = count.parse::<u32>().unwrap_or(0);
    let is_same = !part.contains('#') && !part.contains('@');
    for number in 1..=count {
        if is_same {
            all.push_str(part)?;
        } else {
            push_turn(all, alloc, number, part)?;
        }
    }
    Ok(())
}

fn push_turn(all: &mut String, alloc: Global, number: u32, part: &str) -> Result<(), AllocError> {
    let long = format!(in alloc; "{number:016}")?;
    let short = format!(in alloc; "{number}")?;
    let part = part.replace(alloc, '@', long.as_str())?;
    let part = part.as_str().replace(alloc, '#', short.as_str())?;
    all.push_str(part.as_str())
}
