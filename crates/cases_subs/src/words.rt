//! The words of a line: places and paths, and whoever asks. A word that is no number is read as 0.

use mt_model::{Actor, Auth, Index, Path, Paths, Place};
use std::alloc::{AllocError, Global};

/// A node of a fabric over CASE, and whoever commissions over PASE where the fabric is 0.
pub(crate) fn actor(fabric: u8) -> Actor {
    let auth = if fabric == 0 { Auth::Pase } else { Auth::Case };
    Actor {
        fabric,
        auth,
        node: 1,
        cats: [0; 3],
        session: None,
    }
}

/// Paths with `,` between them; `-` stands for none.
pub(crate) fn paths(alloc: Global, word: &str) -> Result<Paths, AllocError> {
    let mut paths = Paths::new(alloc);
    if word == "-" {
        return Ok(paths);
    }
    for part in word.split(',') {
        paths.push(path(part))?;
    }
    Ok(paths)
}

/// The place of this name.
pub(crate) fn place(word: &str) -> Place {
    let (endpoint, ids) = word.split_once('/').unwrap_or((word, ""));
    let (cluster, leaf) = ids.split_once('/').unwrap_or((ids, ""));
    Place {
        endpoint: short(endpoint),
        cluster: id(cluster),
        leaf: id(leaf),
    }
}

fn path(word: &str) -> Path {
    let (endpoint, ids) = word.split_once('/').unwrap_or((word, ""));
    let (cluster, leaf) = ids.split_once('/').unwrap_or((ids, ""));
    Path {
        endpoint: if endpoint == "*" {
            None
        } else {
            Some(short(endpoint))
        },
        cluster: id_or_any(cluster),
        leaf: id_or_any(leaf),
        index: Index::Whole,
    }
}

// A number in hex digits, or none as `*`.
fn id_or_any(word: &str) -> Option<u32> {
    if word == "*" {
        return None;
    }
    Some(id(word))
}

fn id(word: &str) -> u32 {
    u32::from_str_radix(word, 16).unwrap_or(0)
}

fn short(word: &str) -> u16 {
    u16::from_str_radix(word, 16).unwrap_or(0)
}
