//! Paths in words: ENDPOINT/CLUSTER/NAME, by names or numbers, with `*` for a wildcard.

use crate::fault::{Misfit, Wanted};
use crate::names::{Leaf, cluster_number};
use crate::numbers::{id_of, want_long, want_short};
use crate::words::Words;
use mt_files::{cut, number};
use mt_model::{Index, Path, Place, Version};

const PATH: Wanted = Wanted::Kind("a path: ENDPOINT/CLUSTER/NAME, with * for a wildcard");

const ENDPOINT: Wanted = Wanted::Kind("an endpoint from 0 to 65535, or *");

// What a path has before its last part.
#[derive(Clone, Copy)]
struct Front {
    endpoint: Option<u16>,
    cluster: Option<u32>,
}

/// A path, which must be next, and which items of a list it names.
pub(crate) fn want_path(words: &mut Words<'_>, leaf: Leaf) -> Result<Path, Misfit> {
    let Some((endpoint, behind)) = cut(b'/', words.peek()) else {
        return Err(words.misfit(PATH));
    };
    let Some((cluster, name)) = cut(b'/', behind) else {
        return Err(words.misfit(PATH));
    };
    let front = want_front(words, endpoint, cluster)?;
    let id = match name {
        b"*" => None,
        _ => match leaf.number(front.cluster, name) {
            Some(id) => Some(id),
            None => match id_of(name) {
                Some(id) => Some(id),
                None => return Err(words.misfit(leaf.wanted(front.cluster))),
            },
        },
    };
    words.next();
    Ok(Path {
        endpoint: front.endpoint,
        cluster: front.cluster,
        leaf: id,
        index: Index::Whole,
    })
}

// What these two parts of the next word name.
fn want_front(words: &mut Words<'_>, endpoint: &[u8], cluster: &[u8]) -> Result<Front, Misfit> {
    let endpoint = match endpoint {
        b"*" => None,
        _ => match endpoint_of(endpoint) {
            Some(endpoint) => Some(endpoint),
            None => return Err(words.misfit(ENDPOINT)),
        },
    };
    let cluster = match cluster {
        b"*" => None,
        _ => match cluster_of(cluster) {
            Some(cluster) => Some(cluster),
            None => return Err(words.misfit(Wanted::Cluster)),
        },
    };
    Ok(Front { endpoint, cluster })
}

fn endpoint_of(word: &[u8]) -> Option<u16> {
    u16::try_from(number(0, u16::MAX as u64, word)?).ok()
}

fn cluster_of(word: &[u8]) -> Option<u32> {
    match cluster_number(word) {
        Some(cluster) => Some(cluster),
        None => id_of(word),
    }
}

/// Which items of a list a path names, where words behind it say so: `appended`, or `item` and its number.
pub(crate) fn want_index(words: &mut Words<'_>) -> Result<Index, Misfit> {
    words.take_mark(b',');
    if words.take(b"appended") {
        return Ok(Index::Append);
    }
    if words.take(b"item") {
        return Ok(Index::At(want_short(words)?));
    }
    Ok(Index::Whole)
}

/// A path without a wildcard.
pub(crate) fn want_place(words: &mut Words<'_>, leaf: Leaf) -> Result<Place, Misfit> {
    let before = *words;
    let path = want_path(words, leaf)?;
    match path.place() {
        Some(place) => Ok(place),
        None => {
            *words = before;
            Err(words.misfit(Wanted::Kind("a path without a wildcard")))
        }
    }
}

/// `1/On-Off is 5`: a cluster on an endpoint, and its data version.
pub(crate) fn want_version(words: &mut Words<'_>) -> Result<Version, Misfit> {
    let wanted = Wanted::Kind("ENDPOINT/CLUSTER, without a wildcard");
    let Some((endpoint, cluster)) = cut(b'/', words.peek()) else {
        return Err(words.misfit(wanted));
    };
    let front = want_front(words, endpoint, cluster)?;
    let (Some(endpoint), Some(cluster)) = (front.endpoint, front.cluster) else {
        return Err(words.misfit(wanted));
    };
    words.next();
    words.want(b"is", &["is"])?;
    let version = want_long(words)?;
    Ok(Version {
        endpoint,
        cluster,
        version,
    })
}
