//! What a read and a subscription ask for, in words.

use crate::fault::{Misfit, Wanted};
use crate::names::Leaf;
use crate::numbers::{want_number, want_short};
use crate::paths::{want_index, want_path, want_version};
use crate::words::Words;
use mt_model::{Index, Path, Paths, Request, Version, Versions};
use std::alloc::Global;

// What fits behind a read, and behind a subscription.
const READ: &[&str] = &["a path", "events", "from", "unless", "all"];

const SUBSCRIPTION: &[&str] = &[
    "a path", "events", "from", "unless", "all", "floor", "ceiling", "alone",
];

// What was said so far. In words, whether the next path is that of an event.
#[derive(Drop)]
struct Query {
    paths: Vec<Path>,
    events: Vec<Path>,
    versions: Vec<Version>,
    minimum: u64,
    filtered: bool,
    are_events: bool,
    // Of a subscription alone.
    keep: bool,
    floor: Option<u16>,
    ceiling: Option<u16>,
}

impl Query {
    fn new(alloc: Global) -> Query {
        Query {
            paths: Vec::new(alloc),
            events: Vec::new(alloc),
            versions: Vec::new(alloc),
            minimum: 0,
            filtered: true,
            are_events: false,
            keep: true,
            floor: None,
            ceiling: None,
        }
    }

    // Adds what the next words ask for.
    fn add(&mut self, words: &mut Words<'_>) -> Result<(), Misfit> {
        if words.take(b"events") {
            self.are_events = true;
        } else if words.take(b"from") {
            words.take(b"number");
            self.minimum = want_number(words, 0, u64::MAX, "the number of an event")?;
        } else if words.take(b"unless") {
            self.versions.push(want_version(words)?)?;
        } else if words.take(b"all") {
            self.filtered = false;
        } else {
            self.add_path(words)?;
        }
        Ok(())
    }

    fn add_path(&mut self, words: &mut Words<'_>) -> Result<(), Misfit> {
        if self.are_events {
            self.events.push(want_path(words, Leaf::Event)?)?;
            return Ok(());
        }
        let path = want_path(words, Leaf::Attribute)?;
        let index = want_index(words)?;
        self.paths.push(Path { index, ..path })?;
        Ok(())
    }

    // Adds what the next words say of a subscription alone; false where they say nothing of it.
    fn add_pace(&mut self, words: &mut Words<'_>) -> Result<bool, Misfit> {
        if words.take(b"floor") {
            self.floor = Some(want_short(words)?);
        } else if words.take(b"ceiling") {
            self.ceiling = Some(want_short(words)?);
        } else if words.take(b"alone") {
            self.keep = false;
        } else {
            return Ok(false);
        }
        Ok(true)
    }
}

/// A read, behind its word.
pub(crate) fn want_read(alloc: Global, words: &mut Words<'_>) -> Result<Request, Misfit> {
    let mut query = Query::new(alloc);
    for _ in 0..words.most() {
        if words.is_done() {
            break;
        }
        want_part(words, READ)?;
        query.add(words)?;
        words.take_mark(b',');
    }
    Ok(Request::Read {
        paths: Paths::from_vec(query.paths),
        events: Paths::from_vec(query.events),
        minimum: query.minimum,
        filtered: query.filtered,
        versions: Versions::from_vec(query.versions),
    })
}

/// A subscription, behind its word.
pub(crate) fn want_subscription(alloc: Global, words: &mut Words<'_>) -> Result<Request, Misfit> {
    let mut query = Query::new(alloc);
    for _ in 0..words.most() {
        if words.is_done() {
            break;
        }
        want_part(words, SUBSCRIPTION)?;
        if !query.add_pace(words)? {
            query.add(words)?;
        }
        words.take_mark(b',');
    }
    let Some(floor) = query.floor else {
        return Err(words.misfit(Wanted::Words(&["floor"])));
    };
    let Some(ceiling) = query.ceiling else {
        return Err(words.misfit(Wanted::Words(&["ceiling"])));
    };
    Ok(Request::Subscribe {
        keep: query.keep,
        floor,
        ceiling,
        paths: Paths::from_vec(query.paths),
        events: Paths::from_vec(query.events),
        minimum: query.minimum,
        filtered: query.filtered,
        versions: Versions::from_vec(query.versions),
    })
}

// That what stands next is a part: one of these words, or a path.
fn want_part(words: &mut Words<'_>, fitting: &'static [&'static str]) -> Result<(), Misfit> {
    let word = words.peek();
    if word.contains(&b'/') || fitting.iter().any(|other| other.as_bytes() == word) {
        Ok(())
    } else {
        Err(words.misfit(Wanted::Words(fitting)))
    }
}
