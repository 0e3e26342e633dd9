//! The words behind `serve`, gone over one after the other: two options in any place, and three
//! positional words.

ghost use Rattle.std.specs.Prelude.{◌≡◌, ◌≤◌, IfSome};
ghost use Rattle.mt_words.specs.Sorting.{add_place, add_value, ended, first_number, next_place, sorted, sorted_before, sorted_word, whole};
ghost use Rattle.mt_words.specs.Words.{served, words_of};

use crate::command::is_option;
use crate::number::{datagrams_of, workers_of};
use crate::serve::{Serve, ServeOption, ServeWords};

/// Where a word stands.
#[derive(Clone, Copy)]
pub enum Stage {
    /// Before `--`.
    Before,
    /// Behind an option that wants its value.
    Waits(ServeOption),
    /// Behind `--`.
    Behind,
}

/// The places of the positional words, as far as there are.
#[derive(Clone, Copy)]
pub enum Places {
    /// None.
    Nothing,
    /// The configuration's.
    One(usize),
    /// That and the journal's.
    Two(usize, usize),
    /// Those and the address's.
    Three(usize, usize, usize),
}

/// What was found so far.
#[derive(Clone, Copy)]
pub struct Found {
    /// Where the next word stands.
    pub stage: Stage,
    /// The value of `--workers`.
    pub workers: Option<u32>,
    /// The value of `--datagrams`.
    pub datagrams: Option<u32>,
    /// The places of the positional words.
    pub places: Places,
}

/// What the words behind `serve` say.
pub fn served(words: &[String]) -> Option<ServeWords>
    ensures exact { result ≡ served (words_of words.now) }
    ensures workers { IfSome result (λ found. (1 ≤ found.asked.workers) × (found.asked.workers ≤ 8)) }
    ensures datagrams { IfSome result (λ found. (1 ≤ found.asked.datagrams) × (found.asked.datagrams ≤ 1048576)) }
{
    let mut found = Found {
        stage: Stage::Before,
        workers: None,
        datagrams: None,
        places: Places::Nothing,
    };
    for (i, word) in words.iter().enumerate() {
        match sorted(found, i + 1, word.as_str()) {
            Some(next) => found = next,
            None => return None,
        }
    }
    ended(found)
}

// The word at this place, and those before it.
fn sorted(found: Found, place: usize, word: &str) -> Option<Found>
    ensures { result ≡ sorted found place word.now }
{
    match found.stage {
        Stage::Before => sorted_before(found, place, word),
        Stage::Waits(option) => {
            let before = Found {
                stage: Stage::Before,
                ..found
            };
            add_value(option, word.as_bytes(), before)
        }
        Stage::Behind => add_place(place, found),
    }
}

fn sorted_before(found: Found, place: usize, word: &str) -> Option<Found>
    ensures { result ≡ sorted_before found place word.now }
{
    match word {
        "--" => Some(Found {
            stage: Stage::Behind,
            ..found
        }),
        "--workers" => Some(Found {
            stage: Stage::Waits(ServeOption::Workers),
            ..found
        }),
        "--datagrams" => Some(Found {
            stage: Stage::Waits(ServeOption::Datagrams),
            ..found
        }),
        _ => sorted_word(found, place, word.as_bytes()),
    }
}

// Before `--`, a word that is no option without its value.
fn sorted_word(found: Found, place: usize, word: &[u8]) -> Option<Found>
    ensures { result ≡ sorted_word found place word.now }
{
    if let Some(value) = word.strip_prefix(b"--workers=") {
        return add_value(ServeOption::Workers, value, found);
    }
    if let Some(value) = word.strip_prefix(b"--datagrams=") {
        return add_value(ServeOption::Datagrams, value, found);
    }
    if is_option(word) {
        return None;
    }
    add_place(place, found)
}

// The value of an option, which stands once.
fn add_value(option: ServeOption, value: &[u8], found: Found) -> Option<Found>
    ensures { result ≡ add_value option value.now found }
{
    match option {
        ServeOption::Workers => match first_number(found.workers, workers_of(value)) {
            Some(workers) => Some(Found {
                workers: Some(workers),
                ..found
            }),
            None => None,
        },
        ServeOption::Datagrams => match first_number(found.datagrams, datagrams_of(value)) {
            Some(datagrams) => Some(Found {
                datagrams: Some(datagrams),
                ..found
            }),
            None => None,
        },
    }
}

fn first_number(held: Option<u32>, number: Option<u32>) -> Option<u32>
    ensures { result ≡ first_number held number }
{
    match held {
        None => number,
        Some(_) => None,
    }
}

fn add_place(place: usize, found: Found) -> Option<Found>
    ensures { result ≡ add_place place found }
{
    match next_place(place, found.places) {
        Some(places) => Some(Found { places, ..found }),
        None => None,
    }
}

fn next_place(place: usize, places: Places) -> Option<Places>
    ensures { result ≡ next_place place places }
{
    match places {
        Places::Nothing => Some(Places::One(place)),
        Places::One(first) => Some(Places::Two(first, place)),
        Places::Two(first, second) => Some(Places::Three(first, second, place)),
        Places::Three(_, _, _) => None,
    }
}

// What was found behind the last word.
fn ended(found: Found) -> Option<ServeWords>
    ensures { result ≡ ended found }
{
    match found.stage {
        Stage::Before => whole(found.workers, found.datagrams, found.places),
        Stage::Waits(_) => None,
        Stage::Behind => whole(found.workers, found.datagrams, found.places),
    }
}

fn whole(workers: Option<u32>, datagrams: Option<u32>, places: Places) -> Option<ServeWords>
    ensures { result ≡ whole workers datagrams places }
{
    let Some(workers) = workers else {
        return None;
    };
    let Some(datagrams) = datagrams else {
        return None;
    };
    match places {
        Places::Three(config, journal, bind) => Some(ServeWords {
            asked: Serve { workers, datagrams },
            config,
            journal,
            bind,
        }),
        _ => None,
    }
}
