//! Words that are numbers.

ghost use Rattle.std.specs.Prelude.{◌≡◌};
ghost use Rattle.mt_words.specs.Words.{begin_of, count_of, datagrams_of, fabric_of, session_of, workers_of};

use mt_files::number;

/// The most that a soak may count.
pub const MOST_COUNT: u32 = 100_000;

/// The most workers that may serve.
pub const MOST_WORKERS: u32 = 8;

/// The most datagrams that may be served.
pub const MOST_DATAGRAMS: u32 = 1_048_576;

/// Any number of 64 bits.
pub fn begin_of(word: &str) -> Option<u64>
    ensures { result ≡ begin_of word.now }
{
    number(0, u64::MAX, word.as_bytes())
}

/// How many a soak counts: 1 to `MOST_COUNT`.
pub fn count_of(word: &str) -> Option<u32>
    ensures { result ≡ count_of word.now }
{
    match number(1, MOST_COUNT as u64, word.as_bytes()) {
        Some(count) => Some(count as u32),
        None => None,
    }
}

/// A fabric: 1 to 254.
pub fn fabric_of(word: &str) -> Option<u8>
    ensures { result ≡ fabric_of word.now }
{
    match number(1, 254, word.as_bytes()) {
        Some(fabric) => Some(fabric as u8),
        None => None,
    }
}

/// The node's id of a session: 1 to 65535.
pub fn session_of(word: &str) -> Option<u16>
    ensures { result ≡ session_of word.now }
{
    match number(1, u16::MAX as u64, word.as_bytes()) {
        Some(session) => Some(session as u16),
        None => None,
    }
}

/// How many workers serve: 1 to `MOST_WORKERS`.
pub fn workers_of(word: &[u8]) -> Option<u32>
    ensures { result ≡ workers_of word.now }
{
    match number(1, MOST_WORKERS as u64, word) {
        Some(workers) => Some(workers as u32),
        None => None,
    }
}

/// How many datagrams are served: 1 to `MOST_DATAGRAMS`.
pub fn datagrams_of(word: &[u8]) -> Option<u32>
    ensures { result ≡ datagrams_of word.now }
{
    match number(1, MOST_DATAGRAMS as u64, word) {
        Some(datagrams) => Some(datagrams as u32),
        None => None,
    }
}
