//! What the words of `serve` say. No word of another command is an option, so these are told here, with
//! the places of the positional ones.

ghost use Rattle.std.specs.Prelude.{◌≡◌, ◌≤◌, IfOk};
ghost use Rattle.std.specs.Option.{option_map};
ghost use Rattle.std.specs.Result.{result_ok};
ghost use Rattle.mt_words.specs.Words.{serve_words, words_of};

use crate::files::BadWords;
use crate::sorting::served;

/// What `serve` is asked for.
#[derive(Clone, Copy, Debug, PartialEq, Eq)]
pub struct Serve {
    /// How many workers serve, 1 to `MOST_WORKERS`.
    pub workers: u32,
    /// How many datagrams are served, 1 to `MOST_DATAGRAMS`.
    pub datagrams: u32,
}

/// The options of `serve`.
#[derive(Clone, Copy, Debug, PartialEq, Eq)]
pub enum ServeOption {
    /// `--workers`.
    Workers,
    /// `--datagrams`.
    Datagrams,
}

/// What the words of `serve` say: what is asked for, and the places of the positional words, from 0.
#[derive(Clone, Copy, Debug, PartialEq, Eq)]
pub struct ServeWords {
    /// The values of the options.
    pub asked: Serve,
    /// The configuration.
    pub config: usize,
    /// The journal.
    pub journal: usize,
    /// The address at which the node is served.
    pub bind: usize,
}

/// What the words of a command line ask of `serve`, the first being `serve`. It takes no memory.
pub fn serve_of(words: &[String]) -> Result<Serve, BadWords>
    ensures exact { result_ok result
        ≡ option_map (λ found. found.asked) (serve_words (words_of words.now)) }
    ensures workers { IfOk result (λ serve. (1 ≤ serve.workers) × (serve.workers ≤ 8)) }
    ensures datagrams { IfOk result (λ serve. (1 ≤ serve.datagrams) × (serve.datagrams ≤ 1048576)) }
{
    let [command, others @ ..] = words else {
        return Err(BadWords);
    };
    if command.as_str() != "serve" {
        return Err(BadWords);
    }
    match served(others) {
        Some(found) => Ok(found.asked),
        None => Err(BadWords),
    }
}
