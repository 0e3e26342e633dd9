//! The commands, by their first word, and which words are positional.

ghost use Rattle.std.specs.Prelude.{◌≡◌};
ghost use Rattle.mt_words.specs.Words.{command_of, exactly, is_option, positional_from, words_of};

/// What a command line begins with.
#[derive(Clone, Copy, Debug, PartialEq, Eq)]
pub enum Command {
    /// `replay CONFIG RECORDING`.
    Replay,
    /// `soak BEGIN COUNT CONFIG`.
    Soak,
    /// `compare F CONFIG FIRST SECOND`.
    Compare,
    /// `settle CONFIG JOURNAL`.
    Settle,
    /// `ask S CONFIG SCRIPT`.
    Ask,
    /// `show S CONFIG OUTPUT`.
    Show,
    /// `serve --workers W --datagrams N CONFIG JOURNAL BIND`.
    Serve,
}

/// The command that a first word names.
pub fn command_of(word: &str) -> Option<Command>
    ensures { result ≡ command_of word.now }
{
    match word {
        "replay" => Some(Command::Replay),
        "soak" => Some(Command::Soak),
        "compare" => Some(Command::Compare),
        "settle" => Some(Command::Settle),
        "ask" => Some(Command::Ask),
        "show" => Some(Command::Show),
        "serve" => Some(Command::Serve),
        _ => None,
    }
}

/// The places of the positional words behind the first word, where there are exactly so many. A word
/// behind `--` is positional, whatever it begins with; before it, no word that begins with `-` is.
pub fn places<const N: usize>(words: &[String]) -> Option<[usize; N]>
    ensures { result ≡ exactly N (positional_from 1 (words_of words.now)) }
{
    let mut places = [0; N];
    let mut count = 0;
    let mut is_behind = false;
    for (i, word) in words.iter().enumerate() {
        if !is_behind {
            if word.as_str() == "--" {
                is_behind = true;
                continue;
            }
            if is_option(word.as_bytes()) {
                return None;
            }
        }
        if count == N {
            return None;
        }
        places[count] = i + 1;
        count += 1;
    }
    if count == N { Some(places) } else { None }
}

/// Whether a word begins with `-` and is longer than that; `--` is one.
pub fn is_option(word: &[u8]) -> bool
    ensures { result ≡ is_option word.now }
{
    match word {
        [] => false,
        [first, others @ ..] => *first == b'-' && !others.is_empty(),
    }
}
