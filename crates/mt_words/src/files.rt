//! Which words name files.

ghost use Rattle.std.specs.Prelude.{◌≡◌};
ghost use Rattle.std.specs.Option.{option_and_then, option_map};
ghost use Rattle.std.specs.Result.{result_ok};
ghost use Rattle.mt_words.specs.Words.{files_at, files_of, positional_from, serve_files, served, words_of};

use crate::command::{Command, command_of, places};
use crate::sorting::served;

/// Which words name the files of a command, by their places from 0; None where the command has no
/// such word.
#[derive(Clone, Copy, Debug, PartialEq, Eq)]
pub struct Files {
    /// The configuration.
    pub config: usize,
    /// The first text behind it: a recording, a script, or an output that is shown.
    pub first: Option<usize>,
    /// The second recording.
    pub second: Option<usize>,
    /// The journal.
    pub journal: Option<usize>,
    /// The address at which the node is served.
    pub bind: Option<usize>,
}

/// The words have no form.
#[derive(Clone, Copy, Debug, PartialEq, Eq)]
pub struct BadWords;

/// The files that the words of a command line name, its first word being the command. It takes no
/// memory. Numbers among the words are not looked at, but for those of the options of `serve`: its words
/// are bad where `serve_of` says so.
pub fn files_of(words: &[String]) -> Result<Files, BadWords>
    ensures { result_ok result ≡ files_of (words_of words.now) }
{
    let [command, others @ ..] = words else {
        return Err(BadWords);
    };
    match command_of(command.as_str()) {
        Some(Command::Replay) => replay_files(others),
        Some(Command::Soak) => soak_files(others),
        Some(Command::Compare) => compare_files(others),
        Some(Command::Settle) => settle_files(others),
        Some(Command::Ask) => session_files(others),
        Some(Command::Show) => session_files(others),
        Some(Command::Serve) => serve_files(others),
        None => Err(BadWords),
    }
}

fn replay_files(words: &[String]) -> Result<Files, BadWords>
    ensures { result_ok result
        ≡ option_and_then (files_at Command.Replay) (positional_from 1 (words_of words.now)) }
{
    match places::<2>(words) {
        Some(places) => Ok(Files {
            config: places[0],
            first: Some(places[1]),
            second: None,
            journal: None,
            bind: None,
        }),
        None => Err(BadWords),
    }
}

fn soak_files(words: &[String]) -> Result<Files, BadWords>
    ensures { result_ok result
        ≡ option_and_then (files_at Command.Soak) (positional_from 1 (words_of words.now)) }
{
    match places::<3>(words) {
        Some(places) => Ok(Files {
            config: places[2],
            first: None,
            second: None,
            journal: None,
            bind: None,
        }),
        None => Err(BadWords),
    }
}

fn compare_files(words: &[String]) -> Result<Files, BadWords>
    ensures { result_ok result
        ≡ option_and_then (files_at Command.Compare) (positional_from 1 (words_of words.now)) }
{
    match places::<4>(words) {
        Some(places) => Ok(Files {
            config: places[1],
            first: Some(places[2]),
            second: Some(places[3]),
            journal: None,
            bind: None,
        }),
        None => Err(BadWords),
    }
}

fn settle_files(words: &[String]) -> Result<Files, BadWords>
    ensures { result_ok result
        ≡ option_and_then (files_at Command.Settle) (positional_from 1 (words_of words.now)) }
{
    match places::<2>(words) {
        Some(places) => Ok(Files {
            config: places[0],
            first: None,
            second: None,
            journal: Some(places[1]),
            bind: None,
        }),
        None => Err(BadWords),
    }
}

fn session_files(words: &[String]) -> Result<Files, BadWords>
    ensures ask { result_ok result
        ≡ option_and_then (files_at Command.Ask) (positional_from 1 (words_of words.now)) }
    ensures show { result_ok result
        ≡ option_and_then (files_at Command.Show) (positional_from 1 (words_of words.now)) }
{
    match places::<3>(words) {
        Some(places) => {
            let [_session, config, file] = places;
            Ok(Files {
                config,
                first: Some(file),
                second: None,
                journal: None,
                bind: None,
            })
        }
        None => Err(BadWords),
    }
}

fn serve_files(words: &[String]) -> Result<Files, BadWords>
    ensures { result_ok result ≡ option_map serve_files (served (words_of words.now)) }
{
    match served(words) {
        Some(found) => Ok(Files {
            config: found.config,
            first: None,
            second: None,
            journal: Some(found.journal),
            bind: Some(found.bind),
        }),
        None => Err(BadWords),
    }
}
