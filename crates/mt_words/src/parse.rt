//! The commands as the parser of command lines has them, and what it finds.

ghost use Rattle.std.specs.Prelude.{◌≡◌, ◌≢◌, ◌↔◌, [], IfErr, IfOk, false, true};
ghost use Rattle.clap.specs.Words.{app_of, fault_of, found_of, is_simple_and_free, kind_of, matches_of, rows_of, rule_of};
ghost use Rattle.mt_words.specs.Parsed.{compare_app, replay_app, required_rule, session_app, settle_app, soak_app};
ghost use Rattle.mt_words.specs.Words.{words_of};

use crate::asked::WordsFault;
use clap::error::ErrorKind;
use clap::{Arg, ArgAction, ArgMatches, Command};
use std::alloc::{AllocError, Global};

/// `replay CONFIG RECORDING`.
pub fn replay_command<'a>(alloc: Global) -> Result<Command<'a>, AllocError>
    ensures { IfOk result (λ command. app_of command ≡ replay_app) }
{
    Command::new(alloc, "replay")
        .disable_help_flag(true)
        .disable_version_flag(true)
        .arg(required(alloc, "config"))?
        .arg(required(alloc, "recording"))
}

/// `soak BEGIN COUNT CONFIG`.
pub fn soak_command<'a>(alloc: Global) -> Result<Command<'a>, AllocError>
    ensures { IfOk result (λ command. app_of command ≡ soak_app) }
{
    Command::new(alloc, "soak")
        .disable_help_flag(true)
        .disable_version_flag(true)
        .arg(required(alloc, "begin"))?
        .arg(required(alloc, "count"))?
        .arg(required(alloc, "config"))
}

/// `compare F CONFIG FIRST SECOND`.
pub fn compare_command<'a>(alloc: Global) -> Result<Command<'a>, AllocError>
    ensures { IfOk result (λ command. app_of command ≡ compare_app) }
{
    Command::new(alloc, "compare")
        .disable_help_flag(true)
        .disable_version_flag(true)
        .arg(required(alloc, "fabric"))?
        .arg(required(alloc, "config"))?
        .arg(required(alloc, "first"))?
        .arg(required(alloc, "second"))
}

/// `settle CONFIG JOURNAL`.
pub fn settle_command<'a>(alloc: Global) -> Result<Command<'a>, AllocError>
    ensures { IfOk result (λ command. app_of command ≡ settle_app) }
{
    Command::new(alloc, "settle")
        .disable_help_flag(true)
        .disable_version_flag(true)
        .arg(required(alloc, "config"))?
        .arg(required(alloc, "journal"))
}

/// `ask S CONFIG SCRIPT` and `show S CONFIG OUTPUT`, by the first word.
pub fn session_command<'a>(alloc: Global, name: &'a str) -> Result<Command<'a>, AllocError>
    ensures { IfOk result (λ command. app_of command ≡ session_app name.entry.now) }
{
    Command::new(alloc, name)
        .disable_help_flag(true)
        .disable_version_flag(true)
        .arg(required(alloc, "session"))?
        .arg(required(alloc, "config"))?
        .arg(required(alloc, "file"))
}

// A word that has to be there.
fn required<'a>(alloc: Global, id: &'a str) -> Arg<'a>
    ensures rule { rule_of result ≡ required_rule id.entry.now }
    ensures local { result.global ≡ false }
{
    Arg::new(alloc, id).required(true).action(ArgAction::Set)
}

/// What the parser finds among the words behind the first.
pub fn parse<'a>(command: Command<'a>, words: &'a [String]) -> Result<ArgMatches<'a>, WordsFault>
    requires { is_simple_and_free (app_of command) ≡ true }
    ensures fine { IfOk result (λ found. fault_of (app_of command.entry) (words_of words.entry.now) ≡ []) }
    ensures found { IfOk result (λ found. rows_of (found_of found)
        ≡ matches_of (app_of command.entry) (words_of words.entry.now)) }
    ensures bad { IfErr result (λ fault. fault ≡ WordsFault.Bad
        → fault_of (app_of command.entry) (words_of words.entry.now) ≢ []) }
{
    match command.try_get_matches_from(words) {
        Ok(found) => Ok(found),
        Err(error) => Err(fault_for(&error)),
    }
}

// Want of memory is no fault of the words.
fn fault_for(error: &clap::Error) -> WordsFault
    ensures { (result ≡ WordsFault.Bad) ↔ (kind_of error.now ≢ ErrorKind.OutOfMemory) }
{
    if error.kind() == ErrorKind::OutOfMemory {
        WordsFault::Memory
    } else {
        WordsFault::Bad
    }
}
