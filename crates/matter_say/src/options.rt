//! The words of the command line.

use clap::{Arg, ArgAction, Command, Error, value_parser};
use std::alloc::Global;

/// What the words ask for.
#[derive(Clone, Copy)]
pub(crate) struct Options<'a> {
    /// The file of words, None for standard input.
    pub file: Option<&'a str>,
    /// The session for which a script is written, None for a recording.
    pub session: Option<u16>,
    /// The file of the configuration that has the session.
    pub config: Option<&'a str>,
    /// Whether each line is told by itself.
    pub lines: bool,
}

/// What the words ask for, the program's name first among them, or what is wrong with them, which also
/// has the texts of `--help` and `--version`.
pub(crate) fn options_of<'a>(alloc: Global, words: &'a [String]) -> Result<Options<'a>, Error> {
    let matches = command(alloc)?.try_get_matches_from(words)?;
    Ok(Options {
        file: matches.get_str("FILE"),
        session: matches.get_one::<u16>("session"),
        config: matches.get_str("config"),
        lines: matches.get_flag("lines"),
    })
}

fn command<'a>(alloc: Global) -> Result<Command<'a>, Error> {
    let file = Arg::new(alloc, "FILE").help("The words; standard input where no file is given");
    let session = Arg::new(alloc, "session")
        .long("session")
        .value_name("S")
        .value_parser(value_parser!(u16))
        .requires_arg("config")?
        .help("Write a script of what is said on session S, as ask of matter_node takes it");
    let config = Arg::new(alloc, "config")
        .long("config")
        .value_name("CONFIG")
        .requires_arg("session")?
        .help("The configuration of the node that has the session");
    let lines = Arg::new(alloc, "lines")
        .long("lines")
        .action(ArgAction::SetTrue)
        .conflicts_with("session")?
        .help("Tell each line by itself: what it comes to in a recording, or what is wrong");
    let command = Command::new(alloc, "matter_say")
        .version("1")
        .about("Writes a recording of what words say, as replay of matter_node plays it")
        .arg(file)?
        .arg(session)?
        .arg(config)?
        .arg(lines)?;
    Ok(command)
}
