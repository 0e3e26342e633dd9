//! The words of the command line.

use clap::{Arg, ArgAction, Command, Error, value_parser};
use std::alloc::Global;

/// What the words ask for.
#[derive(Clone, Copy)]
pub(crate) struct Options<'a> {
    /// The names of the files. No recording is played where a journal is given.
    pub config: &'a str,
    pub recording: &'a str,
    pub journal: Option<&'a str>,
    /// Whether the configuration is checked alone.
    pub check: bool,
    /// Whether it is shown in words, and as objects of JSON.
    pub words: bool,
    pub json: bool,
    /// The fabric for which the recording is compared with a second one.
    pub compare: Option<u8>,
    pub second: &'a str,
    /// Whether it is told why a line was sent nothing or was refused something.
    pub why: bool,
    /// The one fabric that is shown, None where all are.
    pub fabric: Option<u8>,
}

/// What the words ask for, the program's name first among them, or what is wrong with them, which also
/// has the texts of `--help` and `--version`.
pub(crate) fn options_of<'a>(alloc: Global, words: &'a [String]) -> Result<Options<'a>, Error> {
    let matches = command(alloc)?.try_get_matches_from(words)?;
    let json = matches.get_flag("json");
    Ok(Options {
        config: matches.get_str("CONFIG").unwrap_or(""),
        recording: matches.get_str("RECORDING").unwrap_or(""),
        journal: matches.get_str("journal"),
        check: matches.get_flag("check"),
        words: matches.get_flag("words") || !json,
        json,
        compare: matches.get_one::<u8>("compare"),
        second: matches.get_str("SECOND").unwrap_or(""),
        why: matches.get_flag("why"),
        fabric: matches.get_one::<u8>("fabric"),
    })
}

fn command<'a>(alloc: Global) -> Result<Command<'a>, Error> {
    let command = Command::new(alloc, "matter_lens").version("1").about(
        "Plays a recording as replay does, and shows it as a conversation; or shows what a journal keeps, what is wrong with a configuration, or where two recordings differ",
    );
    with_ways(alloc, with_looks(alloc, with_files(alloc, command)?)?)
}

// The files.
fn with_files<'a>(alloc: Global, command: Command<'a>) -> Result<Command<'a>, Error> {
    let config = Arg::new(alloc, "CONFIG")
        .required(true)
        .help("The configuration of the node, as replay takes it");
    let recording = Arg::new(alloc, "RECORDING")
        .required_unless_present("journal")?
        .required_unless_present("check")?
        .conflicts_with("journal")?
        .help("The recording");
    // It conflicts by itself with what `--compare` conflicts with: clap does not ask for a word that another one excludes,
    // so with `--why` alone a second recording would be passed over.
    let second = without_looks(Arg::new(alloc, "SECOND"))?
        .requires_arg("compare")?
        .help("The recording with which the first is compared");
    Ok(command.arg(config)?.arg(recording)?.arg(second)?)
}

// What has no form with the words that say how a run is shown.
fn without_looks(arg: Arg<'_>) -> Result<Arg<'_>, Error> {
    Ok(
        arg.conflicts_with("json")?
            .conflicts_with("words")?
            .conflicts_with("fabric")?
            .conflicts_with("why")?,
    )
}

// How a run is shown.
fn with_looks<'a>(alloc: Global, command: Command<'a>) -> Result<Command<'a>, Error> {
    let json = Arg::new(alloc, "json")
        .long("json")
        .action(ArgAction::SetTrue)
        .conflicts_with("journal")?
        .help("Show an object of JSON for each line, in place of words");
    let words = Arg::new(alloc, "words")
        .long("words")
        .action(ArgAction::SetTrue)
        .help("Show words also where --json is given, each line's object behind them");
    let why = Arg::new(alloc, "why")
        .long("why")
        .action(ArgAction::SetTrue)
        .conflicts_with("journal")?
        .help("Say in the words of each line that was sent nothing or was refused something, why");
    let fabric = Arg::new(alloc, "fabric")
        .long("fabric")
        .value_name("F")
        .value_parser(value_parser!(u8))
        .help(
            "Show what fabric F asked and was sent, alone; 0 is PASE without a fabric. Of a journal, what it keeps of fabric F",
        );
    Ok(command.arg(json)?.arg(words)?.arg(why)?.arg(fabric)?)
}

// What is shown in place of a run.
fn with_ways<'a>(alloc: Global, command: Command<'a>) -> Result<Command<'a>, Error> {
    let journal = Arg::new(alloc, "journal")
        .long("journal")
        .value_name("FILE")
        .help(
            "Show what the journal FILE of a node with the configuration keeps, and play nothing",
        );
    Ok(
        command
            .arg(check_of(alloc)?)?
            .arg(journal)?
            .arg(compare_of(alloc)?)?,
    )
}

fn check_of<'a>(alloc: Global) -> Result<Arg<'a>, Error> {
    let check = without_looks(Arg::new(alloc, "check"))?
        .long("check")
        .action(ArgAction::SetTrue)
        .conflicts_with("RECORDING")?
        .conflicts_with("journal")?
        .help(
            "Say whether the configuration is one, which row, field and rule is wrong, and what the node then is",
        );
    Ok(check)
}

// With a journal and with a check a recording has no form, and so has this.
fn compare_of<'a>(alloc: Global) -> Result<Arg<'a>, Error> {
    let compare = without_looks(Arg::new(alloc, "compare"))?
        .long("compare")
        .value_name("F")
        .value_parser(value_parser!(u8))
        .requires_arg("SECOND")?
        .help(
            "Say where two recordings first differ for fabric F, and both values of what differs",
        );
    Ok(compare)
}
