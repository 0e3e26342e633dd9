//! A lens for people: it plays a recording as `replay` of matter_node does, and shows the run as a
//! conversation, in words or as objects of JSON; or it shows in words what a node's journal keeps. It stands on the
//! product's public calls, and changes nothing of what they do.
//!
//! - `options`: the words of the command line;
//! - `faults`: why a run ended before its end, in words;
//! - `checking`: whether a configuration is one, and why not;
//! - `story`: the recording, line by line, with what came of each;
//! - `why`: why a line was sent nothing or was refused something;
//! - `comparing`: where two recordings first differ for a fabric; `standing`: at which lines that is;
//! - `values`: places and values in words;
//! - `journal`: what a journal keeps.
#![tactic(auto)]

mod checking;
mod comparing;
mod faults;
mod journal;
mod options;
mod standing;
mod story;
mod values;
mod why;

use faults::{Fault, Which};
use mt_files::{ConfigFault, ConfigField, config as configuration, events};
use mt_model::limits::CONFIGURATION_BYTES;
use mt_model::{Config, Events};
use options::{Options, options_of};
use std::process::ExitCode;
use std::{env, fs, io};

// The status where the command line could not be taken for want of memory, or not told.
const NO_MEMORY: u8 = 7;

fn main(rt: HostRuntime) -> ExitCode {
    match command_line(&rt) {
        Ok(words) => ExitCode::from(run(&rt, words.as_slice())),
        Err(_) => ExitCode::from(NO_MEMORY),
    }
}

// Does what the words say, and answers the exit status.
fn run(rt: &HostRuntime, words: &[String]) -> u8 {
    let options = match options_of(rt.alloc(), words) {
        Ok(options) => options,
        Err(error) => return unasked(rt, &error),
    };
    match asked(rt, &options) {
        Ok(status) => status,
        Err(fault) => {
            // Where even this can't be written, the status alone tells.
            let _ = fault.tell(rt, &options);
            fault.status()
        }
    }
}

// Where nothing is to be shown: the words have no form, or ask for help or the version.
fn unasked(rt: &HostRuntime, error: &clap::Error) -> u8 {
    match (error.print(rt), error.use_stderr()) {
        (Err(_), _) => 6,
        (Ok(()), true) => 2,
        (Ok(()), false) => 0,
    }
}

// The words of the command line, the program's name among them.
fn command_line(rt: &HostRuntime) -> io::Result<Vec<String>> {
    let mut words = Vec::new(rt.alloc());
    for word in env::args(rt)? {
        words.push(word)?;
    }
    Ok(words)
}

// Checks the configuration, or shows the run or the journal, and answers the exit status.
fn asked(rt: &HostRuntime, options: &Options<'_>) -> Result<u8, Fault> {
    if options.check {
        return checking::tell(rt, options.config);
    }
    if let Some(fabric) = options.compare {
        return compared(rt, options, fabric);
    }
    shown(rt, options)?;
    Ok(0)
}

// Reads the files, and shows where the recordings differ; answers the exit status.
fn compared(rt: &HostRuntime, options: &Options<'_>, fabric: u8) -> Result<u8, Fault> {
    let config = read_configuration(rt, options.config)?;
    let first = read_recording(rt, options.recording)?;
    let second = read_recording(rt, options.second)?;
    comparing::tell(rt, &config, fabric, first.as_slice(), second.as_slice())
}

// Reads the files, and shows the run, or the journal.
fn shown(rt: &HostRuntime, options: &Options<'_>) -> Result<(), Fault> {
    let config = read_configuration(rt, options.config)?;
    if let Some(journal) = options.journal {
        return journal::tell(rt, journal, &config, options.fabric);
    }
    let recording = read_recording(rt, options.recording)?;
    story::tell(rt, options, &config, &recording)
}

fn read_configuration(rt: &HostRuntime, name: &str) -> Result<Config, Fault> {
    let Ok(bytes) = fs::read(rt, name) else {
        return Err(Fault::Unread(Which::Configuration));
    };
    if bytes.len() > CONFIGURATION_BYTES {
        return Err(faults::of_configuration(rt.alloc(), ConfigField::Size, &bytes));
    }
    match configuration(rt.alloc(), &bytes) {
        Ok(config) => Ok(config),
        Err(ConfigFault::Field(field)) => {
            Err(faults::of_configuration(rt.alloc(), field, &bytes))
        }
        Err(ConfigFault::Memory) => Err(Fault::Memory),
    }
}

fn read_recording(rt: &HostRuntime, name: &str) -> Result<Events, Fault> {
    let Ok(bytes) = fs::read(rt, name) else {
        return Err(Fault::Unread(Which::Recording));
    };
    match events(rt.alloc(), &bytes) {
        Ok(events) => Ok(events),
        Err(fault) => Err(faults::of_recording(rt.alloc(), fault, &bytes)),
    }
}
