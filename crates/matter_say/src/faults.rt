//! Why nothing was written, in words, with the statuses that matter_node has for it.

use crate::options::Options;
use mt_files::ConfigField;
use mt_names::{
    Named, attribute_names, auth_name, cluster_name, cluster_names, command_names, event_names,
    extension_names, global_names, privilege_name,
};
use mt_say::{MODES, PRIVILEGES, SayFault, Wanted};
use std::alloc::{AllocError, AllocFailed, Global};
use std::io;

/// Which of the files it is.
#[derive(Clone, Copy)]
pub(crate) enum Which {
    Words,
    Configuration,
}

/// Why nothing was written.
#[derive(Clone, Copy)]
pub(crate) enum Fault {
    /// What is wrong with the words.
    Words(SayFault),
    /// The configuration is none, and this is the first that is not as it should be.
    Configuration(ConfigField),
    /// No session of boot 1 has the id.
    NoSession,
    Unread(Which),
    /// The first line that is too long, or comes to something too long; None where all of them together do.
    TooLong(Option<u64>),
    Unwritten,
    Memory,
}

impl From<AllocError> for Fault {
    fn from(_error: AllocError) -> Fault {
        Fault::Memory
    }
}

impl<T: Drop> From<AllocFailed<T>> for Fault {
    fn from(_error: AllocFailed<T>) -> Fault {
        Fault::Memory
    }
}

impl From<SayFault> for Fault {
    fn from(fault: SayFault) -> Fault {
        match fault {
            SayFault::Memory => Fault::Memory,
            SayFault::TooLong => Fault::TooLong(None),
            SayFault::Wrong { .. } => Fault::Words(fault),
        }
    }
}

impl Fault {
    /// The exit status.
    pub(crate) fn status(self) -> u8 {
        match self {
            Fault::Configuration(_) => 3,
            Fault::Words(SayFault::Wrong { .. }) => 4,
            Fault::Unread(_) => 5,
            Fault::Unwritten => 6,
            Fault::Memory | Fault::Words(SayFault::Memory) => 7,
            Fault::TooLong(_) | Fault::Words(SayFault::TooLong) => 10,
            Fault::NoSession => 15,
        }
    }

    /// Writes on standard error what was wrong.
    pub(crate) fn tell(self, rt: &HostRuntime, options: &Options<'_>) -> io::Result<()> {
        match self {
            Fault::Words(fault) => {
                let text = words_of(rt.alloc(), fault)?;
                eprintln!(rt; "{text}")
            }
            Fault::Configuration(field) => {
                let name = field.name();
                eprintln!(rt; "The configuration's {name} is not as it must be.")
            }
            Fault::NoSession => {
                eprintln!(rt; "The configuration has no session of that id for boot 1.")
            }
            Fault::Unread(which) => tell_unread(rt, which, options),
            Fault::TooLong(line) => {
                let text = too_long(rt.alloc(), line)?;
                eprintln!(rt; "{text}")
            }
            Fault::Unwritten => eprintln!(rt; "What the words say can't be written."),
            Fault::Memory => eprintln!(rt; "There is not enough memory."),
        }
    }
}

fn tell_unread(rt: &HostRuntime, which: Which, options: &Options<'_>) -> io::Result<()> {
    match (which, options.file) {
        (Which::Configuration, _) => {
            let config = options.config.unwrap_or("");
            eprintln!(rt; "The configuration {config} can't be read.")
        }
        (Which::Words, Some(file)) => eprintln!(rt; "The words {file} can't be read."),
        (Which::Words, None) => eprintln!(rt; "Standard input can't be read."),
    }
}

/// That a line is too long, or what it comes to; or, of no line, that all of them are.
pub(crate) fn too_long(alloc: Global, line: Option<u64>) -> Result<String, AllocError> {
    match line {
        Some(line) => format!(in alloc;
            "line {line}: it is too long, or what it comes to: 65,536 bytes in a line of words; 1,198 bytes in a payload of a script"
        ),
        None => format!(in alloc;
            "The words or what they come to are too long: 67,108,864 bytes, 2,097,152 lines of words, 1,048,576 lines of a recording, 65,535 requests of a script."
        ),
    }
}

/// What is wrong with words, in words.
pub(crate) fn words_of(alloc: Global, fault: SayFault) -> Result<String, AllocError> {
    match fault {
        SayFault::Wrong {
            line,
            column,
            wanted,
        } => {
            let fitting = fitting(alloc, wanted)?;
            format!(in alloc; "line {line}, column {column}: what fits here is {fitting}")
        }
        SayFault::TooLong => too_long(alloc, None),
        SayFault::Memory => format!(in alloc; "There is not enough memory."),
    }
}

// What would fit.
fn fitting(alloc: Global, wanted: Wanted) -> Result<String, AllocError> {
    let mut text = String::new(alloc);
    match wanted {
        Wanted::Words(words) => {
            let mut is_first = true;
            for word in words {
                if !is_first {
                    text.push_str(" or ")?;
                }
                is_first = false;
                text.push_str(*word)?;
            }
        }
        Wanted::Cluster => {
            text.push_str("a cluster, by its number or its name: ")?;
            push_names(&mut text, &[cluster_names()])?;
        }
        Wanted::Attribute(cluster) => {
            push_leaf(&mut text, "an attribute", cluster)?;
            push_names(
                &mut text,
                &[
                    attribute_names(cluster),
                    global_names(),
                    extension_names(cluster),
                ],
            )?;
        }
        Wanted::Event(cluster) => {
            push_leaf(&mut text, "an event", cluster)?;
            push_names(&mut text, &[event_names(cluster)])?;
        }
        Wanted::Command(cluster) => {
            push_leaf(&mut text, "a command", cluster)?;
            push_names(&mut text, &[command_names(cluster)])?;
        }
        Wanted::Field(shape) => {
            text.push_str("a field, by its number from 0 to 255 or its name: ")?;
            push_names(&mut text, &[shape.names()])?;
        }
        Wanted::Privilege => push_privileges(&mut text)?,
        Wanted::Mode => push_modes(&mut text)?,
        Wanted::Subject => text.push_str(
            "a subject: a number, 16 digits of hex, or CAT, its identifier in 4 digits of hex, version and a number; null for none",
        )?,
        Wanted::Kind(kind) => text.push_str(kind)?,
    }
    Ok(text)
}

fn push_privileges(text: &mut String) -> Result<(), AllocError> {
    text.push_str("a privilege, by its number or its name: ")?;
    let mut is_first = true;
    for privilege in PRIVILEGES {
        push_name(text, is_first, privilege_name(privilege))?;
        is_first = false;
    }
    Ok(())
}

fn push_modes(text: &mut String) -> Result<(), AllocError> {
    text.push_str("a mode, by its number or its name: ")?;
    let mut is_first = true;
    for mode in MODES {
        push_name(text, is_first, auth_name(mode))?;
        is_first = false;
    }
    Ok(())
}

fn push_name(text: &mut String, is_first: bool, name: &str) -> Result<(), AllocError> {
    if !is_first {
        text.push_str(", ")?;
    }
    text.push_str(name)
}

fn push_leaf(text: &mut String, what: &str, cluster: u32) -> Result<(), AllocError> {
    text.push_str(what)?;
    if let Some(name) = cluster_name(cluster) {
        text.push_str(" of ")?;
        text.push_str(name)?;
    }
    text.push_str(", by its number or its name: ")
}

// Names, or that there are none.
fn push_names(text: &mut String, columns: &[&'static [Named]]) -> Result<(), AllocError> {
    let mut is_first = true;
    for column in columns {
        for named in *column {
            push_name(text, is_first, named.name)?;
            is_first = false;
        }
    }
    if is_first {
        text.push_str("no name is known")?;
    }
    Ok(())
}
