//! The words of a case: who asks for what, and what stands behind a word on the node.

use cases_page::{no_case, pieces};
use mt_model::{Actor, Auth, Place};
use mt_tlv::{Value, read};
use std::alloc::Global;
use std::io;

/// A command, and who asks for it.
pub(crate) struct Asked {
    pub(crate) actor: Actor,
    pub(crate) command: Place,
    pub(crate) fields: Value,
}

impl Drop for Asked {
    fn drop(self) {
        let Asked {
            actor: _,
            command: _,
            fields: _,
        } = self;
    }
}

/// What is asked for, and by whom.
pub(crate) fn asked_of(alloc: Global, who: &str, command: &str, fields: &str) -> io::Result<Asked> {
    let fields = value(alloc, fields)?;
    Ok(Asked {
        actor: actor(who),
        command: command_of(command),
        fields,
    })
}

fn actor(word: &str) -> Actor {
    let (mode, fabric) = word.split_once(':').unwrap_or((word, ""));
    let auth = match mode {
        "case" => Auth::Case,
        "pase" => Auth::Pase,
        _ => Auth::Group,
    };
    Actor {
        fabric: fabric.parse::<u8>().unwrap_or(0),
        auth,
        node: 1,
        cats: [0; 3],
        session: None,
    }
}

fn command_of(word: &str) -> Place {
    let (cluster, leaf) = word.split_once('/').unwrap_or((word, ""));
    Place {
        endpoint: 0,
        cluster: u32::from_str_radix(cluster, 16).unwrap_or(0),
        leaf: u32::from_str_radix(leaf, 16).unwrap_or(0),
    }
}

fn value(alloc: Global, word: &str) -> io::Result<Value> {
    let bytes = pieces(alloc, word)?;
    match read(alloc, &bytes) {
        Ok((_, value, _)) => Ok(value),
        Err(_) => Err(no_case()),
    }
}

/// What stands behind a word and a colon.
pub(crate) fn said<'a>(state: &'a str, name: &str) -> Option<&'a str> {
    for word in state.split(' ') {
        match word.split_once(':') {
            Some((key, value)) if key == name => return Some(value),
            _ => {}
        }
    }
    None
}

/// The number behind a word and a colon.
pub(crate) fn number(state: &str, name: &str) -> Option<u8> {
    match said(state, name) {
        Some(word) => Some(word.parse::<u8>().unwrap_or(0)),
        None => None,
    }
}
