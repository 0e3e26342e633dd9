//! Who speaks on a session.

use crate::faults::{Fault, Which};
use mt_files::{ConfigFault, config as configuration};
use mt_model::{Auth, Config, SessionRow};
use mt_say::Speaker;
use std::{fs, io};

/// The peer of a session of boot 1, as a recording names an actor. One that waits for its fabric has a fabric that no line can name.
pub(crate) fn speaker(rt: &HostRuntime, session: u16, name: &str) -> Result<Speaker, Fault> {
    let bytes = match fs::read(rt, name) {
        Ok(bytes) => bytes,
        Err(error) if error.kind() == io::ErrorKind::OutOfMemory => return Err(Fault::Memory),
        Err(_) => return Err(Fault::Unread(Which::Configuration)),
    };
    match configuration(rt.alloc(), &bytes) {
        Ok(config) => speaker_in(&config, session),
        Err(ConfigFault::Field(field)) => Err(Fault::Configuration(field)),
        Err(ConfigFault::Memory) => Err(Fault::Memory),
    }
}

fn speaker_in(config: &Config, session: u16) -> Result<Speaker, Fault> {
    for row in config.sessions.as_slice() {
        if row.boot == 1 && row.session == session {
            return Ok(speaker_of(config, row));
        }
    }
    Err(Fault::NoSession)
}

fn speaker_of(config: &Config, row: &SessionRow) -> Speaker {
    if row.auth == Auth::Pase {
        return Speaker {
            fabric: 0,
            node: 0,
            cats: [0; 3],
        };
    }
    let cats = row.cats;
    Speaker {
        fabric: fabric_of(config, row),
        node: row.peer_node,
        cats,
    }
}

// The fabric of a session; 255, which no line can name, where it is in no table yet.
fn fabric_of(config: &Config, row: &SessionRow) -> u8 {
    for fabric in config.fabrics.as_slice() {
        if fabric.has_identity(row.root_key.as_slice(), row.fabric_id) {
            return fabric.index;
        }
    }
    255
}
