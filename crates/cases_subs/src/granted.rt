//! Access control entries, and what is seen of them.

ghost use Rattle.std.specs.Prelude.{[], IsTrue};
ghost use Rattle.mt_model.specs.texts.Config.{ascend_from};

use cases_page::no_case;
use mt_model::{
    AclEntries, AclEntry, Auth, Place, Privilege, Rows, Sight, Subjects, Target, Targets,
    entries_ascend_from, entries_of,
};
use std::alloc::{AllocError, Global};
use std::io;

/// Access control entries that ascend by fabric.
pub(crate) struct Granted {
    alloc: Global,
    entries: AclEntries,
    ghost ascend: { IsTrue (ascend_from 1 entries) },
}

impl Drop for Granted {
    fn drop(self) {
        let Granted {
            alloc: _,
            entries: _,
        } = self;
    }
}

impl Granted {
    /// No entry.
    pub(crate) fn new(alloc: Global) -> io::Result<Granted> {
        Granted::from_entries(alloc, AclEntries::new(alloc))
    }

    /// The entries of a line's words behind the first.
    pub(crate) fn of(alloc: Global, words: &[&str]) -> io::Result<Granted> {
        let mut entries = AclEntries::new(alloc);
        for word in words.iter().skip(1) {
            entries.push(entry(alloc, word)?)?;
        }
        Granted::from_entries(alloc, entries)
    }

    fn from_entries(alloc: Global, entries: AclEntries) -> io::Result<Granted> {
        if !entries_ascend_from(1, entries.as_slice()) {
            return Err(no_case());
        }
        Ok(Granted { alloc, entries })
    }
}

impl Sight for Granted {
    ghost rows_of = { λ granted place. [] };

    ghost versions = { λ granted. [] };

    ghost all_entries = { λ granted. granted.entries };

    fn rows_at(&self, _place: &Place) -> Result<Rows, AllocError> {
        Ok(Rows::new(self.alloc))
    }

    fn version(&self, _endpoint: u16, _cluster: u32) -> u32 {
        0
    }

    fn entries(&self, fabric: u8) -> &[AclEntry] {
        entries_of(self.entries.as_slice(), fabric)
    }
}

// FABRIC:PRIVILEGE, for all subjects, and where `@` and an endpoint stand behind it for that alone.
fn entry(alloc: Global, word: &str) -> Result<AclEntry, AllocError> {
    let (fabric, reach) = word.split_once(':').unwrap_or((word, ""));
    let (privilege, endpoint) = reach.split_once('@').unwrap_or((reach, ""));
    Ok(AclEntry {
        privilege: privilege_of(privilege),
        auth: Auth::Case,
        subjects: Subjects::new(alloc),
        targets: targets(alloc, endpoint)?,
        fabric: fabric.parse::<u8>().unwrap_or(0),
    })
}

fn targets(alloc: Global, endpoint: &str) -> Result<Targets, AllocError> {
    let mut targets = Targets::new(alloc);
    if let Ok(endpoint) = endpoint.parse::<u16>() {
        targets.push(Target {
            cluster: None,
            endpoint: Some(endpoint),
            device: None,
        })?;
    }
    Ok(targets)
}

fn privilege_of(word: &str) -> Privilege {
    match word {
        "view" => Privilege::View,
        "operate" => Privilege::Operate,
        "manage" => Privilege::Manage,
        _ => Privilege::Administer,
    }
}
