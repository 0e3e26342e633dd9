//! Who grants what: access control entries, and what they grant.

use crate::reading::{
    code, narrow_number, number, number_or_none, place, short_or_any, three, truth,
};
use cases_page::{Page, word};
use mt_acl::{grants, valid};
use mt_model::{AclEntry, Actor, Auth, Privilege, Subjects, Target, Targets};
use std::alloc::{AllocError, Global};

/// An entry: privilege, mode, subjects, targets and fabric stand behind its first word. `-` stands for no subjects
/// and no targets.
pub(crate) fn entry(alloc: Global, words: &[&str]) -> Result<AclEntry, AllocError> {
    let subjects = subjects(alloc, word(words, 3))?;
    let targets = targets(alloc, word(words, 4))?;
    Ok(AclEntry {
        privilege: privilege(word(words, 1)),
        auth: mode(word(words, 2)),
        subjects,
        targets,
        fabric: code(word(words, 5)),
    })
}

/// The entry of a node that grants nobody anything.
pub(crate) fn nobody(alloc: Global) -> AclEntry {
    AclEntry {
        privilege: Privilege::View,
        auth: Auth::Case,
        subjects: Subjects::new(alloc),
        targets: Targets::new(alloc),
        fabric: 0,
    }
}

fn privilege(word: &str) -> Privilege {
    match word {
        "View" => Privilege::View,
        "ProxyView" => Privilege::ProxyView,
        "Operate" => Privilege::Operate,
        "Manage" => Privilege::Manage,
        _ => Privilege::Administer,
    }
}

fn mode(word: &str) -> Auth {
    match word {
        "PASE" => Auth::Pase,
        "CASE" => Auth::Case,
        _ => Auth::Group,
    }
}

fn subjects(alloc: Global, word: &str) -> Result<Subjects, AllocError> {
    let mut subjects = Subjects::new(alloc);
    if word == "-" {
        return Ok(subjects);
    }
    for subject in word.split(',') {
        subjects.push(number(subject))?;
    }
    Ok(subjects)
}

// Each as CLUSTER/ENDPOINT/DEVICE, with `*` for a field that is not there.
fn targets(alloc: Global, word: &str) -> Result<Targets, AllocError> {
    let mut targets = Targets::new(alloc);
    if word == "-" {
        return Ok(targets);
    }
    for fields in word.split(',') {
        targets.push(target(fields))?;
    }
    Ok(targets)
}

fn target(fields: &str) -> Target {
    let (cluster, endpoint, device) = three(fields);
    Target {
        cluster: number_or_none(cluster),
        endpoint: short_or_any(endpoint),
        device: number_or_none(device),
    }
}

/// Whoever asks: fabric, mode, node, and its CATs, with 0 for a place that has none.
pub(crate) fn actor(fabric: &str, proved: &str, node: &str, cats: &str) -> Actor {
    Actor {
        fabric: code(fabric),
        auth: mode(proved),
        node: number(node),
        cats: tags(cats),
        session: None,
    }
}

fn tags(words: &str) -> [u32; 3] {
    let mut tags = [0_u32; 3];
    for (tag, word) in tags.iter_mut().zip(words.split(',')) {
        *tag = narrow_number(word);
    }
    tags
}

/// Which rule an entry breaks.
pub(crate) fn tell_valid(page: &mut Page, entry: &AclEntry) {
    page.add_debug(&valid(entry));
    page.end_line();
}

/// What grants a privilege at a place, and whether what is asked changes what is scoped by fabric.
pub(crate) fn tell_grant(page: &mut Page, entries: &[AclEntry], words: &[&str]) {
    let actor = actor(
        word(words, 1),
        word(words, 2),
        word(words, 3),
        word(words, 4),
    );
    let place = place(word(words, 5));
    let wanted = privilege(word(words, 6));
    let scoped = truth(word(words, 7));
    page.add_debug(&grants(entries, &actor, &place, wanted, scoped));
    page.end_line();
}
