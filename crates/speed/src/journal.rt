//! How many changes of 100 and of 4,000 bytes a journal on a file commits in a second, each of them safe before
//! the next, and how long it then takes to recover the file. What is found goes to standard error.

ghost use Rattle.std.specs.Prelude.{◌≤◌, ⊤, length};
ghost use Rattle.speed.specs.Form.{is_any};

use crate::rates::{rate, since};
use crate::store::disk;
use cases_page::Page;
use mt_journal::{Form, Journal};
use mt_os::FileDisk;
use std::alloc::{AllocError, Global};
use std::fs::remove_file;
use std::io;
use std::time::Instant;

// A journal on a file.
type FileJournal = Journal<FileDisk, Any>;

/// Each string of bytes is an image and a change.
#[derive(Drop)]
pub struct Any;

impl Form for Any {
    ghost image = { is_any };

    ghost change = { λ list bytes. is_any bytes };

    ghost was_told = { λ form list. ⊤ };

    fn start(_alloc: Global) -> Self {
        Any
    }

    fn is_image(&mut self, _alloc: Global, _bytes: &[u8]) -> Result<bool, AllocError> {
        Ok(true)
    }

    fn is_change(&mut self, _alloc: Global, _bytes: &[u8]) -> Result<bool, AllocError> {
        Ok(true)
    }
}

/// Commits so many changes of each size.
pub(crate) fn measure(rt: &HostRuntime, page: &mut Page, turns: u32) -> io::Result<()> {
    commit_all(rt, page, "small", turns, &[0x5a; 100])?;
    commit_all(rt, page, "large", turns, &[0x5a; 4_000])
}

// A journal on a file of this name; None where it can't be recovered.
fn opened(rt: &HostRuntime, name: &str) -> io::Result<Option<FileJournal>> {
    match Journal::recover(rt.alloc(), disk(rt, name)?) {
        Ok((journal, _)) => Ok(Some(journal)),
        Err(_) => Ok(None),
    }
}

// Commits a change again and again. The file is new, and goes.
fn commit_all(
    rt: &HostRuntime,
    page: &mut Page,
    name: &str,
    turns: u32,
    change: &[u8],
) -> io::Result<()>
    requires { length change.now ≤ 65536 }
{
    if let Some(mut journal) = opened(rt, name)? {
        let committing = committing(rt, &mut journal, turns, change)?;
        tell_committing(page, turns, change.len(), committing);
    }
    tell_recovering(page, recovering(rt, name)?);
    remove_file(rt, name)
}

// How many changes are safe in a second, and how many failed.
fn committing(
    rt: &HostRuntime,
    journal: &mut FileJournal,
    turns: u32,
    change: &[u8],
) -> io::Result<(u64, u64)>
    requires { length change.now ≤ 65536 }
{
    let mut failed = 0_u64;
    let start = Instant::now(rt)?;
    for _ in 0..turns {
        if !commit(journal, change) {
            failed = failed.saturating_add(1);
        }
    }
    Ok((rate(rt, start, u64::from(turns))?, failed))
}

// Commits a change, as an image where it does not fit, and answers whether it is safe.
fn commit(journal: &mut FileJournal, change: &[u8]) -> bool
    requires { length change.now ≤ 65536 }
{
    if journal.fits(change.len()) {
        journal.append(change).is_ok()
    } else {
        journal.switch(change).is_ok()
    }
}

// Whether the journal is recovered, and in how many nanoseconds.
fn recovering(rt: &HostRuntime, name: &str) -> io::Result<(bool, u64)> {
    let start = Instant::now(rt)?;
    let again = opened(rt, name)?.is_some();
    Ok((again, since(rt, start)?))
}

/// What was committed: how many changes, of how many bytes, how many in a second, and how many failed.
pub(crate) fn tell_committing(page: &mut Page, turns: u32, size: usize, committing: (u64, u64)) {
    page.add_number(u64::from(turns));
    page.add(" changes of ");
    page.add_number(size as u64);
    page.add(" bytes: ");
    page.add_number(committing.0);
    page.add(" a second, ");
    page.add_number(committing.1);
    page.add(" failed; ");
}

/// Whether what was committed is recovered, and how long that took.
pub(crate) fn tell_recovering(page: &mut Page, recovering: (bool, u64)) {
    page.add("recovered ");
    page.add_shown(&recovering.0);
    page.add(" in ");
    page.add_number(recovering.1 / 1_000);
    page.line(" us");
}
