//! A journal on a file, which is opened anew again and again, and once while it is open.

use crate::form::TestForm;
use crate::journals::{appended, switched};
use crate::shown::Outcome;
use cases_page::Page;
use mt_journal::Journal;
use mt_os::FileDisk;
use mt_outside::Disk;
use std::fs::{OpenOptions, remove_file};
use std::io;

type FileJournal = Journal<FileDisk, TestForm>;

/// Makes a journal on a new file, changes it, opens it anew again and again, and takes the file away again.
pub(crate) fn play(rt: &HostRuntime, page: &mut Page) -> io::Result<()> {
    play_on(
        rt,
        page,
        &[0x16, 0x01],
        &[&[0x17, 0x02], &[0x17, 0x03, 0x04]],
    );
    play_on(rt, page, &[0x16, 0x05], &[&[0x17, 0x06]]);
    if opened(rt, page).is_some() {
        add_file(rt, page)?;
    }
    add_second(rt, page, &[0x17, 0x07]);
    let _ = opened(rt, page);
    remove_file(rt, "journal")?;
    add_absent(rt, page);
    Ok(())
}

// Opens the journal, and puts an image into it and changes behind that.
fn play_on(rt: &HostRuntime, page: &mut Page, image: &[u8], changes: &[&[u8]]) {
    if let Some(mut journal) = opened(rt, page) {
        add_done(page, switched(&mut journal, image));
        for change in changes {
            add_done(page, appended(&mut journal, change));
        }
    }
}

// A second disk over the file of a journal that is open: it is refused, and the journal is changed after that.
fn add_second(rt: &HostRuntime, page: &mut Page, change: &[u8]) {
    if let Some(mut journal) = opened(rt, page) {
        add_refused(rt, page, "journal");
        add_done(page, appended(&mut journal, change));
    }
}

// A disk over a file in a folder that is not there.
fn add_absent(rt: &HostRuntime, page: &mut Page) {
    add_refused(rt, page, "absent/journal");
}

// A disk over a file that can't be opened: whether it is in use, how many calls a journal makes on it, and how
// many fail.
fn add_refused(rt: &HostRuntime, page: &mut Page, name: &str) {
    let disk = FileDisk::open(rt, name);
    page.add_shown(&disk.is_in_use());
    page.add(" ");
    if let Err((disk, _)) = FileJournal::recover(rt.alloc(), disk) {
        page.add_number(disk.calls);
        page.add(" ");
        page.add_number(disk.faults);
        page.end_line();
    }
}

// A journal on the file, opened anew, and tells its list.
fn opened(rt: &HostRuntime, page: &mut Page) -> Option<FileJournal> {
    let Ok((journal, list)) = Journal::recover(rt.alloc(), FileDisk::open(rt, "journal")) else {
        page.line("no journal");
        return None;
    };
    page.add("list");
    for item in &list {
        page.add(" ");
        page.add_hex(item.as_slice());
    }
    page.end_line();
    Some(journal)
}

fn add_done(page: &mut Page, outcome: Outcome) {
    match outcome {
        Outcome::Done => page.line("done"),
        Outcome::Failed => page.line("failed"),
        Outcome::NotOne | Outcome::Full => {}
    }
}

// The length of the file, its bytes from the front on, and how many calls a disk over it has made for it.
fn add_file(rt: &HostRuntime, page: &mut Page) -> io::Result<()> {
    let file = OpenOptions::new().read(true).open(rt, "journal")?;
    let mut disk = FileDisk::new(Some(file));
    let mut front = [0u8; 24];
    page.add_number(disk.length().unwrap_or(0));
    page.add(" ");
    page.add_number(disk.read_at(0, &mut front).unwrap_or(0) as u64);
    page.add(" ");
    page.add_hex(&front);
    page.end_line();
    // It is open for reading alone, so a write fails, and so does one past the longest length.
    for at in [0, 1 << 62] {
        page.add_shown(&disk.write_at(at, &[0]).is_err());
        page.add(" ");
    }
    page.add_number(disk.calls);
    page.add(" ");
    page.add_number(disk.faults);
    page.end_line();
    Ok(())
}
