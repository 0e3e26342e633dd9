//! What `settle` writes of a journal. A case is `NAME CONFIGURATION FAILS JOURNAL`: the configuration is the name of a file,
//! then come the numbers of the calls of the disk that fail, and the file on the disk (`disks`). What is written is told
//! line by line, with ` | ` between lines.

use crate::answers::add_lines;
use crate::disks::disk_of;
use cases_page::{Page, no_case};
use mt_outside::{MemDisk, MemSink, MemSource};
use mt_top::run;
use std::alloc::{AllocError, Global};
use std::{fs, io};

/// Plays a case and tells what is written.
pub(crate) fn play(rt: &HostRuntime, page: &mut Page, case: &str) -> io::Result<()> {
    let alloc = rt.alloc();
    let words: Vec<&str> = case.split(' ').collect(alloc)?;
    let [name, config, fails, journal] = words.as_slice() else {
        return Err(no_case());
    };
    let config = fs::read(rt, config)?;
    let disk = disk_of(alloc, journal, fails)?;
    page.add(name);
    page.add(" = ");
    add_settled(alloc, page, &config, disk)?;
    page.end_line();
    Ok(())
}

fn add_settled(
    alloc: Global,
    page: &mut Page,
    config: &[u8],
    mut disk: MemDisk,
) -> Result<(), AllocError> {
    let words = words(alloc)?;
    let mut config = MemSource::new(alloc, config, &[])?;
    let mut first = MemSource::new(alloc, &[], &[])?;
    let mut second = MemSource::new(alloc, &[], &[])?;
    let mut out = MemSink::new(alloc, &[])?;
    run(
        alloc,
        &words,
        &mut config,
        &mut first,
        &mut second,
        &mut disk,
        &mut out,
    );
    add_lines(alloc, page, out.bytes())
}

// The words of the command line; the files that they name are in memory.
fn words(alloc: Global) -> Result<Vec<String>, AllocError> {
    let mut words = Vec::new(alloc);
    for word in ["settle", "config", "journal"] {
        words.push(String::from_str(alloc, word)?)?;
    }
    Ok(words)
}
