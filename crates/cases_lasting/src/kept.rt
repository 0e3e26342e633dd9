//! What the lens shows of a journal. A case is `NAME CONFIGURATION FABRIC JOURNAL`: the configuration is the name of a file,
//! the fabric the one that is shown, `-` for all, and the journal the file on the disk (`disks`). What is shown is told line
//! by line, with ` | ` between lines.

use crate::answers::{add_fault, add_lines};
use crate::disks::disk_of;
use cases_page::{Page, no_case};
use mt_durable::Durable;
use mt_files::config as configuration;
use mt_grammar::kept_in;
use mt_keeping::Store;
use mt_lens::show_kept;
use mt_model::Config;
use mt_outside::MemDisk;
use std::alloc::Global;
use std::{fs, io};

/// Plays a case and tells what is shown.
pub(crate) fn play(rt: &HostRuntime, page: &mut Page, case: &str) -> io::Result<()> {
    let alloc = rt.alloc();
    let words: Vec<&str> = case.split(' ').collect(alloc)?;
    let [name, config, fabric, journal] = words.as_slice() else {
        return Err(no_case());
    };
    let config = fs::read(rt, config)?;
    let disk = disk_of(alloc, journal, "-")?;
    let Ok(config) = configuration(alloc, &config) else {
        return Err(no_case());
    };
    page.add(name);
    page.add(" = ");
    add_kept(alloc, page, &config, fabric.parse::<u8>().ok(), disk)?;
    page.end_line();
    Ok(())
}

fn add_kept(
    alloc: Global,
    page: &mut Page,
    config: &Config,
    fabric: Option<u8>,
    disk: MemDisk,
) -> io::Result<()> {
    match Store::recover(alloc, disk, config) {
        Ok((store, beginning)) => {
            let map = store.image().map(alloc)?;
            add_shown(alloc, page, &map, &beginning, fabric)
        }
        Err((_, fault)) => {
            add_fault(page, fault);
            Ok(())
        }
    }
}

// What a journal keeps that leads to a map, or what a node begins with, where that is empty.
fn add_shown(
    alloc: Global,
    page: &mut Page,
    map: &Durable,
    beginning: &Durable,
    fabric: Option<u8>,
) -> io::Result<()> {
    let has_started = !map.as_slice().is_empty();
    let Some(contents) = kept_in(alloc, if has_started { map } else { beginning })? else {
        return Err(no_case());
    };
    let mut shown = mt_lens::Page::new(alloc, false);
    show_kept(&mut shown, &contents, has_started, fabric);
    add_lines(alloc, page, shown.whole()?)?;
    Ok(())
}
