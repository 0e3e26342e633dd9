//! A case, played.

use crate::cases::Case;
use crate::told::{add_end, add_places, add_record, add_sessions, add_settled};
use crate::turns::Turns;
use cases_page::Page;
use mt_outside::{MemDisk, MemIntake, MemOutlet, MemSink};
use mt_top::{Served, serve};
use std::alloc::Global;
use std::sync::Wait;
use std::thread::Threads;
use std::time::Clock;
use std::{io, mem};

/// Serves as a case says, and tells what came of it. `last` is the disk of the case before; the answer is this one's.
pub(crate) fn play<R: Threads + Wait + Clock + Sync>(
    rt: &R,
    alloc: Global,
    page: &mut Page,
    case: &Case<'_>,
    last: MemDisk,
) -> io::Result<MemDisk> {
    let order = case.turns(alloc)?;
    let turns = Turns::new(rt, &order);
    let mut out = case.output(alloc)?;
    let mut served = serve_case(rt, alloc, case, last, &turns, &mut out)?;
    add_end(page, case, served.status, &served.outlets, &turns);
    add_sessions(
        alloc,
        page,
        case,
        served.status,
        &served.outlets,
        out.bytes(),
    )?;
    add_record(alloc, page, out.bytes(), turns.are_given())?;
    add_settled(alloc, page, case, &mut served.disk)?;
    add_places(alloc, page, case, &served.disk)?;
    let disk = mem::replace(&mut served.disk, MemDisk::new(alloc, &[], &[])?);
    Ok(disk)
}

fn serve_case<R: Threads + Wait + Clock + Sync>(
    rt: &R,
    alloc: Global,
    case: &Case<'_>,
    last: MemDisk,
    turns: &Turns<'_, R>,
    out: &mut MemSink,
) -> io::Result<Served<MemDisk, MemIntake, MemOutlet>> {
    let words = case.words(alloc)?;
    let mut config = case.source(alloc)?;
    let disk = case.disk(alloc, last)?;
    let intake = case.intake(alloc)?;
    let outlets = case.outlets(alloc)?;
    Ok(serve(
        rt,
        alloc,
        &words,
        &mut config,
        disk,
        intake,
        outlets,
        turns,
        out,
    ))
}
