//! From a disk to the record.

ghost use Rattle.std.specs.Prelude.{◌≡◌, ◌<◌, ◌≤◌, length};
ghost use Rattle.mt_model.specs.texts.Contents.{contents_of};
ghost use Rattle.mt_serving.specs.Ending.{TellsEnd, TellsNoMemory};
ghost use Rattle.mt_serving.specs.Serves.{Course, IsServed, Ran};

use crate::ending::{ServeFault, finish_serving};
use crate::reading::record_is_read;
use crate::recording::{RecordFault, write_record};
use mt_crew::{Watcher, crews_make_few_lines, crews_serve, reserve, run};
use mt_model::Config;
use mt_outside::{Disk, Gate, Intake, Outlet, Progress, Sink};
use mt_sizes::lines_are_short;
use mt_starting::{Entry, SharedNode, Started, start_on};
use std::alloc::Global;
use std::sync::Wait;
use std::thread::Threads;

/// What is given back when serving has ended: the exit status, and what was lent for it.
pub struct Served<D, I, O> {
    pub status: u8,
    pub disk: D,
    pub intake: I,
    pub outlets: Vec<O>,
}

impl<D, I, O> Served<D, I, O> {
    /// These parts.
    pub fn new(status: u8, disk: D, intake: I, outlets: Vec<O>) -> Served<D, I, O>
        ensures status { result.status ≡ status }
        ensures disk { result.disk ≡ disk }
        ensures intake { result.intake ≡ intake }
        ensures outlets { result.outlets ≡ outlets }
    {
        Served {
            status,
            disk,
            intake,
            outlets,
        }
    }
}

impl<D: Drop, I: Drop, O: Drop> Drop for Served<D, I, O> {
    fn drop(self) {
        let Served {
            status: _,
            disk: _,
            intake: _,
            outlets: _,
        } = self;
    }
}

/// Starts a node with what a disk has, serves it with one worker for each outlet until so many datagrams have come or the intake has ended,
/// and writes its record. The status is 0; or 6 where `out` failed, 7 where memory was wanting, 8 where a call of the disk failed, 9 where
/// the journal is none, 12 where the intake or an outlet failed, 13 where the record was full, and 17 where no boot more can be counted.
/// Where a fault ends it, the last line names it, behind the record of what was done before.
pub fn serve_with<
    R: Threads + Wait + Sync,
    D: Disk + Drop + Send,
    I: Intake + Drop + Send,
    O: Outlet + Drop + Send,
    G: Gate + Sync,
    P: Progress + Drop + Send,
    U: Watcher + Drop + Send,
    W: Sink,
>(
    rt: &R,
    alloc: Global,
    config: &Config,
    disk: D,
    intake: I,
    outlets: Vec<O>,
    gate: &G,
    limit: u32,
    progress: P,
    watcher: U,
    out: &mut W,
) -> Served<D, I, O>
    requires several { (0 < length outlets.items) × (length outlets.items ≤ 8) }
    requires some { 0 < limit }
    ensures outlets { length result.outlets.items ≡ length outlets.items }
    ensures served { result.status ≡ 0 → IsServed I.held I.clock O.given config.now (D.contents disk) limit outlets.items result.outlets.items intake result.intake (W.written out.old) (W.written out.new) }
    ensures course { Course I.held I.clock I.faults O.given O.faults D.contents D.images D.faults config.now limit outlets.items result.outlets.items intake result.intake disk result.disk result.status
        (W.written out.old) (W.written out.new) (W.faults out.old) (W.faults out.new) }
{
    match start_on(alloc, config, disk) {
        Ok(started) => serve_started(
            rt, alloc, config, started, intake, outlets, gate, limit, progress, watcher, out,
        ),
        Err((disk, fault)) => {
            let status = finish_serving(alloc, ServeFault::of_start(fault), out);
            Served::new(status, disk, intake, outlets)
        }
    }
}

// The same behind the start.
fn serve_started<
    R: Threads + Wait + Sync,
    D: Disk + Drop + Send,
    I: Intake + Drop + Send,
    O: Outlet + Drop + Send,
    G: Gate + Sync,
    P: Progress + Drop + Send,
    U: Watcher + Drop + Send,
    W: Sink,
>(
    rt: &R,
    alloc: Global,
    config: &Config,
    started: Started<D>,
    intake: I,
    outlets: Vec<O>,
    gate: &G,
    limit: u32,
    progress: P,
    watcher: U,
    out: &mut W,
) -> Served<D, I, O>
    requires several { (0 < length outlets.items) × (length outlets.items ≤ 8) }
    requires some { 0 < limit }
    requires configured { started.node.config ≡ contents_of config.now }
    ensures outlets { length result.outlets.items ≡ length outlets.items }
    ensures ran { Ran I.held I.clock I.faults O.given O.faults D.contents D.images D.faults started.node limit outlets.items result.outlets.items intake result.intake result.disk result.status
        (W.written out.old) (W.written out.new) (W.faults out.old) (W.faults out.new) }
{
    let (node, store, verdicts) = started.into_parts();
    let boot = node.state().boot;
    let workers = outlets.len() as u32;
    let Ok(places) = reserve(alloc, config.sessions.as_slice(), boot, workers) else {
        return without_memory(alloc, store.into_disk(), intake, outlets, out);
    };
    let (shared, pass) = match SharedNode::new(alloc, node, store, verdicts) {
        Ok(both) => both,
        Err(store) => return without_memory(alloc, store.into_disk(), intake, outlets, out),
    };
    crews_serve::<O>();
    crews_make_few_lines::<O>();
    lines_are_short();
    let ended = run(
        rt, alloc, shared, pass, places, intake, outlets, gate, limit, progress, watcher,
    );
    let (status, held, intake, outlets) = ended.into_parts();
    record_is_read(&held.book);
    let status = tell_end(alloc, &held.book, status, out);
    Served::new(status, held.into_keeper().into_disk(), intake, outlets)
}

// There was no memory before the threads began.
fn without_memory<D, I, O, W: Sink>(
    alloc: Global,
    disk: D,
    intake: I,
    outlets: Vec<O>,
    out: &mut W,
) -> Served<D, I, O>
    ensures told { TellsNoMemory result.status (W.written out.old) (W.written out.new) (W.faults out.old) (W.faults out.new) }
    ensures intake { result.intake ≡ intake }
    ensures outlets { result.outlets ≡ outlets }
{
    let status = finish_serving(alloc, ServeFault::Memory, out);
    Served::new(status, disk, intake, outlets)
}

// Writes the record of a book, and then the last line of why the threads stopped, where they did. The answer is the exit status.
fn tell_end<W: Sink>(alloc: Global, book: &[Entry], status: u8, out: &mut W) -> u8
    ensures { TellsEnd book.now status result (W.written out.old) (W.written out.new) (W.faults out.old) (W.faults out.new) }
{
    match write_record(alloc, book, out) {
        Ok(()) => match ServeFault::of_status(status) {
            Some(fault) => finish_serving(alloc, fault, out),
            None => 0,
        },
        Err(RecordFault::Write) => match status {
            7 => finish_serving(alloc, ServeFault::Memory, out),
            _ => 6,
        },
        Err(RecordFault::Memory) => finish_serving(alloc, ServeFault::Memory, out),
    }
}
