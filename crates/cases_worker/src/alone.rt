//! A worker that owns all sessions, and behind it the reporter, in one thread.

ghost use Rattle.std.specs.Prelude.{◌≡◌, ◌≤◌, [], All, IfOk, OnOk};
ghost use Rattle.mt_files.specs.Form.{HasForm};
ghost use Rattle.mt_shared.specs.Shared.{IsPassOf};

use crate::cases::Case;
use crate::replay::{add_compared, add_message, done_event, replayed};
use crate::work::{put_job, report, rows_of, work};
use cases_node::{begin, keepers_cross};
use cases_page::{Page, no_case};
use mt_durable::{Durable, Keeper, ListKeeper, write_image};
use mt_files::write_event;
use mt_lasting::durable_of;
use mt_model::{Event, Events, Verdicts};
use mt_outside::{MemOutlet, Outlet};
use mt_queue::{Job, JobSender, Jobs, PLACES, queue};
use mt_shared::{Entry, Held, NodePass, SharedNode};
use std::alloc::{AllocError, Global};
use std::io;
use std::sync::Wait;

/// Plays a case, and tells how both ended, what the outlet was given, the lines of the book, and what a node alone makes of these.
pub(crate) fn play<R: Wait>(rt: &R, alloc: Global, page: &mut Page, case: &Case) -> io::Result<()> {
    keepers_cross();
    let events = case.events(alloc)?;
    if events.len() >= PLACES {
        return Err(no_case());
    }
    page.line(case.name.as_str());
    let begun = begin(alloc, &case.config, &case.commits)?;
    let Ok((node, mut pass)) = SharedNode::new(alloc, begun.node, begun.keeper, begun.verdicts)
    else {
        return Err(AllocError.into());
    };
    let outlet = serve(rt, alloc, page, case, &events, &node, &mut pass)?;
    add_given(page, &outlet);
    let held = node.close(pass);
    add_book(alloc, page, &held.book)?;
    let sent = replayed(alloc, &case.config, &held.book)?;
    let given = outlet.given();
    add_compared(alloc, page, &case.config, 0, 1, given, sent.as_slice())?;
    add_kept(alloc, page, &held)
}

// Lets the worker and then the reporter take the jobs, and tells how they ended. The answer is the worker's outlet.
fn serve<R: Wait, K: Keeper + Drop + Send, V: Verdicts + Drop>(
    rt: &R,
    alloc: Global,
    page: &mut Page,
    case: &Case,
    events: &Events,
    node: &SharedNode<K, V>,
    pass: &mut NodePass,
) -> io::Result<MemOutlet>
    requires events { All HasForm events.now }
    requires own { IsPassOf node.now pass.old }
    requires share { 3 ≤ pass.old.share }
    ensures { OnOk result (IsPassOf node.now pass.new × (pass.new.share ≡ pass.old.share)) }
{
    let (sender, jobs) = filled(rt, alloc, events)?;
    let given = node.split(pass)?;
    let rows = rows_of(alloc, &case.config, 0, 1)?;
    let outlet = MemOutlet::new(alloc, &case.sends)?;
    let done = work(rt, alloc, node, given, 0, &rows, jobs, outlet);
    page.add("worker ");
    page.add_number(u64::from(done.status));
    page.add(", faults ");
    page.add_number(done.outlet.faults());
    node.join(pass, done.pass);
    sender.compare_ended(done.queue);
    report_behind(rt, alloc, page, events, node, pass)?;
    Ok(done.outlet)
}

// The same of the reporter.
fn report_behind<R: Wait, K: Keeper + Drop + Send, V: Verdicts + Drop>(
    rt: &R,
    alloc: Global,
    page: &mut Page,
    events: &Events,
    node: &SharedNode<K, V>,
    pass: &mut NodePass,
) -> io::Result<()>
    requires events { All HasForm events.now }
    requires own { IsPassOf node.now pass.old }
    requires share { 3 ≤ pass.old.share }
    ensures { OnOk result (IsPassOf node.now pass.new × (pass.new.share ≡ pass.old.share)) }
{
    let (sender, jobs) = filled(rt, alloc, events)?;
    let given = node.split(pass)?;
    let done = report(rt, node, given, 1, jobs);
    page.add(", reporter ");
    page.add_number(u64::from(done.status));
    page.end_line();
    node.join(pass, done.pass);
    sender.compare_ended(done.queue);
    Ok(())
}

// A queue with the jobs of these events, and then the end.
fn filled<R: Wait>(rt: &R, alloc: Global, events: &Events) -> io::Result<(JobSender, Jobs)>
    requires { All HasForm events.now }
    ensures queue { IfOk result (λ ends. ends.0.queue ≡ ends.1.queue) }
    ensures fresh { IfOk result (λ ends. ends.1.taken ≡ []) }
{
    let (mut sender, jobs) = queue(alloc)?;
    put_all(rt, &mut sender, events.as_slice())?;
    Ok((sender, jobs))
}

fn put_all<R: Wait>(rt: &R, sender: &mut JobSender, events: &[Event]) -> io::Result<()>
    requires { All HasForm events.now }
    ensures { sender.new.queue ≡ sender.old.queue }
{
    for event in events {
        put_job(rt, sender, event)?;
    }
    sender.put(rt, Job::End);
    Ok(())
}

// What the outlet was given, one by one.
fn add_given(page: &mut Page, outlet: &MemOutlet) {
    for parcel in outlet.given() {
        page.add("given ");
        add_message(page, parcel.to, parcel.bytes.as_slice());
    }
}

// The entries of a book, each with the line at the time at which it was done.
fn add_book(alloc: Global, page: &mut Page, book: &[Entry]) -> Result<(), AllocError> {
    for entry in book {
        if let Some(stop) = entry.stop {
            page.add("stopped at ");
            page.add_number(stop.place);
            page.add(", faults ");
            page.add_number(stop.before);
            page.add(" to ");
            page.add_number(stop.after);
            page.add(": ");
        }
        let mut line = Vec::new(alloc);
        write_event(&done_event(entry)?, &mut line)?;
        page.add_lossy(&line);
    }
    Ok(())
}

/// Adds whether the keeper has the node's map.
pub(crate) fn add_kept(alloc: Global, page: &mut Page, held: &Held<ListKeeper>) -> io::Result<()> {
    let node = &held.node;
    let map = durable_of(alloc, node.state(), node.numbers().ceiling)?;
    page.line(if is_same_map(alloc, held.keeper.map(), &map)? {
        ", the node's map is kept"
    } else {
        ", another map is kept"
    });
    Ok(())
}

fn is_same_map(alloc: Global, one: &Durable, other: &Durable) -> Result<bool, AllocError> {
    let mut first = Vec::new(alloc);
    write_image(alloc, one, &mut first)?;
    let mut second = Vec::new(alloc);
    write_image(alloc, other, &mut second)?;
    Ok(first.as_slice() == second.as_slice())
}
