//! Several workers, the reporter, and who puts the jobs, each in a thread of its own.

ghost use Rattle.std.specs.Prelude.{◌≡◌, ◌≤◌, ◌+◌, [], All, length, IfOk, IfSome, OnOk};
ghost use Rattle.cases_worker.specs.Crew.{HasServed, IsOfThread, IsPost, IsStart, MayServe};
ghost use Rattle.mt_files.specs.Form.{HasForm};
ghost use Rattle.mt_shared.specs.Shared.{IsPassOf};

use crate::alone::add_kept;
use crate::cases::{Case, WORKERS};
use crate::replay::{add_compared, replayed};
use crate::work::{owner_of, put_job, report, rows_of, work};
use cases_node::{begin, keepers_cross};
use cases_page::{Page, no_case};
use mt_durable::Keeper;
use mt_model::{Event, Events, Sent, SessionRows, Verdicts};
use mt_outside::{MemOutlet, Outlet};
use mt_queue::{Job, JobSender, Jobs, queue};
use mt_shared::{NodePass, SharedNode, shared_nodes_are_lent};
use mt_whole::session_named;
use std::alloc::{AllocError, Global};
use std::io;
use std::sync::Wait;
use std::thread::{Threads, for_each_mut, join};

// The most threads of a case, with the reporter's.
const THREADS: usize = WORKERS as usize + 1;

/// A thread: what it begins with, up to its start, and what is left of it.
#[derive(Drop)]
struct Hired {
    number: u32,
    start: Option<Start>,
    left: Option<Left>,
}

/// What a thread begins with. One with no post is the reporter's.
#[derive(Drop)]
struct Start {
    pass: NodePass,
    jobs: Jobs,
    post: Option<Post>,
}

/// What a worker has besides.
#[derive(Drop)]
struct Post {
    rows: SessionRows,
    outlet: MemOutlet,
}

/// What is left of a thread.
#[derive(Drop)]
struct Left {
    pass: NodePass,
    status: u8,
    outlet: Option<MemOutlet>,
}

/// How a thread ended.
#[derive(Drop)]
struct Ended {
    number: u32,
    status: u8,
    outlet: Option<MemOutlet>,
}

/// Plays a case, and tells how all ended and what a node alone makes of the lines of the book; and how many entries that has.
pub(crate) fn play<R: Threads + Wait + Sync>(
    rt: &R,
    alloc: Global,
    page: &mut Page,
    case: &Case,
) -> io::Result<()> {
    keepers_cross();
    let events = case.events(alloc)?;
    page.line(case.name.as_str());
    let begun = begin(alloc, &case.config, &case.commits)?;
    let Ok((node, mut pass)) = SharedNode::new(alloc, begun.node, begun.keeper, begun.verdicts)
    else {
        return Err(AllocError.into());
    };
    let (mut senders, hired) = hire(alloc, case, &node, &mut pass)?;
    let (put, hired) = serve(
        rt,
        alloc,
        case.workers,
        &events,
        &node,
        senders.as_mut_slice(),
        hired,
    );
    let ended = gather(alloc, &node, &mut pass, hired)?;
    let held = node.close(pass);
    if !put {
        return Err(AllocError.into());
    }
    let sent = replayed(alloc, &case.config, &held.book)?;
    add_ended(
        alloc,
        page,
        case,
        has_wake(events.as_slice()),
        &ended,
        sent.as_slice(),
    )?;
    page.add_number(held.book.len() as u64);
    page.add(" entries");
    add_kept(alloc, page, &held)
}

// A thread for each worker and one for the reporter, each with a queue, whose sending ends come first.
fn hire<K: Keeper + Drop + Send, V: Verdicts + Drop>(
    alloc: Global,
    case: &Case,
    node: &SharedNode<K, V>,
    pass: &mut NodePass,
) -> io::Result<(Vec<JobSender>, Vec<Hired>)>
    requires own { IsPassOf node.now pass.old }
    requires share { 10 ≤ pass.old.share }
    ensures own { IsPassOf node.now pass.new }
    ensures hired { IfOk result (λ both. All (MayServe node.now) both.1.items) }
    ensures share { IfOk result (λ both. pass.new.share + length both.1.items ≡ pass.old.share) }
{
    let mut senders = Vec::new(alloc);
    let mut hired = Vec::new(alloc);
    for number in 0..case.workers.min(WORKERS) + 1 {
        let (sender, one) = hire_one(alloc, case, node, pass, number)?;
        senders.push(sender)?;
        hired.push(one)?;
    }
    Ok((senders, hired))
}

// The thread of this number.
fn hire_one<K: Keeper + Drop + Send, V: Verdicts + Drop>(
    alloc: Global,
    case: &Case,
    node: &SharedNode<K, V>,
    pass: &mut NodePass,
    number: u32,
) -> io::Result<(JobSender, Hired)>
    requires own { IsPassOf node.now pass.old }
    requires share { 2 ≤ pass.old.share }
    ensures own { IsPassOf node.now pass.new }
    ensures hired { IfOk result (λ both. MayServe node.now both.1) }
    ensures share { OnOk result (pass.new.share + 1 ≡ pass.old.share) }
{
    let post = post_of(alloc, case, number)?;
    let (sender, jobs) = queue(alloc)?;
    let given = node.split(pass)?;
    let start = Start {
        pass: given,
        jobs,
        post,
    };
    let one = Hired {
        number,
        start: Some(start),
        left: None,
    };
    Ok((sender, one))
}

// What the worker of this number has; the number behind the last is the reporter's.
fn post_of(alloc: Global, case: &Case, number: u32) -> io::Result<Option<Post>>
    ensures { IfOk result (λ post. IfSome post IsPost) }
{
    if number == case.workers {
        return Ok(None);
    }
    let rows = rows_of(alloc, &case.config, number, case.workers)?;
    let outlet = MemOutlet::new(alloc, &case.sends)?;
    Ok(Some(Post { rows, outlet }))
}

// Lets all threads serve, while another puts the jobs. The first answer is false where memory was wanting for a job.
fn serve<R: Threads + Wait + Sync, K: Keeper + Drop + Send, V: Verdicts + Drop + Sync>(
    rt: &R,
    alloc: Global,
    workers: u32,
    events: &Events,
    node: &SharedNode<K, V>,
    senders: &mut [JobSender],
    hired: Vec<Hired>,
) -> (bool, Vec<Hired>)
    requires events { All HasForm events.now }
    requires ready { All (MayServe node.now) hired.items }
    ensures served { All (HasServed node.now) result.1.items }
    ensures length { length result.1.items ≡ length hired.items }
{
    shared_nodes_are_lent::<K, V>();
    join(
        rt,
        || -> bool
            requires { All HasForm events.now }
        { put_all(rt, senders, workers, events.as_slice()) },
        || -> Vec<Hired>
            requires { All (MayServe node.now) hired.items }
            ensures { All (HasServed node.entry.now) result.items × (length result.items ≡ length hired.items) }
        { serve_all(rt, alloc, node, hired) },
    )
}

// Lets all threads serve.
fn serve_all<R: Threads + Wait + Sync, K: Keeper + Drop + Send, V: Verdicts + Drop + Sync>(
    rt: &R,
    alloc: Global,
    node: &SharedNode<K, V>,
    mut hired: Vec<Hired>,
) -> Vec<Hired>
    requires { All (MayServe node.now) hired.items }
    ensures served { All (HasServed node.now) result.items }
    ensures length { length result.items ≡ length hired.items }
{
    shared_nodes_are_lent::<K, V>();
    for_each_mut(
        rt,
        hired.as_mut_slice(),
        THREADS,
        &|_, one: &mut Hired|
            requires { MayServe node.now one.old }
            ensures { HasServed node.entry.now one.new }
        { one.serve(rt, alloc, node) },
    );
    hired
}

impl Hired {
    // Takes the jobs of the thread.
    fn serve<R: Wait, K: Keeper + Drop + Send, V: Verdicts + Drop>(
        &mut self,
        rt: &R,
        alloc: Global,
        node: &SharedNode<K, V>,
    )
        requires { MayServe node.now self.old }
        ensures { HasServed node.now self.new }
    {
        if let Some(start) = self.start.take() {
            self.left = Some(start.serve(rt, alloc, node, self.number));
        }
    }
}

impl Start {
    fn serve<R: Wait, K: Keeper + Drop + Send, V: Verdicts + Drop>(
        self,
        rt: &R,
        alloc: Global,
        node: &SharedNode<K, V>,
        number: u32,
    ) -> Left
        requires { IsStart node.now self }
        ensures { IsOfThread node.now result.pass }
    {
        let Start { pass, jobs, post } = self;
        match post {
            Some(post) => worked(rt, alloc, node, number, pass, jobs, post),
            None => reported(rt, node, number, pass, jobs),
        }
    }
}

fn worked<R: Wait, K: Keeper + Drop + Send, V: Verdicts + Drop>(
    rt: &R,
    alloc: Global,
    node: &SharedNode<K, V>,
    number: u32,
    pass: NodePass,
    jobs: Jobs,
    post: Post,
) -> Left
    requires own { IsOfThread node.now pass }
    requires fresh { jobs.taken ≡ [] }
    requires rows { IsPost post }
    ensures { IsOfThread node.now result.pass }
{
    let Post { rows, outlet } = post;
    let done = work(rt, alloc, node, pass, number, &rows, jobs, outlet);
    Left {
        pass: done.pass,
        status: done.status,
        outlet: Some(done.outlet),
    }
}

fn reported<R: Wait, K: Keeper + Drop + Send, V: Verdicts + Drop>(
    rt: &R,
    node: &SharedNode<K, V>,
    number: u32,
    pass: NodePass,
    jobs: Jobs,
) -> Left
    requires own { IsOfThread node.now pass }
    requires fresh { jobs.taken ≡ [] }
    ensures { IsOfThread node.now result.pass }
{
    let done = report(rt, node, pass, number, jobs);
    Left {
        pass: done.pass,
        status: done.status,
        outlet: None,
    }
}

// Puts the jobs of a case, each where it belongs, and then the end for all. The answer is false where memory was wanting.
fn put_all<R: Wait>(rt: &R, senders: &mut [JobSender], workers: u32, events: &[Event]) -> bool
    requires { All HasForm events.now }
{
    let put = put_events(rt, senders, workers, events);
    for sender in senders {
        sender.put(rt, Job::End);
    }
    put.is_ok()
}

fn put_events<R: Wait>(
    rt: &R,
    senders: &mut [JobSender],
    workers: u32,
    events: &[Event],
) -> io::Result<()>
    requires { All HasForm events.now }
{
    for event in events {
        put_event(rt, senders, workers, event)?;
    }
    Ok(())
}

// A datagram is for the worker that owns its session, a wake for all.
fn put_event<R: Wait>(
    rt: &R,
    senders: &mut [JobSender],
    workers: u32,
    event: &Event,
) -> io::Result<()>
    requires { HasForm event.now }
{
    let Event::Datagram { bytes, .. } = event else {
        return put_for_all(rt, senders, event);
    };
    let session = session_named(bytes.as_slice()).unwrap_or(0);
    match senders.get_mut(owner_of(session, workers) as usize) {
        Some(sender) => put_job(rt, sender, event),
        None => Err(no_case()),
    }
}

fn put_for_all<R: Wait>(rt: &R, senders: &mut [JobSender], event: &Event) -> io::Result<()>
    requires { HasForm event.now }
{
    for sender in senders {
        put_job(rt, sender, event)?;
    }
    Ok(())
}

// Takes the threads' passes in, and gives how they ended, the last first.
fn gather<K: Keeper + Drop + Send, V: Verdicts + Drop>(
    alloc: Global,
    node: &SharedNode<K, V>,
    pass: &mut NodePass,
    mut hired: Vec<Hired>,
) -> io::Result<Vec<Ended>>
    requires own { IsPassOf node.now pass.old }
    requires served { All (HasServed node.now) hired.items }
    ensures { OnOk result (IsPassOf node.now pass.new × (pass.new.share ≡ pass.old.share + length hired.items)) }
{
    let mut all = Vec::with_capacity(alloc, hired.len())?;
    while let Some(one) = hired.pop() {
        let ended = take_in(node, pass, one)?;
        all.push(ended)?;
    }
    Ok(all)
}

fn take_in<K: Keeper + Drop + Send, V: Verdicts + Drop>(
    node: &SharedNode<K, V>,
    pass: &mut NodePass,
    one: Hired,
) -> io::Result<Ended>
    requires own { IsPassOf node.now pass.old }
    requires served { HasServed node.now one }
    ensures own { IsPassOf node.now pass.new }
    ensures share { OnOk result (pass.new.share ≡ pass.old.share + 1) }
{
    let Hired {
        number,
        start: _,
        left,
    } = one;
    let Some(left) = left else {
        return Err(no_case());
    };
    let Left {
        pass: other,
        status,
        outlet,
    } = left;
    node.join(pass, other);
    Ok(Ended {
        number,
        status,
        outlet,
    })
}

// How each worker and the reporter ended, and whether what the outlets were given is what a node alone sends.
fn add_ended(
    alloc: Global,
    page: &mut Page,
    case: &Case,
    wakes: bool,
    ended: &[Ended],
    sent: &[Sent],
) -> io::Result<()> {
    for one in ended.iter().rev() {
        page.add_number(u64::from(one.status));
        match &one.outlet {
            Some(outlet) => add_outlet(alloc, page, case, wakes, one.number, outlet, sent)?,
            None => page.line(", the reporter"),
        }
    }
    Ok(())
}

// How many calls of the outlet failed, and where no wake comes how many datagrams it was given: wakes send again by the time, which
// follows the threads.
fn add_outlet(
    alloc: Global,
    page: &mut Page,
    case: &Case,
    wakes: bool,
    number: u32,
    outlet: &MemOutlet,
    sent: &[Sent],
) -> io::Result<()> {
    page.add(", faults ");
    page.add_number(outlet.faults());
    page.add(", ");
    let given = outlet.given();
    if !wakes {
        page.add_number(given.len() as u64);
        page.add(" given, ");
    }
    add_compared(alloc, page, &case.config, number, case.workers, given, sent)?;
    page.end_line();
    Ok(())
}

fn has_wake(events: &[Event]) -> bool {
    events
        .iter()
        .any(|event| matches!(event, Event::Tick { .. }))
}
