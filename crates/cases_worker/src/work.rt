//! A worker with its rows, the reporter, and the job of an event.

ghost use Rattle.std.specs.Prelude.{◌≡◌, ◌<◌, [], ℕ, All, IfOk, IsTrue, map};
ghost use Rattle.mt_files.specs.Form.{HasForm};
ghost use Rattle.mt_queue.specs.Jobs.{IsEnded};
ghost use Rattle.mt_shared.specs.Shared.{IsPassOf};
ghost use Rattle.mt_worker.specs.Due.{AreRising, IsServed, id_of};
ghost use Rattle.mt_worker.specs.Gots.{Each};

use cases_page::no_case;
use mt_durable::Keeper;
use mt_model::{Auth, Config, Event, ExactCopy, SessionRow, SessionRows, Verdicts};
use mt_outside::{MemOutlet, NoGate, Unwatched};
use mt_queue::{Job, JobSender, Jobs};
use mt_shared::{NodePass, SharedNode};
use mt_worker::{Done, reporter, worker};
use std::alloc::Global;
use std::io;
use std::sync::Wait;

/// The rows of a worker, by rising id: those of the first boot whose ids leave its number, where they are divided by how many
/// workers there are.
pub(crate) fn rows_of(
    alloc: Global,
    config: &Config,
    number: u32,
    workers: u32,
) -> io::Result<SessionRows>
    ensures { IfOk result (λ rows. All IsServed rows × AreRising (map id_of rows)) }
{
    let mut rows = SessionRows::new(alloc);
    for row in config.sessions.as_slice() {
        if row.boot == 1 && owner_of(row.session, workers) == number {
            rows.push(row.copy()?)?;
        }
    }
    if !are_served(rows.as_slice()) || !are_rising(rows.as_slice()) {
        return Err(no_case());
    }
    Ok(rows)
}

/// The number of the worker that owns a session.
pub(crate) fn owner_of(session: u16, workers: u32) -> u32 {
    u32::from(session) % workers.max(1)
}

fn are_served(rows: &[SessionRow]) -> bool
    ensures { IsTrue result → All IsServed rows.now }
{
    rows.iter().all(is_served)
}

fn is_served(row: &SessionRow) -> bool
    ensures { IsTrue result → IsServed row.now }
{
    row.auth != Auth::Group && row.session != 0 && row.peer_session != 0
}

fn are_rising(rows: &[SessionRow]) -> bool
    ensures { IsTrue result → AreRising (map id_of rows.now) }
{
    match rows.split_first() {
        Some((row, later)) => are_above(row.session, later) && are_rising(later),
        None => true,
    }
}

fn are_above(session: u16, rows: &[SessionRow]) -> bool
    ensures { IsTrue result → Each (λ (later : ℕ). session < later) (map id_of rows.now) }
{
    match rows.split_first() {
        Some((row, later)) => session < row.session && are_above(session, later),
        None => true,
    }
}

/// A worker of a case, to which nobody has given a job yet.
pub(crate) fn work<R: Wait, K: Keeper + Drop + Send, V: Verdicts + Drop>(
    rt: &R,
    alloc: Global,
    node: &SharedNode<K, V>,
    pass: NodePass,
    number: u32,
    rows: &SessionRows,
    jobs: Jobs,
    outlet: MemOutlet,
) -> Done<MemOutlet>
    requires own { IsPassOf node.now pass }
    requires rows { All IsServed rows.now × AreRising (map id_of rows.now) }
    requires fresh { jobs.taken ≡ [] }
    ensures own { IsPassOf node.now result.pass × (result.pass.share ≡ pass.share) }
    ensures queue { result.queue.queue ≡ jobs.queue }
    ensures ended { IsEnded result.queue.taken }
{
    worker(rt, alloc, node, pass, number, rows, jobs, outlet, &NoGate)
}

/// The reporter of a case.
pub(crate) fn report<R: Wait, K: Keeper + Drop + Send, V: Verdicts + Drop>(
    rt: &R,
    node: &SharedNode<K, V>,
    pass: NodePass,
    number: u32,
    jobs: Jobs,
) -> Done<()>
    requires own { IsPassOf node.now pass }
    requires fresh { jobs.taken ≡ [] }
    ensures own { IsPassOf node.now result.pass × (result.pass.share ≡ pass.share) }
    ensures queue { result.queue.queue ≡ jobs.queue }
    ensures ended { IsEnded result.queue.taken }
{
    reporter(rt, node, pass, number, jobs, &NoGate, Unwatched)
}

/// Puts the job of an event: a datagram that comes, or a wake.
pub(crate) fn put_job<R: Wait>(rt: &R, sender: &mut JobSender, event: &Event) -> io::Result<()>
    requires { HasForm event.now }
    ensures { sender.new.queue ≡ sender.old.queue }
{
    let job = match event {
        Event::Datagram { ms, peer, bytes } => Job::Take {
            now: *ms,
            from: *peer,
            bytes: bytes.copy()?,
        },
        Event::Tick { ms } => Job::Wake { now: *ms },
        _ => return Err(no_case()),
    };
    sender.put(rt, job);
    Ok(())
}
