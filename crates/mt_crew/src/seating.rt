//! Queues, and a worker for each outlet.
//!
//! All memory that serving takes before its threads begin is taken here.

ghost use Rattle.std.specs.Prelude.{◌≡◌, ◌<◌, ◌≤◌, ◌+◌, ℕ, List, [], All, IfOk, IsTrue, length, map, slice_index_or, vec_capacity, vec_len};
ghost use Rattle.mt_model.specs.declared.texts.config.SessionRow.{SessionRow};
ghost use Rattle.mt_model.specs.texts.Config.{are_sessions};
ghost use Rattle.mt_owners.specs.Rows.{AreRowsOf};
ghost use Rattle.mt_owners.specs.mt_shared.Shared.{IsPassOf};
ghost use Rattle.mt_served.specs.mt_shares.Merging.{upto};
ghost use Rattle.mt_turn.specs.Known.{part_given};
ghost use Rattle.mt_crew.specs.Members.{BeginsWith, MayHave, MayWork, jobs_in, number_of, outlets_in, rows_of};
ghost use Rattle.mt_crew.specs.Ready.{AreReady, AreSeated, HaveSessions, IsFresh, IsUnput, queue_put, queue_taken};
ghost use Rattle.mt_crew.specs.declared.seating.TheConstants.{WORKERS};

use crate::member::{Member, Post};
use mt_durable::Keeper;
use mt_model::{SessionRow, SessionRows, Verdicts};
use mt_owners::{NodePass, SharedNode, ids_of, rows_of};
use mt_queue::{JobSender, Jobs, queue};
use std::alloc::{AllocError, Global};

/// The most workers.
pub const WORKERS: u32 = 8;

/// The places of a crew, before anybody has taken one: a queue for each worker and, as the last, for the reporter; the sessions of each
/// worker, and the ids of all; and room for the workers.
#[derive(Drop)]
pub struct Places<O> {
    pub(crate) senders: Vec<JobSender>,
    pub(crate) jobs: Vec<Jobs>,
    pub(crate) rows: Vec<SessionRows>,
    pub(crate) members: Vec<Member<O>>,
    pub(crate) ids: Vec<u16>,
}

/// A crew before its threads begin: the reporter's pass and queue, the workers, the ends of all queues into which jobs are put, and the ids
/// of all sessions.
#[derive(Drop)]
pub(crate) struct Seated<O> {
    pub(crate) pass: NodePass,
    pub(crate) ticks: Jobs,
    pub(crate) members: Vec<Member<O>>,
    pub(crate) senders: Vec<JobSender>,
    pub(crate) ids: Vec<u16>,
}

/// The places of so many workers, who own the sessions of this boot.
pub fn reserve<O: Drop>(
    alloc: Global,
    sessions: &[SessionRow],
    boot: u32,
    workers: u32,
) -> Result<Places<O>, AllocError>
    requires valid { IsTrue (are_sessions sessions.now) }
    requires several { (0 < workers) × (workers ≤ WORKERS) }
    ensures ready { IfOk result (AreReady workers) }
    ensures sessions { IfOk result (HaveSessions boot workers sessions.now) }
{
    let (senders, jobs) = queues(alloc, workers + 1)?;
    let rows = all_rows(alloc, sessions, boot, workers)?;
    let members = Vec::with_capacity(alloc, workers as usize)?;
    let ids = ids_of(alloc, sessions, boot)?;
    Ok(Places {
        senders,
        jobs,
        rows,
        members,
        ids,
    })
}

// So many queues.
fn queues(alloc: Global, count: u32) -> Result<(Vec<JobSender>, Vec<Jobs>), AllocError>
    ensures fresh { IfOk result (λ both. All IsUnput both.0.items × All IsFresh both.1.items) }
    ensures queues { IfOk result (λ both. map queue_taken both.1.items ≡ map queue_put both.0.items) }
    ensures length { IfOk result (λ both. (length both.0.items ≡ count) × (length both.1.items ≡ count)) }
{
    let mut senders = Vec::with_capacity(alloc, count as usize)?;
    let mut all = Vec::with_capacity(alloc, count as usize)?;
    for number in 0..count {
        let _ = number;
        let (sender, jobs) = queue(alloc)?;
        senders.push(sender)?;
        all.push(jobs)?;
    }
    Ok((senders, all))
}

// The rows of each worker.
fn all_rows(
    alloc: Global,
    sessions: &[SessionRow],
    boot: u32,
    workers: u32,
) -> Result<Vec<SessionRows>, AllocError>
    requires valid { IsTrue (are_sessions sessions.now) }
    requires several { 0 < workers }
    ensures served { IfOk result (λ all. All MayHave all.items) }
    ensures rows { IfOk result (λ all. (worker : ℕ) (d : List SessionRow) → worker < workers → AreRowsOf boot workers worker sessions.now (slice_index_or all.items worker d)) }
    ensures length { IfOk result (λ all. length all.items ≡ workers) }
{
    let mut all = Vec::with_capacity(alloc, workers as usize)?;
    for worker in 0..workers {
        all.push(rows_of(alloc, sessions, boot, workers, worker)?)?;
    }
    Ok(all)
}

/// A worker for each outlet, each with a pass of its own, and with the queue and the rows of its place.
pub(crate) fn seat_all<K: Keeper + Drop + Send, V: Verdicts + Drop, O: Drop>(
    node: &SharedNode<K, V>,
    pass: &mut NodePass,
    outlets: &mut Vec<O>,
    jobs: &mut Vec<Jobs>,
    rows: &mut Vec<SessionRows>,
    members: &mut Vec<Member<O>>,
)
    requires own { IsPassOf node.now pass.old }
    requires share { vec_len outlets.old < pass.old.share }
    requires few { length outlets.old.items ≤ WORKERS }
    requires nobody { members.old.items ≡ [] }
    requires room { vec_len outlets.old ≤ vec_capacity members.old }
    requires places { (length jobs.old.items ≡ length outlets.old.items) × (length rows.old.items ≡ length outlets.old.items) }
    requires rows { All MayHave rows.old.items }
    requires fresh { All IsFresh jobs.old.items }
    ensures own { IsPassOf node.now pass.new }
    ensures share { pass.new.share + length outlets.old.items ≡ pass.old.share }
    ensures kept { pass.new ≡ record pass.old { share = pass.new.share } }
    ensures empty { outlets.new.items ≡ [] }
    ensures room { (vec_capacity outlets.new ≡ vec_capacity outlets.old) × (vec_capacity members.new ≡ vec_capacity members.old) }
    ensures numbers { map number_of members.new.items ≡ upto (length outlets.old.items) }
    ensures rows { map rows_of members.new.items ≡ rows.old.items }
    ensures jobs { jobs_in members.new.items ≡ jobs.old.items }
    ensures outlets { outlets_in members.new.items ≡ outlets.old.items }
    ensures begins { All (BeginsWith (part_given pass.old)) members.new.items }
    ensures ready { All (MayWork node.now) members.new.items }
    ensures length { length members.new.items ≡ length outlets.old.items }
{
    let Some(outlet) = outlets.pop() else {
        return;
    };
    let Some(own_jobs) = jobs.pop() else {
        unreachable!()
    };
    let Some(own_rows) = rows.pop() else {
        unreachable!()
    };
    let number = outlets.len() as u32;
    seat_all(node, pass, outlets, jobs, rows, members);
    let Ok(given) = node.split(pass) else {
        unreachable!()
    };
    members.push_reserved(Member {
        number,
        rows: own_rows,
        post: Post::Waits {
            pass: given,
            jobs: own_jobs,
            outlet,
        },
    });
}

/// Everybody takes a place: the reporter, and a worker for each outlet.
pub(crate) fn take_places<K: Keeper + Drop + Send, V: Verdicts + Drop, O: Drop>(
    node: &SharedNode<K, V>,
    pass: &mut NodePass,
    outlets: &mut Vec<O>,
    places: Places<O>,
) -> Seated<O>
    requires own { IsPassOf node.now pass.old }
    requires share { vec_len outlets.old + 1 < pass.old.share }
    requires few { length outlets.old.items ≤ WORKERS }
    requires ready { AreReady (length outlets.old.items) places }
    ensures own { IsPassOf node.now pass.new }
    ensures share { pass.new.share + length outlets.old.items + 1 ≡ pass.old.share }
    ensures kept { pass.new ≡ record pass.old { share = pass.new.share } }
    ensures room { (outlets.new.items ≡ []) × (vec_capacity outlets.new ≡ vec_capacity outlets.old) }
    ensures seated { AreSeated node.now (part_given pass.old) places outlets.old.items result }
{
    let Places {
        senders,
        mut jobs,
        mut rows,
        mut members,
        ids,
    } = places;
    let Some(ticks) = jobs.pop() else {
        unreachable!()
    };
    let Ok(given) = node.split(pass) else {
        unreachable!()
    };
    seat_all(node, pass, outlets, &mut jobs, &mut rows, &mut members);
    Seated {
        pass: given,
        ticks,
        members,
        senders,
        ids,
    }
}
