//! A worker, from its first job to the end message.

ghost use Rattle.std.specs.Prelude.{◌≡◌, [], ℕ, List, All, map, IfOk, OnOk};
ghost use mathlib.Core.List.{IsPrefix};
ghost use Rattle.mt_queue.specs.Jobs.{IsEnded};
ghost use Rattle.mt_layer.specs.mt_shared.Shared.{IsPassOf};
ghost use Rattle.mt_turn.specs.History.{IsOutsideAgain};
ghost use Rattle.mt_worker.specs.Accounts.{Accounts};
ghost use Rattle.mt_worker.specs.Due.{AreRising, HaveBegun, IsServed, id_of};
ghost use Rattle.mt_worker.specs.Faults.{status_of};
ghost use Rattle.mt_worker.specs.Seats.{AreSeats};
ghost use Rattle.mt_worker.specs.Works.{WentThrough, Worked};

use crate::acting::Desk;
use crate::fault::WorkFault;
use crate::hand::Hand;
use crate::seat::Seat;
use mt_durable::Keeper;
use mt_layer::{NodePass, SharedNode};
use mt_model::{SessionRow, SessionRows, Verdicts};
use mt_outside::{Gate, Outlet};
use mt_queue::{Job, Jobs, QueuePass};
use std::alloc::{AllocError, Global};
use std::sync::Wait;

/// What is left of a worker or of the reporter.
#[derive(Drop)]
pub struct Done<O> {
    /// The outlet of a worker; the reporter has none.
    pub outlet: O,
    /// What it has seen of the book, and its places there.
    pub pass: NodePass,
    /// What it took from its queue.
    pub queue: QueuePass,
    /// 0, or the fault that it met: 7 want of memory, 8 a commit that failed, 12 an outlet that failed, 13 a full record.
    pub status: u8,
}

/// A worker: the sessions of these rows are its own. It takes jobs until the end message. To a datagram it gives what is to be
/// answered over the session that it names; in a wake it sends again what is due, and reports to the last three subscriptions of
/// each session, by rising id. After a fault it goes on taking jobs, and does nothing else.
pub fn worker<R: Wait, K: Keeper + Drop + Send, V: Verdicts + Drop, O: Outlet + Drop, G: Gate>(
    rt: &R,
    alloc: Global,
    node: &SharedNode<K, V>,
    pass: NodePass,
    number: u32,
    rows: &SessionRows,
    mut jobs: Jobs,
    outlet: O,
    gate: &G,
) -> Done<O>
    requires own { IsPassOf node.now pass }
    requires rows { All IsServed rows.now }
    requires rising { AreRising (map id_of rows.now) }
    requires fresh { jobs.taken ≡ [] }
    ensures outside { IsOutsideAgain pass result.pass }
    ensures queue { result.queue.queue ≡ jobs.queue }
    ensures ended { IsEnded result.queue.taken }
    ensures worked { (accounts : Accounts) → HaveBegun rows.now accounts → Worked O.given O.faults rows.now accounts pass outlet result }
{
    let desk = Desk {
        rt,
        node,
        gate,
        number,
    };
    let mut hand = Hand { pass, outlet };
    let ended = hand.work(&desk, alloc, rows.as_slice(), &mut jobs);
    if ended.is_err() {
        take_to_end(rt, &mut jobs);
    }
    let (pass, outlet) = hand.into_parts();
    Done {
        outlet,
        pass,
        queue: jobs.into_pass(),
        status: status_of(&ended),
    }
}

impl<O: Outlet> Hand<O> {
    // The jobs of a queue up to the end message, with no memory yet for what is kept of the sessions.
    fn work<R: Wait, K: Keeper + Drop + Send, V: Verdicts + Drop, G: Gate>(
        &mut self,
        desk: &Desk<'_, R, K, V, G>,
        alloc: Global,
        rows: &[SessionRow],
        jobs: &mut Jobs,
    ) -> Result<(), WorkFault>
        requires own { IsPassOf desk.now.node.now self.old.pass }
        requires rows { All IsServed rows.now }
        requires rising { AreRising (map id_of rows.now) }
        requires fresh { jobs.old.taken ≡ [] }
        ensures own { IsPassOf desk.now.node.now self.new.pass }
        ensures outside { IsOutsideAgain self.old.pass self.new.pass }
        ensures queue { jobs.new.queue ≡ jobs.old.queue }
        ensures ended { OnOk result (IsEnded jobs.new.taken) }
        ensures worked { (accounts : Accounts) → HaveBegun rows.now accounts
            → WentThrough O.given O.faults (map id_of rows.now) jobs.new.taken self.old self.new result accounts }
    {
        let mut seats = seats_of(alloc, rows)?;
        self.run(desk, &mut seats, jobs)
    }

    // The same with that.
    fn run<R: Wait, K: Keeper + Drop + Send, V: Verdicts + Drop, G: Gate>(
        &mut self,
        desk: &Desk<'_, R, K, V, G>,
        seats: &mut [Seat],
        jobs: &mut Jobs,
    ) -> Result<(), WorkFault>
        requires own { IsPassOf desk.now.node.now self.old.pass }
        requires fresh { jobs.old.taken ≡ [] }
        ensures own { IsPassOf desk.now.node.now self.new.pass }
        ensures outside { IsOutsideAgain self.old.pass self.new.pass }
        ensures queue { jobs.new.queue ≡ jobs.old.queue }
        ensures ended { OnOk result (IsEnded jobs.new.taken) }
        ensures worked { (ids : List ℕ) (accounts : Accounts) → AreSeats seats.old ids accounts → AreRising ids
            → WentThrough O.given O.faults ids jobs.new.taken self.old self.new result accounts }
    {
        for _ in desk.rt.forever() {
            let job = jobs.take(desk.rt);
            if self.is_end_after(desk, seats, job)? {
                return Ok(());
            }
        }
        unreachable!()
    }
}

// What is kept of the sessions of these rows.
fn seats_of(alloc: Global, rows: &[SessionRow]) -> Result<Vec<Seat>, AllocError>
    requires { All IsServed rows.now }
    ensures { (accounts : Accounts) → HaveBegun rows.now accounts → IfOk result (λ seats. AreSeats seats.items (map id_of rows.now) accounts) }
{
    let mut seats = Vec::with_capacity(alloc, rows.len())?;
    for row in rows {
        seats.push(Seat::new(alloc, row)?)?;
    }
    Ok(seats)
}

/// Takes the jobs that are left, up to the end message.
pub(crate) fn take_to_end<R: Wait>(rt: &R, jobs: &mut Jobs)
    ensures queue { jobs.new.queue ≡ jobs.old.queue }
    ensures longer { IsPrefix jobs.old.taken jobs.new.taken }
    ensures ended { IsEnded jobs.new.taken }
{
    for _ in rt.forever() {
        if let Job::End = jobs.take(rt) {
            return;
        }
    }
    unreachable!()
}

/// The status of how a worker ended.
pub(crate) fn status_of(ended: &Result<(), WorkFault>) -> u8
    ensures { result ≡ status_of ended.now }
{
    match ended {
        Ok(()) => 0,
        Err(fault) => fault.status(),
    }
}
