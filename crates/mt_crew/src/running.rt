//! From a node to its book.

ghost use Rattle.std.specs.Prelude.{◌≡◌, ◌<◌, ◌≤◌, ℕ, List, None, Some, is_some, length, slice_get, true};
ghost use Rattle.mt_model.specs.declared.texts.config.SessionRow.{SessionRow};
ghost use Rattle.mt_owners.specs.mt_shared.Acts.{IsHalted, StandsBetween};
ghost use Rattle.mt_owners.specs.mt_shared.Book.{are_in_time, is_timed, stop_in};
ghost use Rattle.mt_owners.specs.mt_shared.Replay.{map_of, replay};
ghost use Rattle.mt_owners.specs.mt_shared.Stop.{Stop as AnyStop};
ghost use Rattle.mt_turn.specs.Known.{first_pass};
ghost use Rattle.mt_crew.specs.Ready.{AreReady, HaveSessions};
ghost use Rattle.mt_crew.specs.Serves.{HasServed, status_of};

use crate::gathering::{first_of, gather_all};
use crate::seating::{Places, Seated, take_places};
use crate::threads::{Reception, serve_all};
use mt_durable::Keeper;
use mt_model::Verdicts;
use mt_outside::{Gate, Intake, Outlet, Progress};
use mt_owners::{Held, NodePass, ReceiveFault, Received, SharedNode, Watcher};
use std::alloc::Global;
use std::sync::Wait;
use std::thread::Threads;

/// How serving ended: with which status, the node beside its keeper and its book, what was received, and what was lent for it.
pub struct Ended<K: Keeper, I, O> {
    /// 0; or the first that is not, of the receiver's (7 want of memory, also for a thread that did not begin; 12 the intake failed), the
    /// workers' by rising number, and the reporter's (7, 8 a commit failed, 12 an outlet failed, 13 the record is full).
    pub status: u8,
    pub held: Held<K>,
    pub received: Received,
    pub intake: I,
    pub outlets: Vec<O>,
}

impl<K: Keeper + Drop, I: Drop, O: Drop> Drop for Ended<K, I, O> {
    fn drop(self) {
        let Ended {
            status: _,
            held: _,
            received: _,
            intake: _,
            outlets: _,
        } = self;
    }
}

impl<K: Keeper + Drop, I: Drop, O: Drop> Ended<K, I, O> {
    /// The status, the node beside its keeper and its book, the intake and the outlets.
    pub fn into_parts(self) -> (u8, Held<K>, I, Vec<O>)
        ensures { result ≡ (self.status, self.held, self.intake, self.outlets) }
    {
        let Ended {
            status,
            held,
            received: _,
            intake,
            outlets,
        } = self;
        (status, held, intake, outlets)
    }
}

/// Serves a node: one worker for each outlet, a reporter and a receiver beside each other, until so many datagrams have come, the intake
/// has ended, or the receiver meets a fault. It takes no memory before the threads begin, but what the threads themselves take; where one
/// has not begun within ten seconds, nothing is received. Where it returns, all threads have ended.
pub fn run<
    R: Threads + Wait + Sync,
    K: Keeper + Drop + Send,
    V: Verdicts + Drop + Sync,
    I: Intake + Drop + Send,
    O: Outlet + Drop + Send,
    G: Gate + Sync,
    P: Progress + Drop + Send,
    U: Watcher + Drop + Send,
>(
    rt: &R,
    alloc: Global,
    node: SharedNode<K, V>,
    mut pass: NodePass,
    places: Places<O>,
    intake: I,
    mut outlets: Vec<O>,
    gate: &G,
    limit: u32,
    progress: P,
    watcher: U,
) -> Ended<K, I, O>
    requires first { pass ≡ first_pass node.lock node.origin }
    requires several { (0 < length outlets.items) × (length outlets.items ≤ 8) }
    requires ready { AreReady (length outlets.items) places }
    requires some { 0 < limit }
    ensures origin { result.held.origin.value ≡ node.origin }
    ensures node { result.held.node ≡ replay node.origin result.held.book.items }
    ensures kept { stop_in result.held.book.items ≡ None → K.map result.held.keeper ≡ Some (map_of result.held.node) }
    ensures halted { (stop : AnyStop) → stop_in result.held.book.items ≡ Some stop → IsHalted stop result.held.node result.held.book.items (K.map result.held.keeper) }
    ensures failed { K.failed result.held.keeper ≡ is_some (stop_in result.held.book.items) }
    ensures in_time { are_in_time result.held.book.items ≡ true }
    ensures timed { is_timed 0 result.held.book.items ≡ true }
    ensures counted { (stop : AnyStop) → stop_in result.held.book.items ≡ Some stop → K.faults result.held.keeper ≡ stop.after }
    ensures between { (stop : AnyStop) → stop_in result.held.book.items ≡ Some stop → ∥ StandsBetween (K.stands_between result.held.keeper) result.held.node (slice_get result.held.book.items stop.place) ∥₁ }
    ensures length { length result.outlets.items ≡ length outlets.items }
    ensures crew { (boot : ℕ) (sessions : List SessionRow) → HaveSessions boot (length outlets.items) sessions places
        → HasServed I.held I.clock I.faults O.given O.faults node boot sessions limit outlets.items result.outlets.items intake result.intake result.received result.held.book.items result.status }
{
    let Seated {
        pass: given,
        ticks,
        members,
        senders,
        ids,
    } = take_places(&node, &mut pass, &mut outlets, places);
    let reception = Reception::new(intake, senders, ids, limit, progress);
    let ((received, reception), (clerk, members)) = serve_all(
        rt, alloc, &node, gate, reception, given, ticks, watcher, members,
    );
    let (intake, senders) = reception.into_parts();
    let left = gather_all(&node, &mut pass, &mut outlets, senders, clerk, members);
    Ended {
        status: first_of(status_of(&received), left),
        held: node.close(pass),
        received,
        intake,
        outlets,
    }
}

// The status of how the receiver ended.
fn status_of(received: &Received) -> u8
    ensures { result ≡ status_of received.now.ended }
{
    match received.ended {
        Ok(()) => 0,
        Err(ReceiveFault::Memory) => 7,
        Err(ReceiveFault::Link) => 12,
    }
}
