//! All threads beside each other.

ghost use Rattle.std.specs.Prelude.{◌≡◌, ◌<◌, ℕ, [], All, length, slice_index_or};
ghost use Rattle.mt_crew.specs.Members.{HasReported, HasWorked, IsOfThread, MayWork};
ghost use Rattle.mt_crew.specs.Serves.{HasReceived};

use crate::member::Member;
use crate::muster::Muster;
use mt_durable::Keeper;
use mt_model::Verdicts;
use mt_outside::{Gate, Intake, Outlet, Progress};
use mt_owners::{
    Done, NodePass, Received, SharedNode, Watcher, receive, receive_nothing, reporter,
    shared_nodes_are_lent,
};
use mt_queue::{JobSender, Jobs};
use std::alloc::Global;
use std::sync::Wait;
use std::thread::{Threads, for_each_mut, join};

/// What the receiver works with.
pub(crate) struct Reception<I, P> {
    pub(crate) intake: I,
    pub(crate) senders: Vec<JobSender>,
    pub(crate) ids: Vec<u16>,
    pub(crate) limit: u32,
    pub(crate) progress: P,
}

impl<I: Drop, P: Drop> Drop for Reception<I, P> {
    fn drop(self) {
        let Reception {
            intake: _,
            senders: _,
            ids: _,
            limit: _,
            progress: _,
        } = self;
    }
}

impl<I: Drop, P: Drop> Reception<I, P> {
    /// What the receiver begins with.
    pub(crate) fn new(
        intake: I,
        senders: Vec<JobSender>,
        ids: Vec<u16>,
        limit: u32,
        progress: P,
    ) -> Reception<I, P>
        ensures intake { result.intake ≡ intake }
        ensures senders { result.senders ≡ senders }
        ensures ids { result.ids ≡ ids }
        ensures limit { result.limit ≡ limit }
    {
        Reception {
            intake,
            senders,
            ids,
            limit,
            progress,
        }
    }

    /// The intake and the queues.
    pub(crate) fn into_parts(self) -> (I, Vec<JobSender>)
        ensures { result ≡ (self.intake, self.senders) }
    {
        let Reception {
            intake,
            senders,
            ids: _,
            limit: _,
            progress: _,
        } = self;
        (intake, senders)
    }
}

impl<I: Intake + Drop, P: Progress + Drop> Reception<I, P> {
    // Receives all that comes once the others have begun, and gives it back with how that ended. Where one of them does not begin, nothing
    // is received, for want of memory.
    fn receive<R: Wait>(
        mut self,
        rt: &R,
        alloc: Global,
        muster: &Muster,
    ) -> (Received, Reception<I, P>)
        requires several { 1 < length self.senders.items }
        requires some { 0 < self.limit }
        ensures received { HasReceived I.held I.clock I.faults self result.1 result.0 }
    {
        if !muster.is_whole(rt) {
            let received = receive_nothing(rt, self.senders.as_mut_slice());
            return (received, self);
        }
        let received = receive(
            rt,
            alloc,
            &mut self.intake,
            self.senders.as_mut_slice(),
            &self.ids,
            self.limit,
            &mut self.progress,
        );
        (received, self)
    }
}

// The workers beside each other.
fn work_all<
    R: Threads + Wait + Sync,
    K: Keeper + Drop + Send,
    V: Verdicts + Drop + Sync,
    O: Outlet + Drop + Send,
    G: Gate + Sync,
>(
    rt: &R,
    alloc: Global,
    node: &SharedNode<K, V>,
    gate: &G,
    muster: &Muster,
    mut members: Vec<Member<O>>,
) -> Vec<Member<O>>
    requires ready { All (MayWork node.now) members.items }
    ensures length { length result.items ≡ length members.items }
    ensures worked { (k : ℕ) (d : _) → k < length members.items → HasWorked O.given O.faults node.now (slice_index_or members.items k d) (slice_index_or result.items k d) }
{
    shared_nodes_are_lent::<K, V>();
    let count = members.len();
    if count == 0 {
        return members;
    }
    for_each_mut(
        rt,
        members.as_mut_slice(),
        count,
        &|_, member: &mut Member<O>|
            requires { MayWork node.now member.old }
            ensures { HasWorked O.given O.faults node.entry.now member.old member.new }
        {
            muster.arrive();
            member.serve(rt, alloc, node, gate)
        },
    );
    members
}

// The reporter beside the workers.
fn report_beside<
    R: Threads + Wait + Sync,
    K: Keeper + Drop + Send,
    V: Verdicts + Drop + Sync,
    O: Outlet + Drop + Send,
    G: Gate + Sync,
    U: Watcher + Drop + Send,
>(
    rt: &R,
    alloc: Global,
    node: &SharedNode<K, V>,
    gate: &G,
    muster: &Muster,
    pass: NodePass,
    jobs: Jobs,
    watcher: U,
    members: Vec<Member<O>>,
) -> (Done<()>, Vec<Member<O>>)
    requires own { IsOfThread node.now pass }
    requires fresh { jobs.taken ≡ [] }
    requires ready { All (MayWork node.now) members.items }
    ensures reported { HasReported node.now pass jobs result.0 }
    ensures length { length result.1.items ≡ length members.items }
    ensures worked { (k : ℕ) (d : _) → k < length members.items → HasWorked O.given O.faults node.now (slice_index_or members.items k d) (slice_index_or result.1.items k d) }
{
    shared_nodes_are_lent::<K, V>();
    let number = u32::try_from(members.len()).unwrap_or(u32::MAX);
    join(
        rt,
        move || -> Done<()>
            requires { IsOfThread node.now pass × (jobs.taken ≡ []) }
            ensures { HasReported node.entry.now pass jobs result }
        {
            muster.arrive();
            reporter(rt, node, pass, number, jobs, gate, watcher)
        },
        move || -> Vec<Member<O>>
            requires { All (MayWork node.now) members.items }
            ensures length { length result.items ≡ length members.items }
            ensures worked { (k : ℕ) (d : _) → k < length members.items → HasWorked O.given O.faults node.entry.now (slice_index_or members.items k d) (slice_index_or result.items k d) }
        { work_all(rt, alloc, node, gate, muster, members) },
    )
}

/// The receiver beside all of them, in this thread. It begins once they have: where the thread of one can't be made, `join` does what that
/// would have done behind the receiver, who must not wait for it.
pub(crate) fn serve_all<
    R: Threads + Wait + Sync,
    K: Keeper + Drop + Send,
    V: Verdicts + Drop + Sync,
    I: Intake + Drop + Send,
    O: Outlet + Drop + Send,
    G: Gate + Sync,
    P: Progress + Drop + Send,
    U: Watcher + Drop + Send,
>(
    rt: &R,
    alloc: Global,
    node: &SharedNode<K, V>,
    gate: &G,
    reception: Reception<I, P>,
    pass: NodePass,
    jobs: Jobs,
    watcher: U,
    members: Vec<Member<O>>,
) -> ((Received, Reception<I, P>), (Done<()>, Vec<Member<O>>))
    requires several { (1 < length reception.senders.items) × (0 < reception.limit) }
    requires own { IsOfThread node.now pass }
    requires fresh { jobs.taken ≡ [] }
    requires ready { All (MayWork node.now) members.items }
    ensures received { HasReceived I.held I.clock I.faults reception result.0.1 result.0.0 }
    ensures reported { HasReported node.now pass jobs result.1.0 }
    ensures length { length result.1.1.items ≡ length members.items }
    ensures worked { (k : ℕ) (d : _) → k < length members.items → HasWorked O.given O.faults node.now (slice_index_or members.items k d) (slice_index_or result.1.1.items k d) }
{
    shared_nodes_are_lent::<K, V>();
    let muster = Muster::new((members.len() as u64).saturating_add(1));
    let muster = &muster;
    let (others, received) = join(
        rt,
        move || -> (Done<()>, Vec<Member<O>>)
            requires { IsOfThread node.now pass × (jobs.taken ≡ []) × All (MayWork node.now) members.items }
            ensures reported { HasReported node.entry.now pass jobs result.0 }
            ensures length { length result.1.items ≡ length members.items }
            ensures worked { (k : ℕ) (d : _) → k < length members.items → HasWorked O.given O.faults node.entry.now (slice_index_or members.items k d) (slice_index_or result.1.items k d) }
        { report_beside(rt, alloc, node, gate, muster, pass, jobs, watcher, members) },
        move || -> (Received, Reception<I, P>)
            requires { (1 < length reception.senders.items) × (0 < reception.limit) }
            ensures { HasReceived I.held I.clock I.faults reception result.1 result.0 }
        { reception.receive(rt, alloc, muster) },
    );
    (received, others)
}
