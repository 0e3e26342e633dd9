//! All answers of the intake, up to the last one, and then the end.

ghost use Rattle.std.specs.Prelude.{◌≡◌, ◌<◌, ◌≤◌, ◌+◌, ◌∷◌, [], Err, length, IfErr, IfOk, OnOk};
ghost use Rattle.mt_outside.specs.declared.datagrams.TheConstants.{DATAGRAM_BYTES, LATEST_NOW};
ghost use Rattle.mt_outside.specs.declared.network.Arrival.TheVariants.{Datagram};
ghost use Rattle.mt_queue.specs.declared.job.Job.TheVariants.{End};
ghost use Rattle.mt_receiver.specs.Receives as receives;
ghost use Rattle.mt_receiver.specs.Receives.{AllPut, AreSame, Counts, TookAll, Went, workers_of};
ghost use Rattle.mt_receiver.specs.Rounds.{jobs_of, woken_behind};

use crate::routing::{end_all, hand, wake};
use mt_outside::{DATAGRAM_BYTES, Intake, Peer, Progress, Taken};
use mt_queue::JobSender;
use std::alloc::Global;
use std::sync::Wait;

/// Why the receiver stopped receiving.
#[derive(Clone, Copy, Debug, PartialEq, Eq)]
pub enum ReceiveFault {
    /// Memory is wanting.
    Memory,
    /// The intake failed.
    Link,
}

/// What was received: how many datagrams, how many of them named no session of the boot, and how it ended.
#[derive(Clone, Copy, Debug, PartialEq, Eq)]
pub struct Received {
    pub datagrams: u32,
    pub dropped: u32,
    pub ended: Result<(), ReceiveFault>,
}

/// Takes what comes to an intake until so many datagrams have come or it has ended, and gives each queue its jobs, and at the end, or at
/// a fault, the end message. The last queue is the reporter's, the others are those of the workers, by their numbers. A datagram goes to
/// the worker whose number is the id of the session that its header names, modulo the count of the workers, where that session is one of
/// these; else it is dropped. An answer whose time has more whole seconds than that of every earlier one wakes all before.
pub fn receive<R: Wait, I: Intake, P: Progress>(
    rt: &R,
    alloc: Global,
    intake: &mut I,
    senders: &mut [JobSender],
    ids: &[u16],
    limit: u32,
    progress: &mut P,
) -> Received
    requires several { 1 < length senders.old }
    requires some { 0 < limit }
    ensures same { AreSame senders.old senders.new }
    ensures received { OnOk result.ended (receives.Received ids.now limit senders.old senders.new (I.held intake.old) (I.held intake.new) (I.clock intake.old)) }
    ensures counts { Counts result.ended (I.faults intake.old) (I.faults intake.new) }
{
    let mut receiver = Receiver {
        ids,
        limit,
        woken: 0,
        datagrams: 0,
        dropped: 0,
    };
    let ended = receiver.take_all(rt, alloc, intake, senders, progress);
    end_all(rt, senders);
    Received {
        datagrams: receiver.datagrams,
        dropped: receiver.dropped,
        ended,
    }
}

/// Receives nothing, as where memory is wanting for those who take the jobs: each queue gets the end message.
pub fn receive_nothing<R: Wait>(rt: &R, senders: &mut [JobSender]) -> Received
    ensures same { AreSame senders.old senders.new }
    ensures end { AllPut (λ k. End ∷ []) senders.old senders.new }
    ensures none { (result.datagrams ≡ 0) × (result.dropped ≡ 0) }
    ensures ended { result.ended ≡ Err ReceiveFault.Memory }
{
    end_all(rt, senders);
    Received {
        datagrams: 0,
        dropped: 0,
        ended: Err(ReceiveFault::Memory),
    }
}

// How far the receiver is: of these sessions, to so many datagrams. The seconds of the latest wake are told from 1.
#[derive(Drop)]
struct Receiver<'a> {
    ids: &'a [u16],
    limit: u32,
    woken: u64,
    datagrams: u32,
    dropped: u32,
}

impl Receiver<'_> {
    // All answers.
    fn take_all<R: Wait, I: Intake, P: Progress>(
        &mut self,
        rt: &R,
        alloc: Global,
        intake: &mut I,
        senders: &mut [JobSender],
        progress: &mut P,
    ) -> Result<(), ReceiveFault>
        requires several { 1 < length senders.old }
        requires begins { (self.old.woken ≡ 0) × (self.old.datagrams ≡ 0) × (0 < self.old.limit) }
        ensures same { AreSame senders.old senders.new }
        ensures took { OnOk result (TookAll self.old.ids.now self.old.limit senders.old senders.new (I.held intake.old) (I.held intake.new) (I.clock intake.old)) }
        ensures counts { Counts result (I.faults intake.old) (I.faults intake.new) }
    {
        let mut into = [0; DATAGRAM_BYTES];
        for _ in rt.forever() {
            if self.is_over_after(rt, alloc, intake, senders, &mut into)? {
                return Ok(());
            }
            progress.done(self.datagrams, self.limit);
        }
        unreachable!()
    }

    // One answer. True where it was the last one.
    fn is_over_after<R: Wait, I: Intake>(
        &mut self,
        rt: &R,
        alloc: Global,
        intake: &mut I,
        senders: &mut [JobSender],
        into: &mut [u8],
    ) -> Result<bool, ReceiveFault>
        requires several { 1 < length senders.old }
        requires room { length into.old ≡ DATAGRAM_BYTES }
        requires goes_on { self.old.datagrams < self.old.limit }
        ensures room { length into.new ≡ length into.old }
        ensures ids { (self.new.ids ≡ self.old.ids) × (self.new.limit ≡ self.old.limit) }
        ensures same { AreSame senders.old senders.new }
        ensures went { IfOk result (Went self.old self.new senders.old senders.new (I.held intake.old) (I.held intake.new) (I.clock intake.old) (I.clock intake.new)) }
        ensures counts { Counts result (I.faults intake.old) (I.faults intake.new) }
    {
        let Ok(taken) = intake.recv(into) else {
            return Err(ReceiveFault::Link);
        };
        match taken {
            Taken::Ended => Ok(true),
            Taken::Quiet { now } => {
                self.woken = wake(rt, senders, self.woken, now);
                Ok(false)
            }
            Taken::Datagram { now, from, length } => {
                self.take(rt, alloc, senders, now, from, &into[..length])?;
                Ok(self.datagrams == self.limit)
            }
        }
    }

    // A datagram.
    fn take<R: Wait>(
        &mut self,
        rt: &R,
        alloc: Global,
        senders: &mut [JobSender],
        now: u64,
        from: Peer,
        bytes: &[u8],
    ) -> Result<(), ReceiveFault>
        requires several { 1 < length senders.old }
        requires time { now ≤ LATEST_NOW }
        requires short { length bytes.now ≤ DATAGRAM_BYTES }
        requires goes_on { self.old.datagrams < self.old.limit }
        ensures counted { OnOk result (self.new ≡ record self.old { woken = woken_behind self.old.woken (Datagram now from bytes.now); datagrams = self.old.datagrams + 1; dropped = self.new.dropped }) }
        ensures ids { (self.new.ids ≡ self.old.ids) × (self.new.limit ≡ self.old.limit) }
        ensures same { AreSame senders.old senders.new }
        ensures put { OnOk result (AllPut (λ k. jobs_of (workers_of senders.old) k self.old.ids.now self.old.woken (Datagram now from bytes.now)) senders.old senders.new) }
        ensures memory { IfErr result (λ fault. fault ≡ ReceiveFault.Memory) }
    {
        self.woken = wake(rt, senders, self.woken, now);
        let Ok(handed) = hand(rt, alloc, senders, self.ids, now, from, bytes) else {
            return Err(ReceiveFault::Memory);
        };
        self.datagrams += 1;
        if !handed {
            self.dropped = self.dropped.saturating_add(1);
        }
        Ok(())
    }
}
