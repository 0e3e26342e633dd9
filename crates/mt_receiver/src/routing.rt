//! What one answer of the intake gives to the queues.

ghost use Rattle.std.specs.Prelude.{◌≡◌, ◌<◌, ◌≤◌, ◌==◌, ◌∷◌, [], Some, length, OnErr, OnOk};
ghost use Rattle.std.specs.List.{list_any};
ghost use Rattle.mt_model.specs.declared.limits.TheConstants.{LAST_TIME, RECEIVED_BYTES};
ghost use Rattle.mt_outside.specs.declared.network.Arrival.TheVariants.{Datagram, Quiet};
ghost use Rattle.mt_queue.specs.declared.job.Job.TheVariants.{End, Wake};
ghost use Rattle.mt_receiver.specs.Receives.{AllPut, AreSame, workers_of};
ghost use Rattle.mt_receiver.specs.Rounds.{take_jobs, take_named, wake_jobs, woken_behind};

use mt_outside::Peer;
use mt_queue::{Job, JobSender};
use mt_talk::session_named;
use mt_tlv::Bytes;
use std::alloc::{AllocError, Global};
use std::sync::Wait;

/// Puts the end message into each queue.
pub(crate) fn end_all<R: Wait>(rt: &R, senders: &mut [JobSender])
    ensures { AllPut (λ k. End ∷ []) senders.old senders.new }
{
    for sender in senders.iter_mut() {
        sender.put(rt, Job::End);
    }
}

// Wakes all.
fn wake_all<R: Wait>(rt: &R, senders: &mut [JobSender], now: u64)
    requires time { now ≤ LAST_TIME }
    ensures { AllPut (λ k. Wake now ∷ []) senders.old senders.new }
{
    for sender in senders.iter_mut() {
        sender.put(rt, Job::Wake { now });
    }
}

/// Wakes all where the whole seconds of this time, in ms, are more than those of the latest wake, which are told from 1, with 0 before
/// the first. The answer is the latest ones then.
pub(crate) fn wake<R: Wait>(rt: &R, senders: &mut [JobSender], woken: u64, now: u64) -> u64
    requires time { now ≤ LAST_TIME }
    ensures woken { result ≡ woken_behind woken (Quiet now) }
    ensures put { AllPut (λ k. wake_jobs woken (Quiet now)) senders.old senders.new }
{
    let second = now / 1000 + 1;
    if woken < second {
        wake_all(rt, senders, now);
        return second;
    }
    woken
}

/// Gives a datagram to the worker of the session that its header names, where that is one of these. The answer is whether it is.
pub(crate) fn hand<R: Wait>(
    rt: &R,
    alloc: Global,
    senders: &mut [JobSender],
    ids: &[u16],
    now: u64,
    from: Peer,
    bytes: &[u8],
) -> Result<bool, AllocError>
    requires time { now ≤ LAST_TIME }
    requires short { length bytes.now ≤ RECEIVED_BYTES }
    requires several { 1 < length senders.old }
    ensures put { OnOk result (AllPut (λ k. take_jobs (workers_of senders.old) k ids.now (Datagram now from bytes.now)) senders.old senders.new) }
    ensures same { OnErr result (senders.new ≡ senders.old) }
{
    match session_named(bytes) {
        Some(session) => hand_to(rt, alloc, senders, ids, session, now, from, bytes),
        None => Ok(false),
    }
}

// The same where it names this session.
fn hand_to<R: Wait>(
    rt: &R,
    alloc: Global,
    senders: &mut [JobSender],
    ids: &[u16],
    session: u16,
    now: u64,
    from: Peer,
    bytes: &[u8],
) -> Result<bool, AllocError>
    requires time { now ≤ LAST_TIME }
    requires short { length bytes.now ≤ RECEIVED_BYTES }
    requires several { 1 < length senders.old }
    ensures put { OnOk result (AllPut (λ k. take_named (workers_of senders.old) k ids.now now from bytes.now (Some session)) senders.old senders.new) }
    ensures same { OnErr result (senders.new ≡ senders.old) }
{
    if !is_among(ids, session) {
        return Ok(false);
    }
    let bytes = Bytes::from_slice(alloc, bytes)?;
    let worker = usize::from(session) % (senders.len() - 1);
    senders[worker].put(rt, Job::Take { now, from, bytes });
    Ok(true)
}

// Whether the session of this id is one of these.
fn is_among(ids: &[u16], session: u16) -> bool
    ensures { result ≡ list_any (λ id. id == session) ids.now }
{
    ids.iter().any(|id| *id == session)
}
