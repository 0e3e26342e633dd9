ghost use Rattle.std.specs.Prelude.{◌≡◌};
ghost use Rattle.mt_queue.specs.Jobs.{IsWithinLimits};

use super::*;
use mt_outside::Peer;
use mt_tlv::Bytes;
use std::alloc::Global;
use std::process::Abort;
use std::sync::Wait;
use std::test::*;
use std::thread::{Threads, join};

/// What a taker saw: how many jobs came before the end, and how many of them were not the next one.
#[derive(Drop)]
struct Seen {
    jobs: u32,
    strays: u32,
}

const PEER: Peer = Peer {
    ip: [0; 16],
    port: 5540,
};

// The job with a number: its time is the number, and each third job has the number in a datagram too.
fn numbered<R: Abort>(rt: &R, alloc: Global, number: u32) -> Job
    ensures { IsWithinLimits result }
{
    let now = u64::from(number);
    if number % 3 != 0 {
        return Job::Wake { now };
    }
    let Ok(bytes) = Bytes::from_slice(alloc, &[(number % 256) as u8, (number / 256 % 256) as u8])
    else {
        panic!(rt; "memory")
    };
    Job::Take {
        now,
        from: PEER,
        bytes,
    }
}

// Whether it is the job with that number.
fn has_number(job: &Job, number: u32) -> bool {
    match job {
        Job::Take { now, from, bytes } => {
            *now == u64::from(number)
                && *from == PEER
                && bytes.as_slice() == [(number % 256) as u8, (number / 256 % 256) as u8].as_slice()
        }
        Job::Wake { now } => *now == u64::from(number) && number % 3 != 0,
        Job::End => false,
    }
}

// Puts the jobs with these numbers.
fn put_numbered<R: Wait + Abort>(rt: &R, alloc: Global, sender: &mut JobSender, from: u32, to: u32)
    ensures { sender.new.queue ≡ sender.old.queue }
{
    for number in from..to {
        sender.put(rt, numbered(rt, alloc, number));
    }
}

// Takes jobs up to the end, and compares each with the number that should be next.
fn take_all<R: Wait>(rt: &R, mut jobs: Jobs) -> (QueuePass, Seen)
    ensures { result.0.queue ≡ jobs.queue }
{
    let mut seen = Seen { jobs: 0, strays: 0 };
    for _ in rt.forever() {
        let job = jobs.take(rt);
        if let Job::End = job {
            return (jobs.into_pass(), seen);
        }
        if !has_number(&job, seen.jobs) {
            seen.strays = seen.strays.saturating_add(1);
        }
        seen.jobs = seen.jobs.saturating_add(1);
    }
    unreachable!()
}

// One thread puts that many jobs and the end, the first of them before another thread begins to take.
fn give<R: Threads + Wait + Abort + Sync>(
    rt: &R,
    alloc: Global,
    first: u32,
    count: u32,
) -> Result<(), Fail> {
    let (mut sender, jobs) = queue(alloc)?;
    put_numbered(rt, alloc, &mut sender, 0, first);
    let (sender, (pass, seen)) = join(
        rt,
        || -> JobSender
            ensures { result.queue ≡ sender.queue }
        {
            put_numbered(rt, alloc, &mut sender, first, count);
            sender.put(rt, Job::End);
            sender
        },
        || -> (QueuePass, Seen)
            ensures { result.0.queue ≡ jobs.queue }
        { take_all(rt, jobs) },
    );
    sender.compare(pass);
    assert_eq!(rt; seen.jobs, count);
    assert_eq!(rt; seen.strays, 0);
    Ok(())
}

#[test]
fn a_thousand_jobs_are_taken_in_order(rt: HostRuntime) -> Result<(), Fail> {
    give(&rt, rt.alloc(), 0, 1000)
}

#[test]
fn a_put_into_a_full_queue_is_taken_later(rt: HostRuntime) -> Result<(), Fail> {
    give(&rt, rt.alloc(), 64, 65)
}
