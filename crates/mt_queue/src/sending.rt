//! A new queue, and the end that puts jobs into it.

ghost use Rattle.std.specs.Prelude.{◌≡◌, ◌++◌, ◌∷◌, [], List, IfOk, IfErr, OnOk};
ghost use mathlib.Core.List.{IsPrefix};
ghost use Rattle.mt_queue.specs.Jobs.{HasNoEnd, IsEnded, IsWithinLimits};
ghost use Rattle.mt_queue.specs.declared.job.Job.{Job};
ghost use Rattle.mt_queue.specs.declared.job.Job.TheVariants.{End};

use crate::job::Job;
use crate::rule::{Compare, InOrder, Notes, Put, Roles};
use crate::taking::{Jobs, QueuePass};
use crossbeam_channel::{Pass, RuledSender, bounded_with};
use std::alloc::{AllocError, Global};
use std::marker::Model;
use std::sync::Wait;
use std::thread::Parker;
use std::time::Duration;

/// How many jobs a queue has room for.
pub const PLACES: usize = 64;

/// The end of a queue that puts jobs. Contracts see which queue it is of, and what it has put.
#[derive(Drop)]
pub struct JobSender {
    sender: RuledSender<Job, Notes, InOrder>,
    pass: Pass<Job, Notes>,
}

impl Model for JobSender {
    ghost use Rattle.mt_queue.specs.Ends.{Put};

    ghost Value = { Put };

    ghost use Rattle.crossbeam_channel.specs.Claims.{IsSeatAt};
    ghost use Rattle.crossbeam_channel.specs.Ends.{sends_on};
    ghost use Rattle.mt_queue.specs.Ends.{IsOfSender, put_by};

    ghost view = { λ it. put_by it.pass };

    ghost invariant = { λ it. IsSeatAt (sends_on it.sender) it.pass × IsOfSender it.pass };
}

/// The two ends of a new queue.
pub fn queue(alloc: Global) -> Result<(JobSender, Jobs), AllocError>
    ensures one_queue { IfOk result (λ ends. ends.0.queue ≡ ends.1.queue) }
    ensures empty { IfOk result (λ ends. (ends.0.put ≡ []) × (ends.1.taken ≡ [])) }
{
    let (sender, receiver, mut pass) = bounded_with::<Job, Notes, InOrder, Global>(alloc, PLACES)?;
    let other = sender.another::<Roles>(&mut pass);
    Ok((
        JobSender { sender, pass },
        Jobs {
            receiver,
            pass: other,
        },
    ))
}

impl JobSender {
    // Puts a job, or gives it back where the channel refuses it.
    fn try_put<R: Wait>(&mut self, rt: &R, job: Job) -> Result<(), Job>
        requires limits { IsWithinLimits job }
        ensures put { OnOk result (self.new ≡ record self.old { put = self.old.put ++ job ∷ [] }) }
        ensures refused { IfErr result (λ back. (back ≡ job) × (self.new ≡ self.old)) }
    {
        match self.sender.send_as::<Put, R>(rt, &mut self.pass, job) {
            Ok(()) => Ok(()),
            Err(refused) => Err(refused.into_inner()),
        }
    }

    /// Puts a job behind those that were put. It waits while the queue is full, and tries again where the
    /// channel refuses the job.
    pub fn put<R: Wait>(&mut self, rt: &R, job: Job)
        requires limits { IsWithinLimits job }
        ensures put { self.new ≡ record self.old { put = self.old.put ++ job ∷ [] } }
    {
        let mut left = job;
        for _ in rt.forever() {
            match self.try_put(rt, left) {
                Ok(()) => return,
                Err(back) => left = back,
            }
            pause(rt);
        }
        unreachable!()
    }

    /// Tells that what was taken is a prefix of what was put, in order. It does nothing else.
    pub fn compare(self, pass: QueuePass)
        requires own { pass.queue ≡ self.queue }
        ensures order { IsPrefix pass.taken self.put }
    {
        let JobSender {
            sender,
            pass: mut mine,
        } = self;
        sender.absorb::<Roles>(&mut mine, pass.pass);
        sender.learn_as::<Compare>(&mut mine);
    }

    /// Tells that what was taken is all that was put, where the end was taken and no other was put before
    /// it. It does nothing else.
    pub fn compare_ended(self, pass: QueuePass)
        requires own { pass.queue ≡ self.queue }
        requires ended { IsEnded pass.taken }
        ensures whole { (jobs : List Job) → self.put ≡ jobs ++ End ∷ [] → HasNoEnd jobs → pass.taken ≡ self.put }
    {
        self.compare(pass);
    }
}

/// Sleeps for a moment, so that an end whose other end is gone keeps no processor busy.
pub(crate) fn pause<R: Wait>(rt: &R) {
    Parker::new().park_timeout(rt, Duration::from_millis(1));
}
