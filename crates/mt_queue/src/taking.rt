//! The end of a queue that takes jobs, and the pass that it leaves.

ghost use Rattle.std.specs.Prelude.{◌≡◌, ◌++◌, ◌∷◌, [], IfSome, IfNone};
ghost use Rattle.mt_queue.specs.Jobs.{IsWithinLimits};

use crate::job::Job;
use crate::rule::{InOrder, Notes, Take};
use crate::sending::pause;
use crossbeam_channel::{Pass, RuledReceiver};
use std::marker::Model;
use std::sync::Wait;

/// What was taken from a queue, to be compared with what was put. It takes no bytes and may go to another
/// thread. Contracts see which queue it is of, and what was taken.
#[derive(Drop)]
pub struct QueuePass {
    pub(crate) pass: Pass<Job, Notes>,
}

impl Model for QueuePass {
    ghost use Rattle.mt_queue.specs.Ends.{Taken};

    ghost Value = { Taken };

    ghost use Rattle.mt_queue.specs.Ends.{IsOfTaker, taken_by};

    ghost view = { λ it. taken_by it.pass };

    ghost invariant = { λ it. IsOfTaker it.pass };
}

/// The end of a queue that takes jobs. Contracts see which queue it is of, and what it has taken.
#[derive(Drop)]
pub struct Jobs {
    pub(crate) receiver: RuledReceiver<Job, Notes, InOrder>,
    pub(crate) pass: Pass<Job, Notes>,
}

impl Model for Jobs {
    ghost use Rattle.mt_queue.specs.Ends.{Taken};

    ghost Value = { Taken };

    ghost use Rattle.crossbeam_channel.specs.Claims.{IsSeatAt};
    ghost use Rattle.crossbeam_channel.specs.Ends.{receives_on};
    ghost use Rattle.mt_queue.specs.Ends.{IsOfTaker, taken_by};

    ghost view = { λ it. taken_by it.pass };

    ghost invariant = { λ it. IsSeatAt (receives_on it.receiver) it.pass × IsOfTaker it.pass };
}

impl Jobs {
    // Takes the next job, or none where the channel refuses one.
    fn try_take<R: Wait>(&mut self, rt: &R) -> Option<Job>
        ensures taken { IfSome result (λ job. self.new ≡ record self.old { taken = self.old.taken ++ job ∷ [] }) }
        ensures limits { IfSome result IsWithinLimits }
        ensures refused { IfNone result (self.new ≡ self.old) }
    {
        self.receiver.recv_as::<Take, R>(rt, &mut self.pass).ok()
    }

    /// Takes the next job. It waits while there is none, and tries again where the channel refuses one.
    pub fn take<R: Wait>(&mut self, rt: &R) -> Job
        ensures taken { self.new ≡ record self.old { taken = self.old.taken ++ result ∷ [] } }
        ensures limits { IsWithinLimits result }
    {
        for _ in rt.forever() {
            if let Some(job) = self.try_take(rt) {
                return job;
            }
            pause(rt);
        }
        unreachable!()
    }

    /// What was taken, for the sender.
    pub fn into_pass(self) -> QueuePass
        ensures same { result ≡ self }
    {
        let Jobs { receiver: _, pass } = self;
        QueuePass { pass }
    }
}
