//! What the passes of a queue know, and the rule that each step keeps. Nothing of it is there at run time.

use crate::job::Job;
use crossbeam_channel::protocol::{Join, Lesson, Outcome, Protocol, Split};
use std::collections::LinkedList;

/// What a pass may do, and what it has put and taken. No value of it is made.
pub struct Notes {
    pub puts: bool,
    pub takes: bool,
    pub put: LinkedList<Job>,
    pub taken: LinkedList<Job>,
}

/// The rule.
pub struct InOrder;

impl Protocol<Job, Notes> for InOrder {
    ghost use Rattle.std.specs.Prelude.{true, []};
    ghost use Rattle.mt_queue.specs.Rule.{IsKept, notes};

    ghost holds = { IsKept };

    ghost first = { notes true true [] [] };
}

/// Parts the pass of a sender from that of a taker, and puts them together again.
pub struct Roles;

impl Split<Notes> for Roles {
    ghost use Rattle.std.specs.Prelude.{true, false, []};
    ghost use Rattle.mt_queue.specs.Rule.{notes};

    ghost left = { λ v. notes true false v.put [] };

    ghost right = { λ v. notes false true [] v.taken };
}

impl Join<Notes> for Roles {
    ghost use Rattle.std.specs.Prelude.{true, false, []};
    ghost use Rattle.mt_queue.specs.Rule.{notes};

    ghost both = { λ v w. notes true true v.put w.taken };

    ghost spent = { notes false false [] [] };
}

/// Puts a job at the back.
pub struct Put;

impl Outcome<Job, Notes> for Put {
    ghost use Rattle.mt_queue.specs.Rule.{Puts};

    ghost then = { Puts };
}

impl Lesson<Job, Notes> for Put {
    ghost use Rattle.std.specs.Prelude.{⊤};

    ghost fact = { λ _ _. ⊤ };
}

/// Takes the job at the front.
pub struct Take;

impl Outcome<Job, Notes> for Take {
    ghost use Rattle.mt_queue.specs.Rule.{Takes};

    ghost then = { Takes };
}

impl Lesson<Job, Notes> for Take {
    ghost use Rattle.std.specs.Prelude.{⊤};

    ghost fact = { λ _ _. ⊤ };
}

/// Compares what was put with what was taken, for a pass that knows both.
pub struct Compare;

impl Lesson<Job, Notes> for Compare {
    ghost use Rattle.std.specs.Prelude.{◌≡◌, ◌++◌};

    ghost fact = { λ v items. v.put ≡ v.taken ++ items };
}
