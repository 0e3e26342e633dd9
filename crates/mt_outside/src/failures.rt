//! Which calls of a form in memory are to fail, and how many have.

ghost use Rattle.std.specs.Prelude.{◌≡◌, ◌≤◌, ◌↔◌, IfOk, IsTrue, Contains};
ghost use Rattle.mt_outside.specs.Stream.{one_more};

use std::alloc::{AllocError, Global};

/// The numbers of the calls that are to fail, from 1, and the counts of calls and of faults.
#[derive(Drop)]
pub struct Failures {
    pub fail: Vec<u64>,
    pub calls: u64,
    pub faults: u64,
}

impl Failures {
    pub fn new(alloc: Global, fail: &[u64]) -> Result<Self, AllocError>
        ensures fail { IfOk result (λ failures. failures.fail.items ≡ fail.now) }
        ensures calls { IfOk result (λ failures. failures.calls ≡ 0) }
        ensures faults { IfOk result (λ failures. failures.faults ≡ 0) }
    {
        Ok(Failures {
            fail: Vec::from_slice(alloc, fail)?,
            calls: 0,
            faults: 0,
        })
    }

    /// Counts a call, and answers whether it is one of those that are to fail.
    pub fn next_fails(&mut self) -> bool
        ensures listed { IsTrue result ↔ Contains self.old.fail.items self.new.calls }
        ensures counted { self.new ≡ record self.old { calls = one_more self.old.calls } }
    {
        self.calls = self.calls.saturating_add(1);
        self.fail.contains(&self.calls)
    }

    pub fn count_fault(&mut self)
        ensures counted { self.new ≡ record self.old { faults = one_more self.old.faults } }
        ensures never_falls { self.old.faults ≤ self.new.faults }
    {
        self.faults = self.faults.saturating_add(1);
    }
}
