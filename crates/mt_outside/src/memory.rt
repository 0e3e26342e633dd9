//! A source and a sink in memory, some of whose calls fail: for tests, and for output that is to be
//! compared.

ghost use Rattle.std.specs.Prelude.{◌≡◌, ◌≤◌, ◌<◌, ◌↔◌, [], ◌++◌, Some, length, min, take, drop, IfOk, OnErr, IsErr, Contains};
ghost use Rattle.mt_outside.specs.Stream.{Gave, HasCause, Took, one_more};

use crate::failures::Failures;
use crate::stream::{Failed, Sink, Source};
use std::alloc::{AllocError, Global};
use std::marker::Model;

/// A source of bytes in memory. A contract sees what is left, the numbers of the calls that are to
/// fail, and how many calls and faults there were.
pub struct MemSource {
    contents: Vec<u8>,
    at: usize,
    failures: Failures,
}

impl Drop for MemSource {
    fn drop(self) {
        let MemSource {
            contents: _,
            at: _,
            failures: _,
        } = self;
    }
}

impl Model for MemSource {
    ghost use Rattle.std.specs.Prelude.{◌≤◌, drop, vec_len};
    ghost use Rattle.mt_outside.specs.Memory.{SourceState};

    ghost Value = { SourceState };

    ghost view = { λ s. record {
      left = drop s.at s.contents.items;
      fail = s.failures.fail.items;
      calls = s.failures.calls;
      faults = s.failures.faults;
    } };

    ghost invariant = { λ s. s.at ≤ vec_len s.contents };
}

impl MemSource {
    /// A source of these bytes, whose calls of the numbers in `fail` fail, counted from 1.
    pub fn new(alloc: Global, contents: &[u8], fail: &[u64]) -> Result<Self, AllocError>
        ensures left { IfOk result (λ source. source.left ≡ contents.now) }
        ensures fail { IfOk result (λ source. source.fail ≡ fail.now) }
        ensures calls { IfOk result (λ source. source.calls ≡ 0) }
        ensures faults { IfOk result (λ source. source.faults ≡ 0) }
    {
        Ok(MemSource {
            contents: Vec::from_slice(alloc, contents)?,
            at: 0,
            failures: Failures::new(alloc, fail)?,
        })
    }
}

impl Source for MemSource {
    ghost left = { λ s. Some s.left };

    ghost faults = { λ s. s.faults };

    fn read(&mut self, into: &mut [u8]) -> Result<usize, Failed>
        ensures within { IfOk result (λ count. count ≤ length into.old) }
        ensures gave { IfOk result (λ count.
            Gave (Some self.old.left) (Some self.new.left) (take count into.new)) }
        ensures end { IfOk result (λ count.
            count ≡ 0 → 0 < length into.old → self.old.left ≡ []) }
        ensures kept { OnErr result (self.new.left ≡ self.old.left) }
        ensures cause { HasCause self.old.faults self.new.faults result }

        // It gives as much as there is room for, and leaves the rest of `into` alone.
        ensures count { IfOk result (λ count.
            count ≡ min (length self.old.left) (length into.old)) }
        ensures rest { IfOk result (λ count. self.new.left ≡ drop count self.old.left) }
        ensures filled { IfOk result (λ count.
            into.new ≡ take count self.old.left ++ drop count into.old) }
        ensures untouched { OnErr result (into.new ≡ into.old) }

        // The calls of the listed numbers fail, and no others.
        ensures listed { IsErr result ↔ Contains self.old.fail self.new.calls }
        ensures calls { self.new.calls ≡ one_more self.old.calls }
        ensures fail { self.new.fail ≡ self.old.fail }
    {
        if self.failures.next_fails() {
            self.failures.count_fault();
            return Err(Failed);
        }
        let left = &self.contents[self.at..];
        let count = left.len().min(into.len());
        into[..count].copy_from_slice(&left[..count]);
        self.at += count;
        Ok(count)
    }
}

/// A sink that keeps its bytes in memory. A contract sees what was written, the numbers of the calls
/// that are to fail, and how many calls and faults there were.
pub struct MemSink {
    bytes: Vec<u8>,
    failures: Failures,
}

impl Drop for MemSink {
    fn drop(self) {
        let MemSink {
            bytes: _,
            failures: _,
        } = self;
    }
}

impl Model for MemSink {
    ghost use Rattle.mt_outside.specs.Memory.{SinkState};

    ghost Value = { SinkState };

    ghost view = { λ s. record {
      written = s.bytes.items;
      fail = s.failures.fail.items;
      calls = s.failures.calls;
      faults = s.failures.faults;
    } };
}

impl MemSink {
    /// An empty sink, whose calls of the numbers in `fail` fail, counted from 1.
    pub fn new(alloc: Global, fail: &[u64]) -> Result<Self, AllocError>
        ensures written { IfOk result (λ sink. sink.written ≡ []) }
        ensures fail { IfOk result (λ sink. sink.fail ≡ fail.now) }
        ensures calls { IfOk result (λ sink. sink.calls ≡ 0) }
        ensures faults { IfOk result (λ sink. sink.faults ≡ 0) }
    {
        Ok(MemSink {
            bytes: Vec::new(alloc),
            failures: Failures::new(alloc, fail)?,
        })
    }

    /// What was written so far.
    pub fn bytes(&self) -> &[u8]
        ensures { result.now ≡ self.now.written }
    {
        self.bytes.as_slice()
    }
}

impl Sink for MemSink {
    ghost written = { λ s. Some s.written };

    ghost faults = { λ s. s.faults };

    /// A call that is not listed fails too where no memory is left for the piece.
    fn write(&mut self, from: &[u8]) -> Result<usize, Failed>
        ensures within { IfOk result (λ count. count ≤ length from.now) }
        ensures some { IfOk result (λ count. 0 < length from.now → 0 < count) }
        ensures took { IfOk result (λ count.
            Took (Some self.old.written) (Some self.new.written) (take count from.now)) }
        ensures kept { OnErr result (self.new.written ≡ self.old.written) }
        ensures cause { HasCause self.old.faults self.new.faults result }

        // It takes the whole piece.
        ensures count { IfOk result (λ count. count ≡ length from.now) }

        // The calls of the listed numbers fail.
        ensures listed { Contains self.old.fail self.new.calls → IsErr result }
        ensures calls { self.new.calls ≡ one_more self.old.calls }
        ensures fail { self.new.fail ≡ self.old.fail }
    {
        if self.failures.next_fails() || self.bytes.extend_from_slice(from).is_err() {
            self.failures.count_fault();
            return Err(Failed);
        }
        Ok(from.len())
    }
}
