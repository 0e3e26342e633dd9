//! A sink in memory that takes little at a time.

ghost use Rattle.std.specs.Prelude.{Some};

use mt_outside::{Failed, MemSink, Sink};

/// It takes at most so many bytes a call, and one at least.
pub(crate) struct NarrowSink {
    pub(crate) inner: MemSink,
    pub(crate) most: usize,
}

impl Drop for NarrowSink {
    fn drop(self) {
        let NarrowSink { inner: _, most: _ } = self;
    }
}

impl Sink for NarrowSink {
    ghost written = { λ s. Some s.inner.written };

    ghost faults = { λ s. s.inner.faults };

    fn write(&mut self, from: &[u8]) -> Result<usize, Failed> {
        let count = from.len().min(self.most.max(1));
        self.inner.write(&from[..count])
    }
}
