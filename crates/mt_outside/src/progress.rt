//! Who watches a long run.

/// Is told how far a run is. Nothing is promised of it: what a run writes is the same whoever watches.
pub trait Progress {
    /// So many events of all are done.
    fn done(&mut self, events: u32, all: u32);
}

/// Nobody watches.
#[derive(Drop)]
pub struct Unwatched;

impl Progress for Unwatched {
    fn done(&mut self, _events: u32, _all: u32) {}
}
