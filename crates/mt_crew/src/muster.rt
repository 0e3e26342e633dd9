//! Whether all threads have begun.
//!
//! Where a thread can't be made, its work is done behind that of another one. What it would have to do beside the others is then never
//! begun, so whoever waits for it has to know.

use std::sync::Wait;
use std::sync::atomic::{AtomicU64, Ordering};
use std::thread::Parker;
use std::time::Duration;

// How often is looked whether all have begun, and how many ms lie between two looks: ten seconds in all.
const LOOKS: u32 = 10_000;

const PAUSE: u64 = 1;

/// How many threads have begun, of how many.
#[derive(Drop)]
pub(crate) struct Muster {
    begun: AtomicU64,
    all: u64,
}

impl Muster {
    /// Of so many threads none has begun.
    pub(crate) fn new(all: u64) -> Muster {
        Muster {
            begun: AtomicU64::new(0),
            all,
        }
    }

    /// One more has begun.
    pub(crate) fn arrive(&self) {
        self.begun.fetch_add(1, Ordering::SeqCst);
    }

    /// Waits until all have begun, for ten seconds at most. The answer is whether they have.
    pub(crate) fn is_whole<R: Wait>(&self, rt: &R) -> bool {
        let parker = Parker::new();
        for _ in 0..LOOKS {
            if self.begun.load(Ordering::SeqCst) == self.all {
                return true;
            }
            parker.park_timeout(rt, Duration::from_millis(PAUSE));
        }
        false
    }
}
