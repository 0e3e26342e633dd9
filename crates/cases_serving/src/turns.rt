//! A gate that lets threads act one after the other, in a given order.

use mt_outside::{Gate, Point};
use std::sync::atomic::{AtomicU64, Ordering};
use std::thread;
use std::time::{Clock, Duration};

// How often a thread looks whether it is its turn, a millisecond apart, before it acts all the same.
const LOOKS: u32 = 10_000;

/// Before a thread acts it is held until the threads whose turns come before have passed behind their acts. Behind the last turn nobody
/// is held.
#[derive(Drop)]
pub(crate) struct Turns<'a, R> {
    clock: &'a R,
    order: &'a [u64],
    // how often threads have passed behind their acts
    passed: AtomicU64,
    // how many threads have acted though it was not their turn
    late: AtomicU64,
}

impl<'a, R: Clock> Turns<'a, R> {
    /// Turns in this order, of the threads' numbers.
    pub(crate) fn new(clock: &'a R, order: &'a [u64]) -> Turns<'a, R> {
        Turns {
            clock,
            order,
            passed: AtomicU64::new(0),
            late: AtomicU64::new(0),
        }
    }

    /// Whether there is an order.
    pub(crate) fn are_given(&self) -> bool {
        !self.order.is_empty()
    }

    /// Whether a thread was held up to the limit.
    pub(crate) fn came_to_limit(&self) -> bool {
        self.late.load(Ordering::SeqCst) != 0
    }

    // Holds this thread until it is its turn.
    fn hold(&self, thread: u64) {
        for _ in 0..LOOKS {
            if self.is_turn_of(thread) {
                return;
            }
            thread::sleep(self.clock, Duration::from_millis(1));
        }
        self.late.fetch_add(1, Ordering::SeqCst);
    }

    fn is_turn_of(&self, thread: u64) -> bool {
        match self.order.get(self.passed.load(Ordering::SeqCst) as usize) {
            Some(next) => *next == thread,
            None => true,
        }
    }
}

impl<R: Clock> Gate for Turns<'_, R> {
    fn pass(&self, worker: u32, point: Point) {
        match point {
            Point::BeforeAct => self.hold(u64::from(worker)),
            Point::AfterAct => {
                self.passed.fetch_add(1, Ordering::SeqCst);
            }
        }
    }
}
