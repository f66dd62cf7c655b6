//! A gate at which two workers meet.

use std::sync::atomic::{AtomicBool, Ordering};
use std::thread;
use txn_gate::Gate;

/// The most looks of a wait.
const LOOKS: u32 = 10_000_000;

/// A gate that holds each of two workers at its second turn until the other has passed its first.
/// The first worker has the number `first`.
pub(crate) struct Meeting {
    first: u32,
    passed: [AtomicBool; 2],
    missed: AtomicBool,
}

impl Meeting {
    pub(crate) fn new(first: u32) -> Meeting {
        Meeting {
            first,
            passed: [AtomicBool::new(false), AtomicBool::new(false)],
            missed: AtomicBool::new(false),
        }
    }

    /// Whether a wait ended without the other.
    pub(crate) fn was_missed(&self) -> bool {
        self.missed.load(Ordering::SeqCst)
    }

    /// Looks until the other has passed. A wait that ends without it is noted.
    fn wait_for(&self, other: &AtomicBool) {
        for _ in 0..LOOKS {
            if other.load(Ordering::SeqCst) {
                return;
            }
            thread::yield_now();
        }
        self.missed.store(true, Ordering::SeqCst);
    }
}

impl Gate for Meeting {
    fn pass(&self, worker: u32, turn: u32) {
        let (mine, other) = if worker == self.first {
            (&self.passed[0], &self.passed[1])
        } else {
            (&self.passed[1], &self.passed[0])
        };
        if turn == 1 {
            mine.store(true, Ordering::SeqCst);
        } else {
            self.wait_for(other);
        }
    }
}
