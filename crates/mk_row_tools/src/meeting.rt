//! How rows make sure that two workers work at once.

use std::sync::atomic::{AtomicBool, AtomicU64, Ordering};
use std::thread;

/// So many times a worker that is held looks whether another has come.
const LOOKS: u32 = 1_000_000;

/// Workers meet here, each before a reduction: the first of the worker that comes first is held until another has come to so many.
#[derive(Debug, Drop)]
pub struct Meeting {
    until: u64,
    /// The number of the first worker and one, or 0.
    first: AtomicU64,
    met: AtomicBool,
    passed: AtomicU64,
}

impl Meeting {
    /// A meeting where the first worker waits until another comes to its reduction of this number, counted from 1.
    pub fn new(until: u64) -> Meeting {
        Meeting {
            until,
            first: AtomicU64::new(0),
            met: AtomicBool::new(false),
            passed: AtomicU64::new(0),
        }
    }

    /// A worker comes to its reduction of this number. It waits for so many looks at most.
    pub fn reach(&self, worker: u32, count: u64) {
        self.passed.fetch_add(1, Ordering::SeqCst);
        let own = u64::from(worker) + 1;
        match self
            .first
            .compare_exchange(0, own, Ordering::SeqCst, Ordering::SeqCst)
        {
            Ok(_) => self.hold(),
            Err(first) if first == own => {}
            Err(_) => {
                if count >= self.until {
                    self.met.store(true, Ordering::SeqCst);
                }
            }
        }
    }

    fn hold(&self) {
        for _ in 0..LOOKS {
            if self.met.load(Ordering::SeqCst) {
                return;
            }
            thread::yield_now();
        }
    }

    /// Has another worker come to so many reductions?
    pub fn is_met(&self) -> bool {
        self.met.load(Ordering::SeqCst)
    }

    /// How many reductions workers have come to.
    pub fn passed(&self) -> u64 {
        self.passed.load(Ordering::SeqCst)
    }
}
