//! A gate at which one worker begins to step only once the other has found something, so that it learns that.
use fz_io::gate::{EventKind, Gate};
use std::sync::atomic::{AtomicBool, AtomicU32, Ordering};
use std::thread;

/// A wait that takes that many turns is given up.
const TURNS: u32 = 10_000_000;

/// No worker has come to a step yet.
const NOBODY: u32 = 4_294_967_295;

/// The first is the worker that comes to a step first, the second is the other. The first waits before its second step for the
/// second's start; the second waits before its first step until the first comes to a report.
#[derive(Drop)]
pub struct Learning {
    first: AtomicU32,
    steps_of_first: AtomicU32,
    second_started: AtomicBool,
    first_reports: AtomicBool,
    second_learned: AtomicBool,
    missed: AtomicBool,
}

impl Learning {
    pub fn new() -> Learning {
        Learning {
            first: AtomicU32::new(NOBODY),
            steps_of_first: AtomicU32::new(0),
            second_started: AtomicBool::new(false),
            first_reports: AtomicBool::new(false),
            second_learned: AtomicBool::new(false),
            missed: AtomicBool::new(false),
        }
    }

    /// Whether the second learned something, and no wait was given up.
    pub fn has_learned(&self) -> bool {
        self.second_learned.load(Ordering::SeqCst) && !self.missed.load(Ordering::SeqCst)
    }

    /// Whether the worker is the first: who comes first is.
    fn is_first(&self, worker: u32) -> bool {
        let order = Ordering::SeqCst;
        match self.first.compare_exchange(NOBODY, worker, order, order) {
            Ok(_) => true,
            Err(first) => first == worker,
        }
    }

    /// Whether there is a first, and it is another worker.
    fn is_second(&self, worker: u32) -> bool {
        let first = self.first.load(Ordering::SeqCst);
        first != NOBODY && first != worker
    }

    fn wait_for(&self, event: &AtomicBool) {
        for _ in 0..TURNS {
            if event.load(Ordering::SeqCst) {
                return;
            }
            thread::yield_now();
        }
        self.missed.store(true, Ordering::SeqCst);
    }
}

impl Gate for Learning {
    fn before(&self, worker: u32, kind: EventKind) {
        match kind {
            EventKind::Step => {
                if !self.is_first(worker) {
                    self.wait_for(&self.first_reports);
                } else if self.steps_of_first.fetch_add(1, Ordering::SeqCst) == 1 {
                    self.wait_for(&self.second_started);
                }
            }
            EventKind::Report if !self.is_second(worker) => {
                self.first_reports.store(true, Ordering::SeqCst);
            }
            _ => {}
        }
    }

    fn at(&self, worker: u32, kind: EventKind) {
        if !self.is_second(worker) {
            return;
        }
        match kind {
            EventKind::Start => self.second_started.store(true, Ordering::SeqCst),
            EventKind::Learn => self.second_learned.store(true, Ordering::SeqCst),
            _ => {}
        }
    }
}
