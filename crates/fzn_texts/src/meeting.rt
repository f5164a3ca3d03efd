//! A gate at which two workers meet: neither gets past it alone.
use fz_io::gate::{EventKind, Gate};
use std::sync::atomic::{AtomicBool, AtomicU32, Ordering};
use std::thread;

/// A wait that takes that many turns is given up.
const TURNS: u32 = 10_000_000;

/// No worker has made a step yet.
const NOBODY: u32 = 4_294_967_295;

/// The first is the worker that makes the first step, the second is the other. The first waits before its second step for the
/// second's start; the second waits before its first step until the first has made its second; and the first waits there, with its
/// path's lock in hand, for the second's first step.
#[derive(Drop)]
pub struct Meeting {
    first: AtomicU32,
    turned_to: AtomicU32,
    steps: AtomicU32,
    steps_of_first: AtomicU32,
    second_started: AtomicBool,
    first_stepped_twice: AtomicBool,
    second_stepped: AtomicBool,
    missed: AtomicBool,
}

impl Meeting {
    pub fn new() -> Meeting {
        Meeting {
            first: AtomicU32::new(NOBODY),
            turned_to: AtomicU32::new(0),
            steps: AtomicU32::new(0),
            steps_of_first: AtomicU32::new(0),
            second_started: AtomicBool::new(false),
            first_stepped_twice: AtomicBool::new(false),
            second_stepped: AtomicBool::new(false),
            missed: AtomicBool::new(false),
        }
    }

    /// How many steps were made.
    pub fn steps(&self) -> u32 {
        self.steps.load(Ordering::SeqCst)
    }

    /// Whether a wait was given up.
    pub fn is_missed(&self) -> bool {
        self.missed.load(Ordering::SeqCst)
    }

    /// Whether the worker is the first: who comes first is.
    fn is_first(&self, worker: u32) -> bool {
        let order = Ordering::SeqCst;
        match self.first.compare_exchange(NOBODY, worker, order, order) {
            Ok(_) => true,
            Err(first) => first == worker,
        }
    }

    fn wait_for(&self, event: &AtomicBool) {
        for _ in 0..TURNS {
            if event.load(Ordering::SeqCst) {
                return;
            }
            thread::yield_now();
        }
        self.missed.store(true, Ordering::SeqCst);
    }

    /// A step was made.
    fn step(&self, worker: u32) {
        self.steps.fetch_add(1, Ordering::SeqCst);
        if !self.is_first(worker) {
            self.second_stepped.store(true, Ordering::SeqCst);
            return;
        }
        if self.steps_of_first.fetch_add(1, Ordering::SeqCst) == 1 {
            self.first_stepped_twice.store(true, Ordering::SeqCst);
            self.wait_for(&self.second_stepped);
        }
    }
}

impl Gate for Meeting {
    fn before(&self, worker: u32, kind: EventKind) {
        if kind != EventKind::Step {
            return;
        }
        if !self.is_first(worker) {
            self.wait_for(&self.first_stepped_twice);
        } else if self.turned_to.fetch_add(1, Ordering::SeqCst) == 1 {
            self.wait_for(&self.second_started);
        }
    }

    fn at(&self, worker: u32, kind: EventKind) {
        match kind {
            EventKind::Step => self.step(worker),
            EventKind::Start => {
                let first = self.first.load(Ordering::SeqCst);
                if first != NOBODY && first != worker {
                    self.second_started.store(true, Ordering::SeqCst);
                }
            }
            _ => {}
        }
    }
}
