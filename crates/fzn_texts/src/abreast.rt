//! A gate at which two workers are in their first steps at once, each in a tree of its own.
use fz_io::gate::{EventKind, Gate};
use std::sync::atomic::{AtomicBool, Ordering};
use std::thread;

/// A wait that takes that many turns is given up.
const TURNS: u32 = 10_000_000;

/// Worker 0 waits in its first step, with its path's lock in hand, for the first step of worker 1, which waits before it until
/// worker 0 is there.
#[derive(Drop)]
pub struct Abreast {
    first_stepped: AtomicBool,
    second_stepped: AtomicBool,
    missed: AtomicBool,
}

impl Abreast {
    pub fn new() -> Abreast {
        Abreast {
            first_stepped: AtomicBool::new(false),
            second_stepped: AtomicBool::new(false),
            missed: AtomicBool::new(false),
        }
    }

    /// Whether both made a step, and no wait was given up.
    pub fn have_met(&self) -> bool {
        let order = Ordering::SeqCst;
        self.first_stepped.load(order)
            && self.second_stepped.load(order)
            && !self.missed.load(order)
    }

    fn wait_for(&self, event: &AtomicBool) {
        for _ in 0..TURNS {
            if event.load(Ordering::SeqCst) {
                return;
            }
            thread::yield_now();
        }
        self.missed.store(true, Ordering::SeqCst);
    }
}

impl Gate for Abreast {
    fn before(&self, worker: u32, kind: EventKind) {
        if kind == EventKind::Step && worker == 1 {
            self.wait_for(&self.first_stepped);
        }
    }

    fn at(&self, worker: u32, kind: EventKind) {
        if kind != EventKind::Step {
            return;
        }
        if worker == 1 {
            self.second_stepped.store(true, Ordering::SeqCst);
        } else if !self.first_stepped.swap(true, Ordering::SeqCst) {
            self.wait_for(&self.second_stepped);
        }
    }
}
