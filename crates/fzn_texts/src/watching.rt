//! A sink that shows whether it has taken anything, and a gate at which workers wait for that.
ghost use Rattle.std.specs.Prelude.{◌≡◌};

use fz_io::gate::{EventKind, Gate};
use fz_io::outside::{Failed, Sink};
use std::sync::atomic::{AtomicBool, Ordering};
use std::thread;

/// A wait that takes that many turns is given up.
const TURNS: u32 = 10_000_000;

/// Another sink, which shows that it has taken something.
#[derive(Drop)]
pub struct ShowingSink<'a, S: Sink + Drop> {
    inner: S,
    has_taken: &'a AtomicBool,
}

impl<'a, S: Sink + Drop> ShowingSink<'a, S> {
    pub fn new(inner: S, has_taken: &'a AtomicBool) -> ShowingSink<'a, S>
        ensures { result.inner ≡ inner }
    {
        ShowingSink { inner, has_taken }
    }

    /// The other sink.
    pub fn inner(&self) -> &S {
        &self.inner
    }
}

impl<S: Sink + Drop> Sink for ShowingSink<'_, S> {
    ghost taken = { λ s. S.taken s.inner };

    ghost flushed = { λ s. S.flushed s.inner };

    ghost faults = { λ s. S.faults s.inner };

    ghost flushed_within = { λ s. S.flushed_within s.inner };

    fn write(&mut self, piece: &[u8]) -> Result<usize, Failed> {
        self.has_taken.store(true, Ordering::SeqCst);
        self.inner.write(piece)
    }

    fn flush(&mut self) -> Result<(), Failed> {
        self.inner.flush()
    }

    fn hand_on(&mut self) -> Result<(), Failed> {
        self.inner.hand_on()
    }
}

/// Each of two workers waits after its first report until a sink has taken something.
#[derive(Drop)]
pub struct Watching<'a> {
    has_taken: &'a AtomicBool,
    first_reported: AtomicBool,
    second_reported: AtomicBool,
    waited: AtomicBool,
    missed: AtomicBool,
}

impl<'a> Watching<'a> {
    pub fn new(has_taken: &'a AtomicBool) -> Watching<'a> {
        Watching {
            has_taken,
            first_reported: AtomicBool::new(false),
            second_reported: AtomicBool::new(false),
            waited: AtomicBool::new(false),
            missed: AtomicBool::new(false),
        }
    }

    /// Whether a worker came to the wait.
    pub fn has_waited(&self) -> bool {
        self.waited.load(Ordering::SeqCst)
    }

    /// Whether a wait was given up.
    pub fn is_missed(&self) -> bool {
        self.missed.load(Ordering::SeqCst)
    }

    fn reported(&self, worker: u32) -> &AtomicBool {
        if worker == 0 {
            &self.first_reported
        } else {
            &self.second_reported
        }
    }
}

impl Gate for Watching<'_> {
    fn before(&self, worker: u32, _kind: EventKind) {
        if !self.reported(worker).load(Ordering::SeqCst) {
            return;
        }
        self.waited.store(true, Ordering::SeqCst);
        for _ in 0..TURNS {
            if self.has_taken.load(Ordering::SeqCst) {
                return;
            }
            thread::yield_now();
        }
        self.missed.store(true, Ordering::SeqCst);
    }

    fn at(&self, worker: u32, kind: EventKind) {
        if kind == EventKind::Report {
            self.reported(worker).store(true, Ordering::SeqCst);
        }
    }
}
