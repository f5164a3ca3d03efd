//! A sink with a clock beside it.
ghost use Rattle.std.specs.Prelude.{◌≡◌};
ghost use Rattle.fz_io.specs.Paced.{paced_inner};

use crate::outside::{Failed, Sink};
use std::rt::Clock;
use std::time::{Duration, Instant};

/// How many milliseconds what was taken may wait until it is handed on.
const WAIT: u64 = 50;

/// Another sink, which is to hand on what it took whenever 50 milliseconds have passed since it last did. A clock that can't be
/// read lets nothing wait.
#[derive(Drop)]
pub struct PacedSink<C: Clock, S: Sink + Drop> {
    clock: C,
    inner: S,
    handed: Option<Instant>,
}

impl<C: Clock, S: Sink + Drop> PacedSink<C, S> {
    /// Nothing was handed on yet.
    pub fn new(clock: C, inner: S) -> PacedSink<C, S>
        ensures { paced_inner result ≡ inner }
    {
        PacedSink {
            clock,
            inner,
            handed: None,
        }
    }

    /// The other sink.
    pub fn inner(&self) -> &S
        ensures { result.now ≡ paced_inner self.now }
    {
        &self.inner
    }
}

impl<C: Clock, S: Sink + Drop> Sink for PacedSink<C, S> {
    ghost taken = { λ s. S.taken (paced_inner s) };

    ghost flushed = { λ s. S.flushed (paced_inner s) };

    ghost faults = { λ s. S.faults (paced_inner s) };

    ghost flushed_within = { λ s. S.flushed_within (paced_inner s) };

    fn write(&mut self, piece: &[u8]) -> Result<usize, Failed> {
        self.inner.write(piece)
    }

    fn flush(&mut self) -> Result<(), Failed> {
        self.inner.flush()
    }

    fn is_due(&self) -> bool {
        let Some(handed) = self.handed else {
            return true;
        };
        match handed.elapsed(&self.clock) {
            Ok(passed) => passed >= Duration::from_millis(WAIT),
            Err(_) => true,
        }
    }

    fn hand_on(&mut self) -> Result<(), Failed> {
        self.handed = match Instant::now(&self.clock) {
            Ok(now) => Some(now),
            Err(_) => None,
        };
        self.inner.hand_on()
    }
}
