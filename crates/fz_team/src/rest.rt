//! How a worker waits while there is nothing for it to do.
use crossbeam_utils::Backoff;
use std::sync::Wait;
use std::thread::Parker;
use std::time::Duration;

/// The first sleep has this many microseconds.
const FIRST_SLEEP: u64 = 32;

/// A sleep is doubled so often at most: to about four milliseconds.
const DOUBLINGS: u32 = 7;

/// A worker's waiting: it spins, then it yields, then it sleeps, each time twice as long as before up to a limit.
#[derive(Drop)]
pub struct Rest {
    backoff: Backoff,
    parker: Parker,
    sleeps: u32,
}

impl Rest {
    /// Nothing was waited for yet.
    pub fn new() -> Rest {
        Rest {
            backoff: Backoff::new(),
            parker: Parker::new(),
            sleeps: 0,
        }
    }

    /// Waits a little, longer than the time before.
    pub fn wait<R: Wait>(&mut self, rt: &R) {
        if !self.backoff.is_completed() {
            self.backoff.snooze();
            return;
        }
        let sleep = Duration::from_micros(FIRST_SLEEP << self.sleeps.min(DOUBLINGS));
        self.sleeps = self.sleeps.saturating_add(1);
        self.parker.park_timeout(rt, sleep);
    }

    /// Begins anew, since something was gained.
    pub fn reset(&mut self) {
        self.backoff.reset();
        self.sleeps = 0;
    }
}
