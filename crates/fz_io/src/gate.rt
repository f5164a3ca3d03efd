//! Who watches the events of the workers.

/// What a worker does at one moment.
#[derive(Debug, Clone, Copy, PartialEq, Eq)]
pub enum EventKind {
    /// Takes a piece of the search.
    Claim,
    /// Begins the piece that it took.
    Start,
    /// Goes on by one step of the search.
    Step,
    /// Hands in an account of a piece: what was found in it, and what is left of it.
    Report,
    /// Takes a part of the piece that another worker has.
    Steal,
    /// Takes in a better solution that another worker found.
    Learn,
    /// Hands the best solution that its search knows to another search of the same model.
    Share,
}

/// Sees each event of each worker, and may hold a worker up. Workers share it, so both methods take `&self`.
pub trait Gate {
    /// Called by the worker that acts, without any lock, just before it takes the lock of an event.
    fn before(&self, worker: u32, kind: EventKind);

    /// Called once for each event, inside its critical section, after the event itself.
    fn at(&self, worker: u32, kind: EventKind);
}

/// The gate that does nothing.
#[derive(Debug, Clone, Copy)]
pub struct NoGate;

impl Gate for NoGate {
    fn before(&self, _worker: u32, _kind: EventKind) {}

    fn at(&self, _worker: u32, _kind: EventKind) {}
}
