//! What the workers share.
ghost use Rattle.std.specs.Prelude.{◌≤◌, ◌<◌, length};

use crate::own::{OwnBook, OwnPath};
use crossbeam_utils::CachePadded;
use fz_bound::Bound;
use fz_collect::{Outbox, Subject};
use fz_io::gate::Gate;
use fz_search_space::SearchSpace;
use std::sync::Mutex;
use std::sync::atomic::{AtomicBool, AtomicU64};

/// A book that workers search, and how many it had recorded when it took an account last.
#[derive(Drop)]
pub struct Asset<T: Subject> {
    pub book: Mutex<OwnBook<T>>,
    pub recorded: AtomicU64,
}

/// What the workers share: a path for each behind a lock of its own, the books behind others, and the bound word. Where there are K
/// books, worker w serves number w mod K. Locks are taken in the order path, then book, and nobody holds two paths or two books.
#[derive(Drop)]
pub struct Crew<'a, S: SearchSpace, G: Gate, T: Subject> {
    pub paths: &'a [CachePadded<Mutex<OwnPath<S, T>>>],
    pub assets: &'a [Asset<T>],
    pub bound: &'a Bound,
    /// Whether workers are to stop.
    pub stop: &'a AtomicBool,
    pub gate: &'a G,
    /// Where what a book takes is told, too.
    pub outbox: &'a Outbox<T>,
    pub enough: Option<u32>,
    ghost several: { 1 ≤ length assets.now },
}

impl<S: SearchSpace, G: Gate, T: Subject> Crew<'_, S, G, T> {
    /// The number of the book that a worker serves.
    pub fn number_of(&self, worker: usize) -> usize
        ensures { result < length self.now.assets.now }
    {
        worker % self.assets.len()
    }

    /// The book that a worker serves.
    pub fn asset_of(&self, worker: u32) -> &Asset<T> {
        &self.assets[self.number_of(worker as usize)]
    }
}
