//! Queues of propagators.
ghost use Rattle.std.specs.Prelude.{◌≡◌, ℕ, ◌≤◌, List, [], ◌∷◌, ◌++◌, drop, length, IfOk, OnOk, OnErr, MatchOption};

use std::alloc::{AllocError, Global};
use std::marker::Model;

/// How many are gone before those that are left move to the front.
const MANY: usize = 256;

/// The numbers of propagators, first in first out.
#[derive(Drop)]
pub struct Queue {
    /// Those that are queued, from `head` on.
    places: Vec<u32>,
    head: usize,
}

impl Model for Queue {
    ghost use Rattle.std.specs.Prelude.{List, ℕ, ◌≤◌, drop, length};

    ghost Value = { List ℕ };

    ghost view = { λ q. drop q.head q.places.items };

    ghost invariant = { λ q. q.head ≤ length q.places.items };
}

impl Queue {
    /// An empty queue. It takes no memory.
    pub fn new(alloc: Global) -> Queue
        ensures { result ≡ [] }
    {
        Queue {
            places: Vec::new(alloc),
            head: 0,
        }
    }

    /// The first.
    #[inline(always)]
    pub fn first(&self) -> Option<u32>
        ensures { MatchOption result (self.now ≡ [])
            (λ i. (rest : List ℕ) × (self.now ≡ i ∷ rest)) }
    {
        if self.head < self.places.len() {
            Some(self.places[self.head])
        } else {
            None
        }
    }

    /// The first leaves.
    #[inline(always)]
    pub fn pop(&mut self)
        ensures { (i : ℕ) (rest : List ℕ) → self.old ≡ i ∷ rest → self.new ≡ rest }
    {
        if self.head >= self.places.len() {
            return;
        }
        self.head += 1;
        self.close_up();
    }

    /// Those that are gone leave the list, once none is left or they are many.
    #[inline(always)]
    fn close_up(&mut self)
        ensures { self.new ≡ self.old }
    {
        if self.head == self.places.len() {
            self.clear();
            return;
        }
        if self.head >= MANY {
            self.move_up();
        }
    }

    /// Those that are left move to the front of the list, where they are no more than those that are gone.
    #[inline(never)]
    fn move_up(&mut self)
        ensures { self.new ≡ self.old }
    {
        let left = self.places.len() - self.head;
        if self.head < left {
            return;
        }
        self.places.rotate_left(self.head);
        self.places.truncate(left);
        self.head = 0;
    }

    /// One more comes in at the end.
    ///
    /// # Errors
    /// `AllocError` where there is no memory; the queue is then as it was.
    #[inline(always)]
    pub fn push(&mut self, place: u32) -> Result<(), AllocError>
        ensures ok { OnOk result (self.new ≡ self.old ++ place ∷ []) }
        ensures err { OnErr result (self.new ≡ self.old) }
    {
        match self.places.push(place) {
            Ok(()) => Ok(()),
            Err(_) => Err(AllocError),
        }
    }

    /// Another queue of the same.
    ///
    /// # Errors
    /// `AllocError` where there is no memory.
    pub fn copy(&self, alloc: Global) -> Result<Queue, AllocError>
        ensures { IfOk result (λ q. q ≡ self.now) }
    {
        Ok(Queue {
            places: Vec::from_slice(alloc, &self.places[self.head..])?,
            head: 0,
        })
    }

    /// Becomes the same as another, and keeps its room.
    ///
    /// # Errors
    /// `AllocError` where there is no memory.
    pub fn copy_from(&mut self, other: &Queue) -> Result<(), AllocError>
        ensures { OnOk result (self.new ≡ other.now) }
    {
        self.clear();
        if other.head < other.places.len() {
            self.places.extend_from_slice(&other.places[other.head..])?;
        }
        Ok(())
    }

    /// All leave.
    pub fn clear(&mut self)
        ensures { self.new ≡ [] }
    {
        self.places.clear();
        self.head = 0;
    }
}
