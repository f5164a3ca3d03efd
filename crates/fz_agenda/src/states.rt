//! Whether propagators are idle, queued or gone, by two bits of each.
ghost use Rattle.std.specs.Prelude.{◌≡◌, ◌<◌, ◌+◌, ◌*◌, ◌↔◌, ℕ, length, slice_index, slice_set, replicate, IfOk, IsTrue};
ghost use Rattle.std.specs.Int.{bit_at};

use fz_bits::BitSet;
use fz_bits::word::without;
use std::alloc::{AllocError, Global};
use std::marker::Model;

/// The state of each propagator: 0 idle, 1 queued, 2 gone.
#[derive(Drop)]
pub struct States {
    alive: BitSet,
    queued: BitSet,
    count: usize,
}

impl Model for States {
    ghost use Rattle.std.specs.Prelude.{List, ℕ};
    ghost use Rattle.fz_agenda.specs.Bits.{states_of, HaveWords};

    ghost Value = { List ℕ };

    ghost view = { λ s. states_of s.alive s.queued s.count };

    ghost invariant = { λ s. HaveWords s.alive s.queued s.count };
}

impl States {
    /// That many propagators, each of them idle.
    ///
    /// # Errors
    /// `AllocError` where there is no memory.
    pub fn new(alloc: Global, count: usize) -> Result<States, AllocError>
        ensures { IfOk result (λ s. s ≡ replicate count 0) }
    {
        let alive = BitSet::all(alloc, count)?;
        let queued = BitSet::none(alloc, count)?;
        Ok(States {
            alive,
            queued,
            count,
        })
    }

    /// How many propagators there are.
    pub fn len(&self) -> usize
        ensures { result ≡ length self.now }
    {
        self.count
    }

    /// Whether a propagator is there and idle.
    pub fn is_idle(&self, place: usize) -> bool
        ensures { IsTrue result
            ↔ ((place < length self.now) × (slice_index self.now place ≡ 0)) }
    {
        if place >= self.count {
            return false;
        }
        self.alive.has(place) && !self.queued.has(place)
    }

    /// Those of a word that are idle; what bits beyond the last propagator say is not known.
    pub fn idle_in(&self, word: usize) -> u64
        ensures { (k : ℕ) → k < 64 → word * 64 + k < length self.now
            → (bit_at result k ≡ 1) ↔ (slice_index self.now (word * 64 + k) ≡ 0) }
    {
        without(self.alive.word(word), self.queued.word(word))
    }

    /// One that is idle is queued.
    pub fn queue(&mut self, place: usize)
        requires within { place < length self.old }
        requires idle { slice_index self.old place ≡ 0 }
        ensures { self.new ≡ slice_set self.old place 1 }
    {
        self.queued.insert(place);
    }

    /// One that is queued is gone.
    pub fn retire(&mut self, place: usize)
        requires { slice_index self.old place ≡ 1 }
        ensures { self.new ≡ slice_set self.old place 2 }
    {
        self.alive.remove(place);
    }

    /// One that is gone is idle again.
    pub fn revive(&mut self, place: usize)
        requires { slice_index self.old place ≡ 2 }
        ensures { self.new ≡ slice_set self.old place 0 }
    {
        self.queued.remove(place);
        self.alive.insert(place);
    }

    /// All are idle.
    pub fn clear(&mut self)
        ensures { self.new ≡ replicate (length self.old) 0 }
    {
        self.alive.fill(self.count);
        self.queued.clear();
    }

    /// Other states that are the same.
    ///
    /// # Errors
    /// `AllocError` where there is no memory.
    pub fn copy(&self) -> Result<States, AllocError>
        ensures { IfOk result (λ s. s ≡ self.now) }
    {
        let alive = self.alive.copy()?;
        let queued = self.queued.copy()?;
        Ok(States {
            alive,
            queued,
            count: self.count,
        })
    }

    /// Become the same as others of as many propagators.
    pub fn copy_from(&mut self, other: &States)
        requires { length self.old ≡ length other.now }
        ensures { self.new ≡ other.now }
    {
        self.alive.copy_from(&other.alive);
        self.queued.copy_from(&other.queued);
    }
}
