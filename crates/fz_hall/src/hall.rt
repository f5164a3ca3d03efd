//! The propagator of terms that are all different, by the bounds of all.
ghost use Rattle.std.specs.Prelude.{◌≡◌, IfOk};
ghost use Rattle.fz_strength.specs.Sayings.{DifferByBounds};

use crate::narrow::keep_intervals;
use fz_prop::{Answer, Propagator, Store};
use fz_spec::term::Term;
use std::alloc::{AllocError, Global};
use std::marker::Model;

/// Terms that are to be all different, of which those that are confined to an interval of as many numbers keep the others out.
#[derive(Drop)]
pub struct HallIntervals {
    terms: Vec<Term>,
}

impl Model for HallIntervals {
    ghost use Rattle.fz_strength.specs.Sayings.{Saying, DifferByBounds};

    ghost Value = { Saying };

    ghost view = { λ p. DifferByBounds p.terms.items };
}

impl HallIntervals {
    /// The propagator of terms that are all different.
    ///
    /// # Errors
    /// `AllocError` where there is no memory.
    pub fn new(alloc: Global, terms: &[Term]) -> Result<HallIntervals, AllocError>
        ensures { IfOk result (λ p. p ≡ DifferByBounds terms.now) }
    {
        let terms = Vec::from_slice(alloc, terms)?;
        Ok(HallIntervals { terms })
    }
}

impl Propagator for HallIntervals {
    ghost saying = { λ p. p };

    fn propagate(&self, store: &mut Store) -> Result<Answer, AllocError> {
        keep_intervals(*self.terms.allocator(), store, &self.terms)
    }
}
