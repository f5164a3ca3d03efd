//! The propagator of global cardinality.
ghost use Rattle.std.specs.Prelude.{◌≡◌, IfOk};
ghost use Rattle.fz_strength.specs.Sayings.{Count};

use crate::counts::keep_counts;
use crate::cover::{Cover, cover_of};
use fz_prop::{Answer, Propagator, Store};
use fz_spec::term::Term;
use std::alloc::{AllocError, Global};
use std::marker::Model;

/// Terms that have each value of a cover as often as its count tells.
#[derive(Drop)]
pub struct GlobalCardinality {
    terms: Vec<Term>,
    cover: Vec<i32>,
    counts: Vec<Term>,
    whole: Option<Cover>,
}

impl Model for GlobalCardinality {
    ghost use Rattle.std.specs.Prelude.{IfSome};
    ghost use Rattle.fz_strength.specs.Sayings.{Saying, Count};
    ghost use Rattle.fz_counts.specs.Covers.{IsCoverOf};

    ghost Value = { Saying };

    ghost view = { λ p. Count p.terms.items p.cover.items p.counts.items };

    ghost invariant = { λ p. IfSome p.whole (λ c. IsCoverOf c p.cover.items) };
}

impl GlobalCardinality {
    /// The propagator of terms, a cover and a count for each of its values.
    ///
    /// # Errors
    /// `AllocError` where there is no memory.
    pub fn new(
        alloc: Global,
        terms: &[Term],
        cover: &[i32],
        counts: &[Term],
    ) -> Result<GlobalCardinality, AllocError>
        ensures { IfOk result (λ p. p ≡ Count terms.now cover.now counts.now) }
    {
        Ok(GlobalCardinality {
            terms: Vec::from_slice(alloc, terms)?,
            cover: Vec::from_slice(alloc, cover)?,
            counts: Vec::from_slice(alloc, counts)?,
            whole: cover_of(cover),
        })
    }
}

impl Propagator for GlobalCardinality {
    ghost saying = { λ p. p };

    fn propagate(&self, store: &mut Store) -> Result<Answer, AllocError> {
        keep_counts(store, &self.terms, &self.cover, &self.counts, self.whole)
    }
}
