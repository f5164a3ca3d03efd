//! Comparisons of two terms.
ghost use Rattle.std.specs.Prelude.{◌≡◌};
ghost use Rattle.fz_strength.specs.Sayings.{Compare};
ghost use Rattle.fz_prop.specs.Stores.{FitsTerm};

use crate::relate::relate;
use fz_prop::{Answer, Propagator, Store};
use fz_spec::shape::Relation;
use fz_spec::term::Term;
use std::alloc::AllocError;
use std::marker::Model;

/// A comparison of two terms.
#[derive(Drop)]
pub struct Comparison {
    relation: Relation,
    x: Term,
    y: Term,
}

impl Model for Comparison {
    ghost use Rattle.fz_strength.specs.Sayings.{Saying, Compare};
    ghost use Rattle.fz_prop.specs.Stores.{FitsTerm};

    ghost Value = { Saying };

    ghost view = { λ p. Compare p.relation p.x p.y };

    ghost invariant = { λ p. FitsTerm p.x × FitsTerm p.y };
}

impl Comparison {
    /// The propagator of a comparison of two terms.
    pub fn new(relation: Relation, x: Term, y: Term) -> Comparison
        requires fits_x { FitsTerm x }
        requires fits_y { FitsTerm y }
        ensures { result ≡ Compare relation x y }
    {
        Comparison { relation, x, y }
    }
}

impl Propagator for Comparison {
    ghost saying = { λ p. p };

    fn propagate(&self, store: &mut Store) -> Result<Answer, AllocError> {
        relate(store, self.relation, self.x, self.y)
    }
}
