//! The propagator of a number of a list by its index.
ghost use Rattle.std.specs.Prelude.{◌≡◌};
ghost use Rattle.fz_strength.specs.Sayings.{Select};
ghost use Rattle.fz_prop.specs.Stores.{FitsTerm};

use crate::select::keep_element;
use fz_model::Listed;
use fz_prop::{Answer, Propagator, Store};
use fz_spec::term::Term;
use std::alloc::{AllocError, Global};
use std::marker::Model;

/// A value that is to stand in a list of numbers at an index, counted from 1.
#[derive(Drop)]
pub struct Element {
    alloc: Global,
    index: Term,
    numbers: Listed<i32>,
    value: Term,
}

impl Model for Element {
    ghost use Rattle.fz_strength.specs.Sayings.{Saying, Select};
    ghost use Rattle.fz_prop.specs.Stores.{FitsTerm};

    ghost Value = { Saying };

    ghost view = { λ p. Select p.numbers p.index p.value };

    ghost invariant = { λ p. FitsTerm p.index × FitsTerm p.value };
}

impl Element {
    /// The propagator of an index, a list of numbers and a value. It takes no memory.
    pub fn new(alloc: Global, index: Term, numbers: Listed<i32>, value: Term) -> Element
        requires fits_index { FitsTerm index }
        requires fits_value { FitsTerm value }
        ensures { result ≡ Select numbers index value }
    {
        Element {
            alloc,
            index,
            numbers,
            value,
        }
    }
}

impl Propagator for Element {
    ghost saying = { λ p. p };

    fn propagate(&self, store: &mut Store) -> Result<Answer, AllocError> {
        let numbers = self.numbers.as_slice();
        keep_element(self.alloc, store, self.index, numbers, self.value)
    }
}
