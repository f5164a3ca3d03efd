//! The propagator of a term of a list by its index.
ghost use Rattle.std.specs.Prelude.{◌≡◌};
ghost use Rattle.std.specs.List.{AllByRecursion};
ghost use Rattle.fz_strength.specs.Sayings.{SelectTerm};
ghost use Rattle.fz_prop.specs.Stores.{FitsTerm};

use crate::select_term::keep_variable_element;
use fz_model::Listed;
use fz_prop::{Answer, Propagator, Store};
use fz_spec::term::Term;
use std::alloc::{AllocError, Global};
use std::marker::Model;

/// A value that is to be the term of a list at an index, counted from 1.
#[derive(Drop)]
pub struct VariableElement {
    alloc: Global,
    index: Term,
    terms: Listed<Term>,
    value: Term,
}

impl Model for VariableElement {
    ghost use Rattle.std.specs.List.{AllByRecursion};
    ghost use Rattle.fz_strength.specs.Sayings.{Saying, SelectTerm};
    ghost use Rattle.fz_prop.specs.Stores.{FitsTerm};

    ghost Value = { Saying };

    ghost view = { λ p. SelectTerm p.terms p.index p.value };

    ghost invariant = { λ p. FitsTerm p.index × AllByRecursion FitsTerm p.terms
        × FitsTerm p.value };
}

impl VariableElement {
    /// The propagator of an index, a list of terms and a value. It takes no memory.
    pub fn new(alloc: Global, index: Term, terms: Listed<Term>, value: Term) -> VariableElement
        requires fits_index { FitsTerm index }
        requires fits_terms { AllByRecursion FitsTerm terms }
        requires fits_value { FitsTerm value }
        ensures { result ≡ SelectTerm terms index value }
    {
        VariableElement {
            alloc,
            index,
            terms,
            value,
        }
    }
}

impl Propagator for VariableElement {
    ghost saying = { λ p. p };

    fn propagate(&self, store: &mut Store) -> Result<Answer, AllocError> {
        let terms = self.terms.as_slice();
        keep_variable_element(self.alloc, store, self.index, terms, self.value)
    }
}
