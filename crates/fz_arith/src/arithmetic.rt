//! Equations of terms.
ghost use Rattle.std.specs.Prelude.{◌≡◌, ◌↔◌, length, IsTrue};
ghost use Rattle.std.specs.List.{AllByRecursion};
ghost use Rattle.fz_strength.specs.Domains.{AreDomains, IsTermOf};
ghost use Rattle.fz_strength.specs.Operations.{equation};
ghost use Rattle.fz_strength.specs.Promises.{Suits};
ghost use Rattle.fz_strength.specs.Sayings.{Equals, line_of, said_terms, truth_of};
ghost use Rattle.fz_prop.specs.Told.{IsLong, IsTold};
ghost use Rattle.fz_prop.specs.Answers.{Narrows};

use crate::extremes::{is_long, keep_between_ends};
use fz_prop::{Answer, Kept, Propagator, Store};
use fz_spec::shape::Operation;
use fz_spec::term::Term;
use std::alloc::AllocError;
use std::marker::Model;

/// A term that is what an operation makes of other terms.
#[derive(Drop)]
pub struct Arithmetic {
    operation: Operation,
    operands: Vec<Term>,
    value: Term,
}

impl Model for Arithmetic {
    ghost use Rattle.fz_strength.specs.Operations.{equation};
    ghost use Rattle.fz_strength.specs.Sayings.{Saying, Equals};

    ghost Value = { Saying };

    ghost view = { λ p. Equals (equation p.operation p.operands.items p.value) };
}

impl Arithmetic {
    /// The propagator of the equation of a value and what an operation makes of these operands.
    pub fn new(operation: Operation, operands: Vec<Term>, value: Term) -> Arithmetic
        ensures { result ≡ Equals (equation operation operands.items value) }
    {
        Arithmetic {
            operation,
            operands,
            value,
        }
    }
}

impl Arithmetic {
    /// Whether it has so many operands that it serves to keep something.
    pub fn keeps(&self) -> bool
        ensures { IsTrue result ↔ IsLong self.now }
    {
        is_long(&self.operands)
    }

    /// Narrows a store, as `propagate` does. Of how many operands at the front and at the back none is the least, or the greatest, is
    /// kept.
    ///
    /// # Errors
    /// `AllocError` where there is no memory for a domain; the store is then narrower, and no assignment is lost.
    pub fn run(&self, store: &mut Store, kept: &mut Kept) -> Result<Answer, AllocError>
        requires terms { AllByRecursion (IsTermOf (length store.old.doms)) (said_terms self.now) }
        requires suits { Suits self.now store.old.doms }
        requires told { IsTold self.now kept.old store.old.doms }
        ensures told { AreDomains store.new.doms → IsTold self.now kept.new store.new.doms }
        ensures narrows { Narrows (truth_of self.now) (line_of self.now) result
            store.old store.new }
    {
        keep_between_ends(store, self.operation, &self.operands, self.value, kept)
    }
}

impl Propagator for Arithmetic {
    ghost saying = { λ p. p };

    fn propagate(&self, store: &mut Store) -> Result<Answer, AllocError> {
        let mut kept = Kept::none();
        self.run(store, &mut kept)
    }
}
