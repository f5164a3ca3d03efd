//! The propagator of terms that an automaton accepts.
ghost use Rattle.std.specs.Prelude.{◌≡◌, IfOk};
ghost use Rattle.std.specs.List.{AllByRecursion};
ghost use Rattle.fz_strength.specs.Sayings as sayings;
ghost use Rattle.fz_prop.specs.Stores.{FitsTerm};

use crate::automaton::Automaton;
use crate::keep::keep_accepted;
use fz_column::apart::do_differ;
use fz_prop::{Answer, Propagator, Store};
use fz_spec::term::Term;
use std::alloc::{AllocError, Global};
use std::marker::Model;

/// Terms that an automaton accepts.
#[derive(Drop)]
pub struct Regular {
    terms: Vec<Term>,
    automaton: Automaton,
    /// Whether no variable stands at two places, as far as that was looked at.
    differ: bool,
}

impl Model for Regular {
    ghost use Rattle.std.specs.Prelude.{IsTrue};
    ghost use Rattle.std.specs.List.{AllByRecursion};
    ghost use Rattle.fz_strength.specs.Sayings as sayings;
    ghost use Rattle.fz_prop.specs.Stores.{FitsTerm};
    ghost use Rattle.fz_column.specs.Apart.{AreApart};

    ghost Value = { sayings.Saying };

    ghost view = { λ p. sayings.Regular p.automaton p.terms.items };

    ghost invariant = { λ p. (IsTrue p.differ → AreApart p.terms.items)
        × AllByRecursion FitsTerm p.terms.items };
}

impl Regular {
    /// The propagator of an automaton and terms.
    ///
    /// # Errors
    /// `AllocError` where there is no memory.
    pub fn new(alloc: Global, automaton: Automaton, terms: &[Term]) -> Result<Regular, AllocError>
        requires { AllByRecursion FitsTerm terms.now }
        ensures { IfOk result (λ p. p ≡ sayings.Regular automaton terms.now) }
    {
        let differ = do_differ(terms);
        let terms = Vec::from_slice(alloc, terms)?;
        Ok(Regular {
            terms,
            automaton,
            differ,
        })
    }
}

impl Propagator for Regular {
    ghost saying = { λ p. p };

    fn propagate(&self, store: &mut Store) -> Result<Answer, AllocError> {
        let alloc = *self.terms.allocator();
        keep_accepted(alloc, store, &self.terms, &self.automaton, self.differ)
    }
}
