//! The propagator of two lists of terms, each the inverse of the other.
ghost use Rattle.std.specs.Prelude.{◌≡◌, ◌++◌, IfOk};
ghost use Rattle.std.specs.List.{AllByRecursion};
ghost use Rattle.fz_strength.specs.Sayings as sayings;
ghost use Rattle.fz_prop.specs.Stores.{FitsTerm};

use crate::apart::are_apart;
use crate::keep::keep_inverse;
use fz_prop::{Answer, Propagator, Store};
use fz_spec::term::Term;
use std::alloc::{AllocError, Global};
use std::marker::Model;

/// Two lists of terms, each of which is to be the inverse of the other.
#[derive(Drop)]
pub struct Inverse {
    firsts: Vec<Term>,
    seconds: Vec<Term>,
    /// Whether no variable of the second list stands in the first, nor twice, as far as that was looked at.
    differ: bool,
}

impl Model for Inverse {
    ghost use Rattle.std.specs.Prelude.{◌++◌, IsTrue};
    ghost use Rattle.std.specs.List.{AllByRecursion};
    ghost use Rattle.fz_strength.specs.Sayings as sayings;
    ghost use Rattle.fz_prop.specs.Stores.{FitsTerm};
    ghost use Rattle.fz_inverse.specs.Pointing.{AreApart};

    ghost Value = { sayings.Saying };

    ghost view = { λ p. sayings.Inverse p.firsts.items p.seconds.items };

    ghost invariant = { λ p. AllByRecursion FitsTerm (p.firsts.items ++ p.seconds.items)
        × (IsTrue p.differ → AreApart p.firsts.items p.seconds.items) };
}

impl Inverse {
    /// The propagator of two lists of terms.
    ///
    /// # Errors
    /// `AllocError` where there is no memory.
    pub fn new(alloc: Global, firsts: &[Term], seconds: &[Term]) -> Result<Inverse, AllocError>
        requires { AllByRecursion FitsTerm (firsts.now ++ seconds.now) }
        ensures { IfOk result (λ p. p ≡ sayings.Inverse firsts.now seconds.now) }
    {
        let differ = are_apart(firsts, seconds);
        let firsts = Vec::from_slice(alloc, firsts)?;
        let seconds = Vec::from_slice(alloc, seconds)?;
        Ok(Inverse {
            firsts,
            seconds,
            differ,
        })
    }
}

impl Propagator for Inverse {
    ghost saying = { λ p. p };

    fn propagate(&self, store: &mut Store) -> Result<Answer, AllocError> {
        let alloc = *self.firsts.allocator();
        keep_inverse(alloc, store, &self.firsts, &self.seconds, self.differ)
    }
}
