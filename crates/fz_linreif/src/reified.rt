//! Linear constraints, and a Boolean that says whether they hold.
ghost use Rattle.std.specs.Prelude.{◌≡◌, ◌≢◌, ◌↔◌, ◌≤◌, length, IfOk, IsTrue};
ghost use Rattle.std.specs.List.{AllByRecursion};
ghost use Rattle.fz_spec.specs.declared.limits.TheConstants.{ELEMENT_LIMIT};
ghost use Rattle.fz_spec.specs.declared.shape.Relation.TheVariants.{Below};
ghost use Rattle.fz_strength.specs.Domains.{AreDomains, IsTermOf};
ghost use Rattle.fz_strength.specs.Promises.{Suits};
ghost use Rattle.fz_strength.specs.Sayings.{SumIf, line_of, said_terms, truth_of};
ghost use Rattle.fz_prop.specs.Told.{IsLong, IsTold};
ghost use Rattle.fz_prop.specs.Answers.{Narrows};
ghost use Rattle.fz_prop.specs.Stores.{FitsTerm};

use crate::front::keep_rest;
use fz_linear::front::is_long;
use fz_linear::narrow::{Precision, Weighted, precision_of};
use fz_prop::{Answer, Kept, Propagator, Store};
use fz_spec::shape::Relation;
use fz_spec::term::Term;
use std::alloc::{AllocError, Global};
use std::marker::Model;

/// How the sum of terms with factors relates to a number, and a Boolean that says whether it does.
#[derive(Drop)]
pub struct ReifiedLinear {
    relation: Relation,
    factors: Vec<i32>,
    terms: Vec<Term>,
    number: i32,
    r: Term,
    /// In how many bits the sum is added up.
    precision: Precision,
}

impl Model for ReifiedLinear {
    ghost use Rattle.fz_strength.specs.Sayings.{Saying, SumIf};
    ghost use Rattle.fz_linreif.specs.ReifiedLinears.{IsReifiedLinear};

    ghost Value = { Saying };

    ghost view = { λ p. SumIf p.relation p.factors.items p.terms.items p.number p.r };

    ghost invariant = { λ p. IsReifiedLinear p.relation p.factors.items p.terms.items
        p.precision };
}

impl ReifiedLinear {
    /// The propagator of a sum, a number and a Boolean.
    ///
    /// # Errors
    /// `AllocError` where there is no memory for its lists.
    pub fn new(
        alloc: Global,
        relation: Relation,
        factors: &[i32],
        terms: &[Term],
        number: i32,
        r: Term,
    ) -> Result<ReifiedLinear, AllocError>
        requires bounded { relation ≢ Below }
        requires same { length factors.now ≡ length terms.now }
        requires few { length terms.now ≤ ELEMENT_LIMIT }
        requires fits { AllByRecursion FitsTerm terms.now }
        ensures { IfOk result (λ p. p ≡ SumIf relation factors.now terms.now number r) }
    {
        Ok(ReifiedLinear {
            relation,
            factors: Vec::from_slice(alloc, factors)?,
            terms: Vec::from_slice(alloc, terms)?,
            number,
            r,
            precision: precision_of(factors),
        })
    }
}

impl ReifiedLinear {
    /// Whether it has so many terms that it serves to keep something.
    pub fn keeps(&self) -> bool
        ensures { IsTrue result ↔ IsLong self.now }
    {
        is_long(&self.terms)
    }

    /// Narrows a store, as `propagate` does. How many terms at the front are fixed is kept, and what they add up to.
    ///
    /// # Errors
    /// `AllocError` where there is no memory for a domain; the store is then narrower, and no assignment is lost.
    pub fn run(&self, store: &mut Store, kept: &mut Kept) -> Result<Answer, AllocError>
        requires terms { AllByRecursion (IsTermOf (length store.old.doms)) (said_terms self.now) }
        requires suits { Suits self.now store.old.doms }
        requires told { IsTold self.now kept.old store.old.doms }
        ensures told { AreDomains store.new.doms → IsTold self.now kept.new store.new.doms }
        ensures narrows { Narrows (truth_of self.now) (line_of self.now) result
            store.old store.new }
    {
        let sum = Weighted {
            factors: &self.factors,
            terms: &self.terms,
            precision: self.precision,
        };
        keep_rest(store, &sum, self.relation, self.number, self.r, kept)
    }
}

impl Propagator for ReifiedLinear {
    ghost saying = { λ p. p };

    fn propagate(&self, store: &mut Store) -> Result<Answer, AllocError> {
        let mut kept = Kept::none();
        self.run(store, &mut kept)
    }
}
