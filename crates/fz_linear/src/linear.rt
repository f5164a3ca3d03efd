//! Linear constraints.
ghost use Rattle.std.specs.Prelude.{◌≡◌, ◌≢◌, ◌↔◌, ◌≤◌, ◌+◌, length, IfOk, IsTrue};
ghost use Rattle.std.specs.List.{AllByRecursion};
ghost use Rattle.fz_spec.specs.declared.limits.TheConstants.{ELEMENT_LIMIT};
ghost use Rattle.fz_spec.specs.declared.shape.Relation.TheVariants.{Below};
ghost use Rattle.fz_strength.specs.Domains.{AreDomains, IsTermOf};
ghost use Rattle.fz_strength.specs.Promises.{Suits};
ghost use Rattle.fz_strength.specs.Sayings.{Sum, line_of, said_terms, truth_of};
ghost use Rattle.fz_strength.specs.Sums.{left_factors, left_terms, right_number};
ghost use Rattle.fz_prop.specs.Told.{IsLong, IsTold};
ghost use Rattle.fz_prop.specs.Answers.{Narrows};
ghost use Rattle.fz_prop.specs.Stores.{FitsTerm};
ghost use Rattle.fz_linear.specs.Linears.{IsPrunedOf};

use crate::front::is_long;
use crate::narrow::{Precision, Weighted, precision_of};
use crate::relate::relate_whole;
use crate::shape::{Shape, shape_of};
use fz_prop::{Answer, Kept, Propagator, Store};
use fz_spec::shape::Relation;
use fz_spec::term::Term;
use std::alloc::{AllocError, Global};
use std::marker::Model;

/// How the sum of terms with factors relates to a number.
#[derive(Drop)]
pub struct Linear {
    relation: Relation,
    /// All terms with their factors, a variable that the sum is related to the first, with the factor -1.
    factors: Vec<i32>,
    terms: Vec<Term>,
    number: i32,
    /// In how many bits the sum is added up.
    precision: Precision,
    /// What the sum is by its variables.
    shape: Shape,
}

impl Model for Linear {
    ghost use Rattle.fz_strength.specs.Sayings.{Saying, Sum};
    ghost use Rattle.fz_linear.specs.Linears.{IsLinear};

    ghost Value = { Saying };

    ghost view = { λ p. Sum p.relation p.factors.items p.terms.items p.number };

    ghost invariant = { λ p. IsLinear p.relation p.factors.items p.terms.items p.number
        p.precision p.shape };
}

impl Linear {
    /// The propagator of how a sum relates to a term. A variable that it is related to stands among its terms, with the factor -1.
    ///
    /// # Errors
    /// `AllocError` where there is no memory for its lists.
    pub fn new(
        alloc: Global,
        relation: Relation,
        factors: &[i32],
        terms: &[Term],
        last: Term,
    ) -> Result<Linear, AllocError>
        requires bounded { relation ≢ Below }
        requires same { length (left_factors factors.now last)
            ≡ length (left_terms terms.now last) }
        requires few { length (left_terms terms.now last) ≤ ELEMENT_LIMIT + 1 }
        requires fits { AllByRecursion FitsTerm (left_terms terms.now last) }
        ensures { IfOk result (λ p. p ≡ Sum relation (left_factors factors.now last)
            (left_terms terms.now last) (right_number last)) }
    {
        let factors = factors_left(alloc, factors, last)?;
        let terms = terms_left(alloc, terms, last)?;
        let precision = precision_of(&factors);
        let number = number_right(last);
        let shape = shape_of(&factors, &terms, number);
        Ok(Linear {
            relation,
            factors,
            terms,
            number,
            precision,
            shape,
        })
    }
}

/// The factors, before them that of a variable that the sum is related to.
fn factors_left(alloc: Global, factors: &[i32], last: Term) -> Result<Vec<i32>, AllocError>
    ensures { IfOk result (λ v. v.items ≡ left_factors factors.now last) }
{
    let mut all = Vec::new(alloc);
    if let Term::Var(_) = last {
        all.push(-1)?;
    }
    all.extend_from_slice(factors)?;
    Ok(all)
}

/// The terms, before them a variable that the sum is related to.
fn terms_left(alloc: Global, terms: &[Term], last: Term) -> Result<Vec<Term>, AllocError>
    ensures { IfOk result (λ v. v.items ≡ left_terms terms.now last) }
{
    let mut all = Vec::new(alloc);
    if let Term::Var(_) = last {
        all.push(last)?;
    }
    all.extend_from_slice(terms)?;
    Ok(all)
}

/// The number that a sum is related to, 0 where it is related to a variable.
fn number_right(last: Term) -> i32
    ensures { result ≡ right_number last }
{
    match last {
        Term::Num(number) => number,
        Term::Var(_) => 0,
    }
}

impl Linear {
    /// Whether it has so many terms that it serves to keep something.
    pub fn keeps(&self) -> bool
        ensures { IsTrue result ↔ IsLong self.now }
    {
        is_long(&self.terms)
    }

    /// Narrows a store, as `propagate` does. How many terms at the front are fixed is kept, and what they add up to.
    ///
    /// # Errors
    /// `AllocError` where there is no memory for a domain; the store is then narrower, and no assignment is lost.
    pub fn run(&self, store: &mut Store, kept: &mut Kept) -> Result<Answer, AllocError>
        requires terms { AllByRecursion (IsTermOf (length store.old.doms)) (said_terms self.now) }
        requires suits { Suits self.now store.old.doms }
        requires told { IsTold self.now kept.old store.old.doms }
        ensures told { AreDomains store.new.doms → IsTold self.now kept.new store.new.doms }
        ensures narrows { Narrows (truth_of self.now) (line_of self.now) result
            store.old store.new }
        ensures pruned { IfOk result (λ r. IsPrunedOf self.now r store.new.doms) }
    {
        let sum = Weighted {
            factors: &self.factors,
            terms: &self.terms,
            precision: self.precision,
        };
        relate_whole(store, self.shape, &sum, self.relation, self.number, kept)
    }
}

impl Propagator for Linear {
    ghost saying = { λ p. p };

    fn propagate(&self, store: &mut Store) -> Result<Answer, AllocError>
        requires terms { AllByRecursion (IsTermOf (length store.old.doms)) (said_terms self.now) }
        requires suits { Suits self.now store.old.doms }
        ensures narrows { Narrows (truth_of self.now) (line_of self.now) result
            store.old store.new }
        ensures pruned { IfOk result (λ r. IsPrunedOf self.now r store.new.doms) }
    {
        let mut kept = Kept::none();
        self.run(store, &mut kept)
    }
}
