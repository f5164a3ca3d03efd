//! Sums whose first terms are fixed.
ghost use Rattle.std.specs.Prelude.{◌≡◌, ◌≢◌, ◌↔◌, ◌<◌, ◌≤◌, ◌+◌, ◌+ℤ◌, ◌-ℤ◌, ◌*ℤ◌, ℤ, drop, length, IfOk, IfSome, IsTrue};
ghost use Rattle.std.specs.List.{AllByRecursion};
ghost use Rattle.fz_spec.specs.declared.limits.TheConstants.{ELEMENT_LIMIT};
ghost use Rattle.fz_spec.specs.declared.shape.Relation.TheVariants.{Below};
ghost use Rattle.fz_strength.specs.Domains.{term_set, AreDomains, IsTermOf};
ghost use Rattle.fz_strength.specs.Events.{IsOnly};
ghost use Rattle.fz_prop.specs.Told.{IsToldSum};
ghost use Rattle.fz_prop.specs.Answers.{IsCorrectOf};
ghost use Rattle.fz_prop.specs.Stores.{Shrinks, FitsTerm};
ghost use Rattle.fz_linear.specs.Terms.{AreTermsOf};
ghost use Rattle.fz_linear.specs.Precisions.{IsWeighted};
ghost use Rattle.fz_linear.specs.Sums.{SumTruth, IsAnswerSum};

use crate::narrow::Weighted;
use crate::relate::relate_to_rest;
use crate::sums::product;
use fz_prop::terms::value_of;
use fz_prop::{Answer, Kept, Store};
use fz_spec::shape::Relation;
use fz_spec::term::Term;
use std::alloc::AllocError;

/// Whether there are so many terms that it serves to keep which of them are fixed.
pub fn is_long(terms: &[Term]) -> bool
    ensures { IsTrue result ↔ (4 < length terms.now) }
{
    terms.len() > 4
}

/// Narrows a store by how a sum relates to a number, as `relate_to_rest` does, where the sum is long without the terms at the front
/// that are fixed.
pub fn relate_rest(
    store: &mut Store,
    sum: &Weighted<'_>,
    relation: Relation,
    number: i32,
    kept: &mut Kept,
) -> Result<Answer, AllocError>
    requires bounded { relation ≢ Below }
    requires law { IsWeighted sum.now }
    requires inside { AreTermsOf (length store.old.doms) sum.now.terms.now }
    requires fits { AllByRecursion FitsTerm sum.now.terms.now }
    requires told { IsToldSum sum.now.factors.now sum.now.terms.now kept.old.front kept.old.number
        store.old.doms }
    ensures told { AreDomains store.new.doms
        → IsToldSum sum.now.factors.now sum.now.terms.now kept.new.front kept.new.number store.new.doms }
    ensures shrinks { Shrinks store.old store.new }
    ensures correct { IsCorrectOf (SumTruth relation sum.now.factors.now sum.now.terms.now number)
        store.old.doms store.new.doms }
    ensures answer { IfOk result
        (λ r. IsAnswerSum relation sum.now.factors.now sum.now.terms.now number r store.old.doms store.new.doms) }
{
    if !is_long(sum.terms) {
        return relate_to_rest(store, sum, relation, number);
    }
    pass_fixed(store, sum.factors, sum.terms, kept);
    relate_behind(
        store,
        sum,
        relation,
        number,
        kept.front as usize,
        kept.number,
    )
}

/// Narrows a store by how a sum relates to a number, where that many terms at its front are fixed and add up to a number.
fn relate_behind(
    store: &mut Store,
    sum: &Weighted<'_>,
    relation: Relation,
    number: i32,
    front: usize,
    passed: i64,
) -> Result<Answer, AllocError>
    requires bounded { relation ≢ Below }
    requires law { IsWeighted sum.now }
    requires inside { AreTermsOf (length store.old.doms) sum.now.terms.now }
    requires fits { AllByRecursion FitsTerm sum.now.terms.now }
    requires told { IsToldSum sum.now.factors.now sum.now.terms.now front passed store.old.doms }
    ensures shrinks { Shrinks store.old store.new }
    ensures correct { IsCorrectOf (SumTruth relation sum.now.factors.now sum.now.terms.now number)
        store.old.doms store.new.doms }
    ensures answer { IfOk result
        (λ r. IsAnswerSum relation sum.now.factors.now sum.now.terms.now number r store.old.doms store.new.doms) }
{
    let Some(left) = left_of(number, passed) else {
        return relate_to_rest(store, sum, relation, number);
    };
    let factors = factors_behind(sum.factors, front);
    let terms = terms_behind(sum.terms, front);
    let rest = Weighted {
        factors,
        terms,
        precision: sum.precision,
    };
    let answer = relate_to_rest(store, &rest, relation, left);
    let _ = store.doms();
    answer
}

/// The factors after that many.
pub fn factors_behind(factors: &[i32], front: usize) -> &[i32]
    requires { front ≤ length factors.now }
    ensures { result.now ≡ drop front factors.now }
{
    &factors[front..]
}

/// The terms after that many.
pub fn terms_behind(terms: &[Term], front: usize) -> &[Term]
    requires { front ≤ length terms.now }
    ensures { result.now ≡ drop front terms.now }
{
    &terms[front..]
}

/// A number less a sum, where 32 bits hold it.
pub fn left_of(number: i32, sum: i64) -> Option<i32>
    ensures { IfSome result (λ left. left ≡ number -ℤ sum) }
{
    let left = i64::from(number).checked_sub(sum)?;
    match i32::try_from(left) {
        Ok(left) => Some(left),
        Err(_) => None,
    }
}

/// Passes the terms at the front that are fixed.
pub fn pass_fixed(store: &Store, factors: &[i32], terms: &[Term], kept: &mut Kept)
    requires same { length factors.now ≡ length terms.now }
    requires few { length terms.now ≤ ELEMENT_LIMIT + 1 }
    requires inside { AreTermsOf (length store.now.doms) terms.now }
    requires told { IsToldSum factors.now terms.now kept.old.front kept.old.number store.now.doms }
    ensures told { IsToldSum factors.now terms.now kept.new.front kept.new.number store.now.doms }
{
    for place in kept.front as usize..terms.len() {
        let Some(sum) = with_fixed(store, factors[place], terms[place], kept.number) else {
            return;
        };
        kept.number = sum;
        kept.front += 1;
    }
}

/// A sum and a term with its factor, where the term is fixed and 64 bits hold the sum.
fn with_fixed(store: &Store, factor: i32, term: Term, sum: i64) -> Option<i64>
    requires { IsTermOf (length store.now.doms) term }
    ensures { IfSome result (λ total. (x : ℤ) × IsOnly (term_set store.now.doms term) x
        × (total ≡ sum +ℤ (factor *ℤ x))) }
{
    let value = value_of(store, term)?;
    sum.checked_add(product(factor, value))
}
