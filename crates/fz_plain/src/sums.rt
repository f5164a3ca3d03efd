//! Sums in a plainer form.
ghost use Rattle.std.specs.Prelude.{◌≡◌, ◌↔◌, ◌⊎◌, pos, false, IfOk, IsTrue};
ghost use Rattle.fz_spec.specs.declared.term.Term.TheVariants.{Num};
ghost use Rattle.fz_spec.specs.declared.shape.Relation.TheVariants.{Equal};
ghost use Rattle.fz_strength.specs.Sayings.{Sum, SumIf};
ghost use Rattle.fz_strength.specs.Sums.{left_factors, left_terms, right_number};
ghost use Rattle.fz_says.specs.Fits.{FitsSum};
ghost use Rattle.fz_plain.specs.Plain.{IsPlainest, IsToldByDivisor, plain_said, told_by};

use crate::decided::{decided, is_never};
use crate::gather::{Terms, gather};
use crate::itself::{never, told_by};
use crate::plain::Plain;
use fz_spec::shape::Relation;
use fz_spec::term::Term;
use std::alloc::{AllocError, Global};

/// That a sum is never related so to a term; or the same with equal terms added up.
pub fn plain_sum(
    alloc: Global,
    relation: Relation,
    factors: &[i32],
    terms: &[Term],
    last: Term,
) -> Result<Option<Plain>, AllocError>
    requires { FitsSum (Sum relation
        (left_factors factors.now last) (left_terms terms.now last) (right_number last)) }
    ensures { IfOk result (λ o. IsPlainest (Sum relation
        (left_factors factors.now last) (left_terms terms.now last) (right_number last)) o) }
{
    match gather(alloc, factors, terms, last)? {
        Some(sum) => Ok(Some(gathered(relation, sum, number_of(last)))),
        None if is_never_term(relation, factors, terms, last) => Ok(Some(never())),
        None => Ok(None),
    }
}

/// A sum that is related so to a number, or what is never true.
fn gathered(relation: Relation, sum: Terms, number: i32) -> Plain
    ensures { ((plain_said result ≡ Sum relation sum.factors.items sum.terms.items number)
        × (IsToldByDivisor false relation sum.factors.items number → ⊥))
        ⊎ ((plain_said result ≡ told_by false (Num (pos 1)))
        × IsToldByDivisor false relation sum.factors.items number) }
{
    if is_never(relation, &sum.factors, &sum.terms, number) {
        return never();
    }
    Plain::Sum(relation, sum.factors, sum.terms, number)
}

/// Whether the divisor of its factors tells that a sum is never related so to a term.
fn is_never_term(relation: Relation, factors: &[i32], terms: &[Term], last: Term) -> bool
    ensures { IsTrue result ↔ IsToldByDivisor false relation
        (left_factors factors.now last) (right_number last) }
{
    match last {
        Term::Num(number) => is_never(relation, factors, terms, number),
        Term::Var(_) => false,
    }
}

/// The number that a sum with the last term moved to it is related to.
fn number_of(last: Term) -> i32
    ensures { result ≡ right_number last }
{
    match last {
        Term::Num(number) => number,
        Term::Var(_) => 0,
    }
}

/// Whether a term is 1 that says whether a sum is related so to a number; or the same with equal terms added up.
pub fn plain_sum_if(
    alloc: Global,
    relation: Relation,
    factors: &[i32],
    terms: &[Term],
    number: i32,
    told: Term,
) -> Result<Option<Plain>, AllocError>
    requires { FitsSum (SumIf relation factors.now terms.now number told) }
    ensures { IfOk result (λ o. IsPlainest (SumIf relation factors.now terms.now number told) o) }
{
    match gather(alloc, factors, terms, Term::Num(number))? {
        Some(sum) => match decided(relation, &sum.factors, &sum.terms, number) {
            Some(truth) => Ok(Some(told_by(truth, told))),
            None => Ok(Some(Plain::SumIf(relation, sum.factors, sum.terms, number, told))),
        },
        None => match decided(relation, factors, terms, number) {
            Some(truth) => Ok(Some(told_by(truth, told))),
            None => Ok(None),
        },
    }
}
