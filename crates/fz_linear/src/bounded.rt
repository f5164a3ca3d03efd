//! Sums that a number bounds.
ghost use Rattle.std.specs.Prelude.{◌≡◌, ◌+◌, ◌^◌, ◌≤◌, ℤ, pos, ◌+ℤ◌, List, length, IfOk, unsigned_abs};
ghost use Rattle.fz_spec.specs.declared.limits.TheConstants.{ELEMENT_LIMIT};
ghost use Rattle.fz_spec.specs.declared.shape.Relation.TheVariants.{AtMost, Equal};
ghost use Rattle.fz_strength.specs.Events.{AllFixed};
ghost use Rattle.fz_prop.specs.declared.answer.Answer.TheVariants.{Fix};
ghost use Rattle.fz_prop.specs.Answers.{IsCorrectOf};
ghost use Rattle.fz_prop.specs.Stores.{Shrinks};
ghost use Rattle.fz_linear.specs.Terms.{AreTermsOf};
ghost use Rattle.fz_linear.specs.Precisions.{IsWeighted};
ghost use Rattle.fz_linear.specs.Sums.{SumTruth, SumFalse, IsAnswerSum, IsAnswerAgainst};

use crate::narrow::{Weighted, ends_of};
use crate::pass::{tighten_all, tighten_between};
use crate::side::Side;
use crate::sums::{Ends, are_loose, gap, is_loose};
use fz_prop::{Answer, Store};
use fz_spec::term::Term;
use std::alloc::AllocError;

/// Narrows a store so that a sum is at most a number.
#[inline(always)]
pub fn keep_at_most(
    store: &mut Store,
    sum: &Weighted<'_>,
    number: i32,
) -> Result<Answer, AllocError>
    requires law { IsWeighted sum.now }
    requires inside { AreTermsOf (length store.old.doms) sum.now.terms.now }
    ensures shrinks { Shrinks store.old store.new }
    ensures correct { IsCorrectOf (SumTruth AtMost sum.now.factors.now sum.now.terms.now number)
        store.old.doms store.new.doms }
    ensures answer { IfOk result
        (λ r. IsAnswerSum AtMost sum.now.factors.now sum.now.terms.now number r store.old.doms store.new.doms) }
    ensures still { IfOk result (λ r. r ≡ Fix → store.new ≡ store.old) }
{
    let Ends {
        least,
        greatest,
        widest,
    } = ends_of(store, sum);
    let number = i128::from(number);
    if number < least {
        return Ok(Answer::Failed);
    }
    if greatest <= number {
        return Ok(Answer::Subsumed);
    }
    let slack = gap(least, number);
    if is_loose(widest, slack) {
        return Ok(Answer::Fix);
    }
    if tighten_all(store, Side::Above, sum.factors, sum.terms, slack)? {
        return Ok(Answer::NoFix);
    }
    Ok(Answer::Fix)
}

/// The next number.
fn next(number: i32) -> i128
    ensures next { result ≡ number +ℤ pos 1 }
    ensures near { unsigned_abs result ≤ 2 ^ 100 }
{
    i128::from(number) + 1
}

/// Narrows a store so that a sum is above a number.
#[inline(always)]
pub fn keep_above(store: &mut Store, sum: &Weighted<'_>, number: i32) -> Result<Answer, AllocError>
    requires law { IsWeighted sum.now }
    requires inside { AreTermsOf (length store.old.doms) sum.now.terms.now }
    ensures shrinks { Shrinks store.old store.new }
    ensures correct { IsCorrectOf (SumFalse AtMost sum.now.factors.now sum.now.terms.now number)
        store.old.doms store.new.doms }
    ensures answer { IfOk result (λ r.
        IsAnswerAgainst AtMost sum.now.factors.now sum.now.terms.now number r store.old.doms store.new.doms) }
    ensures still { IfOk result (λ r. r ≡ Fix → store.new ≡ store.old) }
{
    let Ends {
        least,
        greatest,
        widest,
    } = ends_of(store, sum);
    let bound = next(number);
    if greatest < bound {
        return Ok(Answer::Failed);
    }
    if bound <= least {
        return Ok(Answer::Subsumed);
    }
    let slack = gap(bound, greatest);
    if is_loose(widest, slack) {
        return Ok(Answer::Fix);
    }
    if tighten_all(store, Side::Below, sum.factors, sum.terms, slack)? {
        return Ok(Answer::NoFix);
    }
    Ok(Answer::Fix)
}

/// Narrows a store so that a sum is a number.
#[inline(always)]
pub fn keep_equal(store: &mut Store, sum: &Weighted<'_>, number: i32) -> Result<Answer, AllocError>
    requires law { IsWeighted sum.now }
    requires inside { AreTermsOf (length store.old.doms) sum.now.terms.now }
    ensures shrinks { Shrinks store.old store.new }
    ensures correct { IsCorrectOf (SumTruth Equal sum.now.factors.now sum.now.terms.now number)
        store.old.doms store.new.doms }
    ensures answer { IfOk result
        (λ r. IsAnswerSum Equal sum.now.factors.now sum.now.terms.now number r store.old.doms store.new.doms) }
    ensures still { IfOk result (λ r. r ≡ Fix → store.new ≡ store.old) }
{
    let Ends {
        least,
        greatest,
        widest,
    } = ends_of(store, sum);
    let number = i128::from(number);
    if number < least {
        return Ok(Answer::Failed);
    }
    if greatest < number {
        return Ok(Answer::Failed);
    }
    if least == greatest {
        return Ok(Answer::Subsumed);
    }
    let above = gap(least, number);
    let below = gap(number, greatest);
    if are_loose(widest, above, below) {
        return Ok(Answer::Fix);
    }
    if tighten_between(store, sum.factors, sum.terms, widest, above, below)? {
        return Ok(Answer::NoFix);
    }
    Ok(Answer::Fix)
}
