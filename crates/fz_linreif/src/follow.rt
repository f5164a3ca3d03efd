//! Keeping a sum and a Boolean by one another.
ghost use Rattle.std.specs.Prelude.{◌≡◌, ◌≢◌, ◌+◌, ◌≤◌, List, length, IfOk, MatchOption};
ghost use Rattle.std.specs.List.{AllByRecursion};
ghost use Rattle.fz_spec.specs.declared.limits.TheConstants.{ELEMENT_LIMIT};
ghost use Rattle.fz_spec.specs.declared.shape.Relation.TheVariants.{AtMost, Below};
ghost use Rattle.fz_strength.specs.Domains.{term_set, IsTermOf};
ghost use Rattle.fz_strength.specs.Events.{IsOnly, IsFixedIn, AllFixed};
ghost use Rattle.fz_strength.specs.Promises.{IsTruth};
ghost use Rattle.fz_strength.specs.ReifiedSums.{IsSumShown, IsSumRefuted};
ghost use Rattle.fz_prop.specs.declared.answer.Answer.TheVariants.{Fix};
ghost use Rattle.fz_prop.specs.Answers.{IsAnswerOf, IsCorrectOf};
ghost use Rattle.fz_prop.specs.Stores.{Shrinks, FitsTerm};
ghost use Rattle.fz_prop.specs.Truths.{TruthWith, LineWith};
ghost use Rattle.fz_linear.specs.Precisions.{IsWeighted};
ghost use Rattle.fz_linear.specs.Terms.{AreTermsOf};
ghost use Rattle.fz_linear.specs.Sums.{SumTruth};
ghost use Rattle.fz_linreif.specs.ReifiedLinears.{sum_sides, truth_number, SaidTruth, IsAnswerSaid};

use crate::decide::{is_refuted, is_shown};
use fz_linear::narrow::{Weighted, ends_of};
use fz_linear::relate::{relate, relate_against};
use fz_linear::sums::Ends;
use fz_prop::terms::{keep_only, value_of};
use fz_prop::{Answer, Store};
use fz_spec::shape::Relation;
use fz_spec::term::Term;
use std::alloc::AllocError;

/// Narrows a store so that a Boolean says whether a sum stands in this relation to a number.
///
/// # Errors
/// `AllocError` where there is no memory for a domain; the store is then narrower, and no assignment is lost.
#[inline(always)]
pub fn keep_reified(
    store: &mut Store,
    sum: &Weighted<'_>,
    relation: Relation,
    number: i32,
    r: Term,
) -> Result<Answer, AllocError>
    requires bounded { relation ≢ Below }
    requires law { IsWeighted sum.now }
    requires inside { AreTermsOf (length store.old.doms) sum.now.terms.now }
    requires fits { AllByRecursion FitsTerm sum.now.terms.now }
    requires boolean { IsTermOf (length store.old.doms) r }
    requires truth { IsTruth store.old.doms r }
    ensures shrinks { Shrinks store.old store.new }
    ensures correct { IsCorrectOf (TruthWith (SumTruth relation sum.now.factors.now sum.now.terms.now number) r)
        store.old.doms store.new.doms }
    ensures answer { IfOk result (λ a. IsAnswerOf a
        (TruthWith (SumTruth relation sum.now.factors.now sum.now.terms.now number) r)
        (LineWith (sum_sides relation sum.now.factors.now sum.now.terms.now number) r)
        store.old.doms store.new.doms) }
{
    match (relation, truth_of(store, r)) {
        (Relation::AtMost, Some(said)) => { keep_order(store, sum, number, r, said) }
        _ => decide(store, sum, relation, number, r),
    }
}

/// What a Boolean is fixed to, if it is.
fn truth_of(store: &Store, r: Term) -> Option<bool>
    requires boolean { IsTermOf (length store.now.doms) r }
    requires truth { IsTruth store.now.doms r }
    ensures { MatchOption result (IsFixedIn store.now.doms r → ⊥)
        (λ said. IsOnly (term_set store.now.doms r) (truth_number said)) }
{
    match value_of(store, r) {
        Some(1) => Some(true),
        Some(_) => Some(false),
        None => None,
    }
}

/// Narrows a store so that a sum so relates to a number, or so that it doesn't, as is said.
#[inline(always)]
fn relate_as(
    store: &mut Store,
    said: bool,
    sum: &Weighted<'_>,
    relation: Relation,
    number: i32,
) -> Result<Answer, AllocError>
    requires bounded { relation ≢ Below }
    requires law { IsWeighted sum.now }
    requires inside { AreTermsOf (length store.old.doms) sum.now.terms.now }
    requires fits { AllByRecursion FitsTerm sum.now.terms.now }
    ensures shrinks { Shrinks store.old store.new }
    ensures correct { IsCorrectOf (SaidTruth said relation sum.now.factors.now sum.now.terms.now number)
        store.old.doms store.new.doms }
    ensures answer { IfOk result (λ a.
        IsAnswerSaid said relation sum.now.factors.now sum.now.terms.now number a store.old.doms store.new.doms) }
    ensures still { IfOk result (λ a. a ≡ Fix → store.new ≡ store.old) }
{
    if said {
        relate(store, sum, relation, number)
    } else {
        relate_against(store, sum, relation, number)
    }
}

/// Narrows a store so that a sum is at most a number, or above it, as is said, again and again until that changes nothing more.
#[inline(always)]
fn order_as(
    store: &mut Store,
    said: bool,
    sum: &Weighted<'_>,
    number: i32,
) -> Result<Answer, AllocError>
    requires law { IsWeighted sum.now }
    requires inside { AreTermsOf (length store.old.doms) sum.now.terms.now }
    requires fits { AllByRecursion FitsTerm sum.now.terms.now }
    ensures shrinks { Shrinks store.old store.new }
    ensures correct { IsCorrectOf (SaidTruth said AtMost sum.now.factors.now sum.now.terms.now number)
        store.old.doms store.new.doms }
    ensures answer { IfOk result (λ a.
        IsAnswerSaid said AtMost sum.now.factors.now sum.now.terms.now number a store.old.doms store.new.doms) }
{
    'runs: loop {
        match relate_as(store, said, sum, Relation::AtMost, number)? {
            Answer::NoFix => {}
            Answer::Fix => return Ok(Answer::Fix),
            Answer::Subsumed => return Ok(Answer::Subsumed),
            Answer::Failed => return Ok(Answer::Failed),
        }
    }
}

/// Narrows a store so that a sum is at most a number, or above it, as a Boolean that is fixed says.
#[inline(always)]
fn keep_order(
    store: &mut Store,
    sum: &Weighted<'_>,
    number: i32,
    r: Term,
    said: bool,
) -> Result<Answer, AllocError>
    requires law { IsWeighted sum.now }
    requires inside { AreTermsOf (length store.old.doms) sum.now.terms.now }
    requires fits { AllByRecursion FitsTerm sum.now.terms.now }
    requires boolean { IsTermOf (length store.old.doms) r }
    requires fixed { IsOnly (term_set store.old.doms r) (truth_number said) }
    ensures shrinks { Shrinks store.old store.new }
    ensures correct { IsCorrectOf (TruthWith (SumTruth AtMost sum.now.factors.now sum.now.terms.now number) r)
        store.old.doms store.new.doms }
    ensures answer { IfOk result (λ a. IsAnswerOf a
        (TruthWith (SumTruth AtMost sum.now.factors.now sum.now.terms.now number) r)
        (LineWith (sum_sides AtMost sum.now.factors.now sum.now.terms.now number) r)
        store.old.doms store.new.doms) }
{
    let _ = r;
    let answer = order_as(store, said, sum, number);
    let _ = store.doms();
    answer
}

/// Narrows a store so that a Boolean says whether a sum stands in this relation to a number: by the ends of the sum, and where these
/// decide nothing by the Boolean.
fn decide(
    store: &mut Store,
    sum: &Weighted<'_>,
    relation: Relation,
    number: i32,
    r: Term,
) -> Result<Answer, AllocError>
    requires bounded { relation ≢ Below }
    requires law { IsWeighted sum.now }
    requires inside { AreTermsOf (length store.old.doms) sum.now.terms.now }
    requires fits { AllByRecursion FitsTerm sum.now.terms.now }
    requires boolean { IsTermOf (length store.old.doms) r }
    requires truth { IsTruth store.old.doms r }
    ensures shrinks { Shrinks store.old store.new }
    ensures correct { IsCorrectOf (TruthWith (SumTruth relation sum.now.factors.now sum.now.terms.now number) r)
        store.old.doms store.new.doms }
    ensures answer { IfOk result (λ a. IsAnswerOf a
        (TruthWith (SumTruth relation sum.now.factors.now sum.now.terms.now number) r)
        (LineWith (sum_sides relation sum.now.factors.now sum.now.terms.now number) r)
        store.old.doms store.new.doms) }
{
    let Ends {
        least,
        greatest,
        ..
    } = ends_of(store, sum);
    if is_shown(relation, least, greatest, number) {
        let change = keep_only(store, r, 1)?;
        return Ok(Answer::settled(change));
    }
    if is_refuted(relation, least, greatest, number) {
        let change = keep_only(store, r, 0)?;
        return Ok(Answer::settled(change));
    }
    follow(store, sum, relation, number, r)
}

/// Narrows a store by what a Boolean says of a sum, where the ends of the sum decide nothing.
fn follow(
    store: &mut Store,
    sum: &Weighted<'_>,
    relation: Relation,
    number: i32,
    r: Term,
) -> Result<Answer, AllocError>
    requires bounded { relation ≢ Below }
    requires law { IsWeighted sum.now }
    requires inside { AreTermsOf (length store.old.doms) sum.now.terms.now }
    requires fits { AllByRecursion FitsTerm sum.now.terms.now }
    requires boolean { IsTermOf (length store.old.doms) r }
    requires truth { IsTruth store.old.doms r }
    requires not_shown { IsSumShown relation store.old.doms sum.now.factors.now sum.now.terms.now number → ⊥ }
    requires not_refuted { IsSumRefuted relation store.old.doms sum.now.factors.now sum.now.terms.now number → ⊥ }
    ensures shrinks { Shrinks store.old store.new }
    ensures correct { IsCorrectOf (TruthWith (SumTruth relation sum.now.factors.now sum.now.terms.now number) r)
        store.old.doms store.new.doms }
    ensures answer { IfOk result (λ a. IsAnswerOf a
        (TruthWith (SumTruth relation sum.now.factors.now sum.now.terms.now number) r)
        (LineWith (sum_sides relation sum.now.factors.now sum.now.terms.now number) r)
        store.old.doms store.new.doms) }
{
    let Some(said) = truth_of(store, r) else {
        return Ok(Answer::Fix);
    };
    let answer = relate_as(store, said, sum, relation, number)?;
    let _ = store.doms();
    Ok(answer)
}
