//! Differences of two variables that are a number, or aren't: propagators of two variables, on whole domains.
ghost use Rattle.std.specs.Prelude.{◌≡◌, ◌≢◌, ◌⊎◌, ◌↔◌, ◌<◌, ℤ, [], ◌∷◌, IsNone, MatchOption, neg_ℤ, ◌-ℤ◌, ◌+ℤ◌, List, length, IfOk, IfSome, OnErr};
ghost use Rattle.fz_sets.specs.Sets.{IsInSet, IsWithinLimits, set_size};
ghost use Rattle.fz_spec.specs.declared.term.Term.TheVariants.{Var};
ghost use Rattle.fz_spec.specs.declared.shape.Relation.TheVariants.{Equal, NotEqual};
ghost use Rattle.fz_strength.specs.Domains.{dom_at, AreDomains};
ghost use Rattle.fz_strength.specs.Events.{IsOnly, IsFixedIn};
ghost use Rattle.fz_prop.specs.declared.answer.Answer.TheVariants.{Failed};
ghost use Rattle.fz_prop.specs.Answers.{IsCorrectOf};
ghost use Rattle.fz_prop.specs.Stores.{Shrinks, IsStore, IsChangeAt};
ghost use Rattle.fz_shift.specs.Differences.{IsDifferenceOf, IsNoneOfTwo, IsNoDifference, IsDifferenceIn, DifferenceTruth, IsAnswerDifference, ArePartners};

use fz_prop::terms::value_of;
use fz_prop::{Answer, Change, Store};
use fz_spec::term::Term;
use std::alloc::AllocError;

/// Two variables, and how far the first is to be above the second, and the second above the first.
#[derive(Clone, Copy)]
pub struct Difference {
    pub first: u32,
    pub second: u32,
    pub above: i32,
    pub below: i32,
}

/// The difference that a sum is, if it is one of two variables.
pub fn difference_of(factors: &[i32], terms: &[Term], number: i32) -> Option<Difference>
    ensures some { IfSome result (λ d. IsDifferenceIn d factors.now terms.now number) }
    ensures none { IsNone result → IsNoneOfTwo factors.now terms.now number }
{
    let (first, second) = pair_of(factors, terms)?;
    if first == second {
        return None;
    }
    Some(Difference {
        first,
        second,
        above: number,
        below: number.checked_neg()?,
    })
}

/// The two variables, the first of which less the second a sum is.
fn pair_of(factors: &[i32], terms: &[Term]) -> Option<(u32, u32)>
    ensures { MatchOption result (IsNoDifference factors.now terms.now)
        (λ p. IsDifferenceOf p.0 p.1 factors.now terms.now) }
{
    match terms {
        [Term::Var(first), Term::Var(second)] => ordered(factors, *first, *second),
        _ => None,
    }
}

/// Two variables in the order in which the factors make them a difference.
fn ordered(factors: &[i32], first: u32, second: u32) -> Option<(u32, u32)>
    ensures { MatchOption result (IsNoDifference factors.now (Var first ∷ Var second ∷ []))
        (λ p. IsDifferenceOf p.0 p.1 factors.now (Var first ∷ Var second ∷ [])) }
{
    match factors {
        [1, -1] => Some((first, second)),
        [-1, 1] => Some((second, first)),
        _ => None,
    }
}

/// Narrows a store so that a variable is so far above another: each keeps the numbers that have a partner in the other. The one that has
/// more is narrowed first, since the other mostly has no number to lose then.
pub fn keep_above_by(store: &mut Store, d: Difference) -> Result<Answer, AllocError>
    requires first { d.first < length store.old.doms }
    requires second { d.second < length store.old.doms }
    requires apart { d.first ≢ d.second }
    requires turned { d.below ≡ neg_ℤ d.above }
    ensures shrinks { Shrinks store.old store.new }
    ensures correct { IsCorrectOf (DifferenceTruth Equal d.first d.second d.above)
        store.old.doms store.new.doms }
    ensures answer { IfOk result (λ r.
        IsAnswerDifference Equal d.first d.second d.above r store.old.doms store.new.doms) }
    ensures partners { IfOk result (λ r. r ≢ Failed
        → ArePartners store.new.doms d.first d.second d.above) }
{
    let (first, second) = sizes(store, d);
    if first < second {
        keep_first(store, turned(d))
    } else {
        keep_first(store, d)
    }
}

/// A difference said the other way round, the second variable less the first.
fn turned(d: Difference) -> Difference
    ensures { result ≡ record {
      first = d.second;
      second = d.first;
      above = d.below;
      below = d.above;
    } }
{
    Difference {
        first: d.second,
        second: d.first,
        above: d.below,
        below: d.above,
    }
}

/// How many numbers are left of the two variables.
fn sizes(store: &Store, d: Difference) -> (u64, u64)
    requires first { d.first < length store.now.doms }
    requires second { d.second < length store.now.doms }
    ensures first { result.0 ≡ set_size (dom_at store.now.doms d.first) }
    ensures second { result.1 ≡ set_size (dom_at store.now.doms d.second) }
    ensures domains { AreDomains store.now.doms }
{
    (store.dom(d.first).size(), store.dom(d.second).size())
}

/// Narrows a store so, the first of the two before the second.
fn keep_first(store: &mut Store, d: Difference) -> Result<Answer, AllocError>
    requires first { d.first < length store.old.doms }
    requires second { d.second < length store.old.doms }
    requires apart { d.first ≢ d.second }
    requires turned { d.below ≡ neg_ℤ d.above }
    ensures shrinks { Shrinks store.old store.new }
    ensures correct { IsCorrectOf (DifferenceTruth Equal d.first d.second d.above)
        store.old.doms store.new.doms }
    ensures answer { IfOk result (λ r.
        IsAnswerDifference Equal d.first d.second d.above r store.old.doms store.new.doms) }
    ensures partners { IfOk result (λ r. r ≢ Failed
        → ArePartners store.new.doms d.first d.second d.above) }
{
    match store.keep_partners(d.first, d.second, d.above)? {
        Change::Wiped => Ok(Answer::Failed),
        _ => keep_second(store, d),
    }
}

/// Narrows the second variable, where each number of the first has its partner in it.
fn keep_second(store: &mut Store, d: Difference) -> Result<Answer, AllocError>
    requires first { d.first < length store.old.doms }
    requires second { d.second < length store.old.doms }
    requires apart { d.first ≢ d.second }
    requires turned { d.below ≡ neg_ℤ d.above }
    requires partners { (z : ℤ) → IsInSet (dom_at store.old.doms d.first) z
        → IsInSet (dom_at store.old.doms d.second) (z -ℤ d.above) }
    ensures shrinks { Shrinks store.old store.new }
    ensures correct { IsCorrectOf (DifferenceTruth Equal d.first d.second d.above)
        store.old.doms store.new.doms }
    ensures answer { IfOk result (λ r.
        IsAnswerDifference Equal d.first d.second d.above r store.old.doms store.new.doms) }
    ensures partners { IfOk result (λ r. r ≢ Failed
        → ArePartners store.new.doms d.first d.second d.above) }
    ensures old_store { IsStore store.old }
{
    let (first, second) = sizes(store, d);
    if first == second {
        return Ok(partnered(store, d));
    }
    match store.keep_partners(d.second, d.first, d.below)? {
        Change::Wiped => Ok(Answer::Failed),
        _ => Ok(partnered(store, d)),
    }
}

/// What is known of two variables each of whose numbers has its partner in the other.
fn partnered(store: &Store, d: Difference) -> Answer
    requires first { d.first < length store.now.doms }
    requires second { d.second < length store.now.doms }
    requires partners { (z : ℤ) → IsInSet (dom_at store.now.doms d.first) z
        → IsInSet (dom_at store.now.doms d.second) (z -ℤ d.above) }
    requires back { (z : ℤ) → IsInSet (dom_at store.now.doms d.second) z
        → IsInSet (dom_at store.now.doms d.first) (z +ℤ d.above) }
    ensures answer { IsAnswerDifference Equal d.first d.second d.above result
        store.now.doms store.now.doms }
    ensures partners { ArePartners store.now.doms d.first d.second d.above }
    ensures store { IsStore store.now }
{
    if store.dom(d.first).is_fixed() {
        Answer::Subsumed
    } else {
        Answer::Fix
    }
}

/// Narrows a store so that a variable isn't so far above another: where one is fixed, its partner leaves the other.
pub fn keep_apart_by(store: &mut Store, d: Difference) -> Result<Answer, AllocError>
    requires first { d.first < length store.old.doms }
    requires second { d.second < length store.old.doms }
    requires turned { d.below ≡ neg_ℤ d.above }
    ensures shrinks { Shrinks store.old store.new }
    ensures correct { IsCorrectOf (DifferenceTruth NotEqual d.first d.second d.above)
        store.old.doms store.new.doms }
    ensures answer { IfOk result (λ r.
        IsAnswerDifference NotEqual d.first d.second d.above r store.old.doms store.new.doms) }
{
    if let Some(value) = value_of(store, Term::Var(d.first)) {
        return exclude_below(store, d, value);
    }
    if let Some(value) = value_of(store, Term::Var(d.second)) {
        return exclude_above(store, d, value);
    }
    Ok(Answer::Fix)
}

/// Removes from the second variable the partner of the first, which is fixed.
fn exclude_below(store: &mut Store, d: Difference, value: i32) -> Result<Answer, AllocError>
    requires first { d.first < length store.old.doms }
    requires second { d.second < length store.old.doms }
    requires turned { d.below ≡ neg_ℤ d.above }
    requires only { IsOnly (dom_at store.old.doms d.first) value }
    ensures shrinks { Shrinks store.old store.new }
    ensures correct { IsCorrectOf (DifferenceTruth NotEqual d.first d.second d.above)
        store.old.doms store.new.doms }
    ensures answer { IfOk result (λ r.
        IsAnswerDifference NotEqual d.first d.second d.above r store.old.doms store.new.doms) }
{
    let _ = store.doms();
    let change = store.remove(d.second, partner(value, d.below))?;
    Ok(Answer::settled(change))
}

/// Removes from the first variable the partner of the second, which is fixed.
fn exclude_above(store: &mut Store, d: Difference, value: i32) -> Result<Answer, AllocError>
    requires first { d.first < length store.old.doms }
    requires second { d.second < length store.old.doms }
    requires only { IsOnly (dom_at store.old.doms d.second) value }
    ensures shrinks { Shrinks store.old store.new }
    ensures correct { IsCorrectOf (DifferenceTruth NotEqual d.first d.second d.above)
        store.old.doms store.new.doms }
    ensures answer { IfOk result (λ r.
        IsAnswerDifference NotEqual d.first d.second d.above r store.old.doms store.new.doms) }
{
    let _ = store.doms();
    let change = store.remove(d.first, partner(value, d.above))?;
    Ok(Answer::settled(change))
}

/// The number so far above another, or one beyond the limits where that is.
fn partner(value: i32, above: i32) -> i32
    ensures { (z : ℤ) → IsWithinLimits z → (result ≡ z) ↔ (value +ℤ above ≡ z) }
{
    value.saturating_add(above)
}
