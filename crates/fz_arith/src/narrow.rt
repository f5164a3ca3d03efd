//! Keeping the terms of an equation between their bounds.
ghost use Rattle.std.specs.Prelude.{◌≡◌, ◌⊎◌, ◌≤◌, ◌<◌, ℤ, [], ◌∷◌, MatchOption, ◌↔◌, List, length, IfOk, OnErr, IsTrue};
ghost use Rattle.std.specs.List.{AllByRecursion};
ghost use Rattle.fz_dom.specs.Changes.{IsFromTo};
ghost use Rattle.fz_dom.specs.declared.change.Change.TheVariants as changes;
ghost use Rattle.fz_strength.specs.Events.{AllFixed};
ghost use Rattle.fz_strength.specs.Operations.{equation, divisors_of, EquationTruth, IsEquationLine};
ghost use Rattle.fz_prop.specs.Answers.{IsAnswerOf, IsCorrectOf};
ghost use Rattle.fz_strength.specs.Domains.{IsTermOf};
ghost use Rattle.fz_prop.specs.Stores.{Shrinks, IsStore, IsTermChange, IsChangeAt};
ghost use Rattle.fz_arith.specs.Narrowing.{IsClamped, IsDivided, IsStep, answer_after};

use crate::bounds::bounds_at;
use crate::factors::keep_operands;
use crate::products::rests_as_product;
use fz_prop::terms::{are_fixed, remove, value_of};
use fz_prop::{Answer, Change, Store};
use fz_spec::shape::Operation;
use fz_spec::term::Term;
use fz_strength::bounds::Bounds;
use std::alloc::AllocError;

/// Narrows a store so that a term is what an operation makes of others.
pub fn keep_equation(
    store: &mut Store,
    operation: Operation,
    operands: &[Term],
    value: Term,
) -> Result<Answer, AllocError>
    requires value { IsTermOf (length store.old.doms) value }
    requires operands { AllByRecursion (IsTermOf (length store.old.doms)) operands.now }
    ensures shrinks { Shrinks store.old store.new }
    ensures correct { IsCorrectOf (EquationTruth (equation operation operands.now value))
        store.old.doms store.new.doms }
    ensures answer { IfOk result
        (λ r. IsAnswerOf r (EquationTruth (equation operation operands.now value))
        (IsEquationLine (equation operation operands.now value))
        store.old.doms store.new.doms) }
{
    let change = keep_operands(store, operation, operands, value)?;
    if let Change::Wiped = change {
        return Ok(Answer::Failed);
    }
    let answer = keep_line(store, operation, operands, value)?;
    Ok(after(change, answer))
}

/// What a run answers that changed something before it came to the line.
fn after(change: Change, answer: Answer) -> Answer
    ensures { result ≡ answer_after change answer }
{
    match (change, answer) {
        (Change::Changed, Answer::Fix) => Answer::NoFix,
        (_, answer) => answer,
    }
}

/// Keeps each term between the bounds that the ends of the others give, unless a look at the ends shows that all are.
fn keep_line(
    store: &mut Store,
    operation: Operation,
    operands: &[Term],
    value: Term,
) -> Result<Answer, AllocError>
    requires value { IsTermOf (length store.old.doms) value }
    requires operands { AllByRecursion (IsTermOf (length store.old.doms)) operands.now }
    ensures shrinks { Shrinks store.old store.new }
    ensures correct { IsCorrectOf (EquationTruth (equation operation operands.now value))
        store.old.doms store.new.doms }
    ensures answer { IfOk result
        (λ r. IsAnswerOf r (EquationTruth (equation operation operands.now value))
        (IsEquationLine (equation operation operands.now value))
        store.old.doms store.new.doms) }
{
    let _ = store.doms();
    if rests_as_product(store, operation, operands, value) {
        return Ok(Answer::rested(are_all_fixed(store, operands, value)));
    }
    match keep_bounds(store, operation, operands, value)? {
        Answer::NoFix => Ok(after_changes(store, operation, operands, value)),
        answer => Ok(answer),
    }
}

/// What a run answers that changed something: that all are between their bounds, where a look at the ends shows it.
fn after_changes(store: &Store, operation: Operation, operands: &[Term], value: Term) -> Answer
    requires value { IsTermOf (length store.now.doms) value }
    requires operands { AllByRecursion (IsTermOf (length store.now.doms)) operands.now }
    ensures { (result ≡ Answer.NoFix) ⊎ ((before : List (List (ℤ × ℤ)))
        → IsAnswerOf result (EquationTruth (equation operation operands.now value))
        (IsEquationLine (equation operation operands.now value)) before store.now.doms) }
{
    if !rests_as_product(store, operation, operands, value) {
        return Answer::NoFix;
    }
    Answer::rested(are_all_fixed(store, operands, value))
}

/// Keeps each term between the bounds that the ends of the others give.
fn keep_bounds(
    store: &mut Store,
    operation: Operation,
    operands: &[Term],
    value: Term,
) -> Result<Answer, AllocError>
    requires value { IsTermOf (length store.old.doms) value }
    requires operands { AllByRecursion (IsTermOf (length store.old.doms)) operands.now }
    ensures shrinks { Shrinks store.old store.new }
    ensures correct { IsCorrectOf (EquationTruth (equation operation operands.now value))
        store.old.doms store.new.doms }
    ensures answer { IfOk result
        (λ r. IsAnswerOf r (EquationTruth (equation operation operands.now value))
        (IsEquationLine (equation operation operands.now value))
        store.old.doms store.new.doms) }
{
    let mut changed = match exclude_zero(store, operation, operands)? {
        Change::Wiped => return Ok(Answer::Failed),
        change => is_changed(change),
    };
    for place in 0..operands.len() + 1 {
        match step(store, operation, operands, value, place)? {
            Change::Wiped => return Ok(Answer::Failed),
            change => changed |= is_changed(change),
        }
    }
    if changed {
        return Ok(Answer::NoFix);
    }
    let _ = store.doms();
    Ok(Answer::rested(are_all_fixed(store, operands, value)))
}

fn is_changed(change: Change) -> bool
    ensures { IsTrue result ↔ (change ≡ changes.Changed) }
{
    match change {
        Change::Changed => true,
        Change::Same | Change::Wiped => false,
    }
}

/// What must not be 0.
fn divisor(operation: Operation, operands: &[Term]) -> Option<Term>
    ensures { MatchOption result (divisors_of operation operands.now ≡ [])
        (λ y. divisors_of operation operands.now ≡ y ∷ []) }
{
    match (operation, operands) {
        (Operation::Quotient, [_, y]) => Some(*y),
        (Operation::Remainder, [_, y]) => Some(*y),
        _ => None,
    }
}

/// Removes 0 from a divisor.
fn exclude_zero(
    store: &mut Store,
    operation: Operation,
    operands: &[Term],
) -> Result<Change, AllocError>
    requires { AllByRecursion (IsTermOf (length store.old.doms)) operands.now }
    ensures shrinks { Shrinks store.old store.new }
    ensures correct { (z : Term) → IsCorrectOf (EquationTruth (equation operation operands.now z))
        store.old.doms store.new.doms }
    ensures divided { IfOk result (λ r. (z : Term) → IsDivided r
        (equation operation operands.now z) store.old store.new) }
{
    match divisor(operation, operands) {
        Some(divisor) => remove(store, divisor, 0),
        None => Ok(Change::Same),
    }
}

/// Keeps the term at a place between its bounds.
fn step(
    store: &mut Store,
    operation: Operation,
    operands: &[Term],
    value: Term,
    place: usize,
) -> Result<Change, AllocError>
    requires value { IsTermOf (length store.old.doms) value }
    requires operands { AllByRecursion (IsTermOf (length store.old.doms)) operands.now }
    requires place { place ≤ length operands.now }
    ensures shrinks { Shrinks store.old store.new }
    ensures correct { IsCorrectOf (EquationTruth (equation operation operands.now value))
        store.old.doms store.new.doms }
    ensures step { IfOk result (λ r. IsStep r (equation operation operands.now value) place
        store.old store.new) }
{
    let _ = store.doms();
    let bounds = bounds_at(store, operation, operands, value, place);
    keep_between(store, bounds)
}

/// Keeps the numbers of a term that lie between its bounds.
pub fn keep_between(store: &mut Store, bounds: Bounds) -> Result<Change, AllocError>
    requires { IsTermOf (length store.old.doms) bounds.term }
    ensures shrinks { Shrinks store.old store.new }
    ensures err { OnErr result (store.new ≡ store.old) }
    ensures change { IfOk result (λ r. IsTermChange r bounds.term
        (λ x. IsFromTo bounds.low bounds.high x) store.old store.new) }
{
    match bounds.term {
        Term::Var(variable) => keep_range(store, variable, bounds.low, bounds.high),
        Term::Num(number) if is_between(number, bounds) => Ok(Change::Same),
        Term::Num(_) => Ok(Change::Wiped),
    }
}

/// Keeps the numbers of a variable from a low to a high, both among them.
fn keep_range(store: &mut Store, variable: u32, low: i64, high: i64) -> Result<Change, AllocError>
    requires { variable < length store.old.doms }
    ensures shrinks { Shrinks store.old store.new }
    ensures err { OnErr result (store.new ≡ store.old) }
    ensures change { IfOk result
        (λ r. IsChangeAt r variable (λ x. IsFromTo low high x) store.old store.new) }
{
    let _ = store.doms();
    store.keep_range(variable, clamped(low), clamped(high))
}

/// Whether a number lies between bounds.
fn is_between(number: i32, bounds: Bounds) -> bool
    ensures { IsTrue result ↔ IsFromTo bounds.low bounds.high number }
{
    bounds.low <= i64::from(number) && i64::from(number) <= bounds.high
}

/// A number of 32 bits that bounds the same numbers within the limits.
fn clamped(value: i64) -> i32
    ensures { IsClamped value result }
{
    match i32::try_from(value) {
        Ok(value) => value,
        Err(_) if value < 0 => i32::MIN,
        Err(_) => i32::MAX,
    }
}

/// Whether one number is left of each term of an equation.
fn are_all_fixed(store: &Store, operands: &[Term], value: Term) -> bool
    requires value { IsTermOf (length store.now.doms) value }
    requires operands { AllByRecursion (IsTermOf (length store.now.doms)) operands.now }
    ensures { IsTrue result ↔ AllFixed store.now.doms (value ∷ operands.now) }
{
    value_of(store, value).is_some() && are_fixed(store, operands)
}
