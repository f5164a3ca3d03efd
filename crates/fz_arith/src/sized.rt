//! Keeping the terms of a product, a quotient and a remainder within what the ranges of the others leave.
ghost use Rattle.std.specs.Prelude.{◌≡◌, ◌∷◌, [], ℤ, length, IfOk};
ghost use Rattle.std.specs.List.{AllByRecursion};
ghost use Rattle.fz_sets.specs.Sets.{IsInSet};
ghost use Rattle.fz_strength.specs.declared.bounds.Bounds.{Bounds};
ghost use Rattle.fz_strength.specs.Domains.{term_set, IsTermOf};
ghost use Rattle.fz_strength.specs.Operations.{equation, between, EquationTruth};
ghost use Rattle.fz_prop.specs.Answers.{IsCorrectOf};
ghost use Rattle.fz_prop.specs.Outcomes.{IsOutcome};
ghost use Rattle.fz_prop.specs.Stores.{Shrinks};
ghost use Rattle.fz_ranges.specs.Ranges.{IsIn, IsNear, IsScaling};
ghost use Rattle.fz_arith.specs.Narrowing.{LiesBetween, IsHelped};

use crate::narrow::keep_between;
use fz_prop::terms::{greatest_of, least_of};
use fz_prop::{Change, Store};
use fz_ranges::{Range, Ranges, narrowed};
use fz_spec::shape::Operation;
use fz_spec::term::Term;
use fz_strength::bounds::Bounds;
use std::alloc::AllocError;

/// The range of a term.
fn range_of(store: &Store, term: Term) -> Range
    requires { IsTermOf (length store.now.doms) term }
    ensures between { (u : ℤ) → IsInSet (term_set store.now.doms term) u → IsIn result u }
    ensures near { IsNear result }
{
    Range {
        low: i64::from(least_of(store, term)),
        high: i64::from(greatest_of(store, term)),
    }
}

fn has_zero(range: Range) -> bool {
    range.low <= 0 && 0 <= range.high
}

fn is_fixed(range: Range) -> bool {
    range.low == range.high
}

/// Whether the line says all: where both operands are fixed, or of a product that may be 0, as may a factor, so that the other can be
/// anything.
fn is_loose(operation: Operation, ranges: Ranges) -> bool {
    let (first, second) = (ranges.first, ranges.second);
    if is_fixed(first) && is_fixed(second) {
        return true;
    }
    match operation {
        Operation::Times => has_zero(ranges.value) && (has_zero(first) || has_zero(second)),
        _ => false,
    }
}

/// A term between the ends of a range.
fn within(term: Term, range: Range) -> Bounds
    ensures { result ≡ between term range.low range.high }
{
    Bounds {
        term,
        low: range.low,
        high: range.high,
    }
}

/// Keeps two operands and what an operation makes of them within what the ranges of the others leave.
pub fn keep_sized(
    store: &mut Store,
    operation: Operation,
    x: Term,
    y: Term,
    value: Term,
) -> Result<Change, AllocError>
    requires x { IsTermOf (length store.old.doms) x }
    requires y { IsTermOf (length store.old.doms) y }
    requires value { IsTermOf (length store.old.doms) value }
    requires scaling { IsScaling operation }
    ensures shrinks { Shrinks store.old store.new }
    ensures correct { IsCorrectOf (EquationTruth (equation operation (x ∷ y ∷ []) value))
        store.old.doms store.new.doms }
    ensures helped { IfOk result (λ r. IsHelped r (equation operation (x ∷ y ∷ []) value)
        store.old store.new) }
{
    let _ = store.doms();
    let ranges = Ranges {
        first: range_of(store, x),
        second: range_of(store, y),
        value: range_of(store, value),
    };
    if is_loose(operation, ranges) {
        return Ok(Change::Same);
    }
    let left = narrowed(operation, ranges);
    let bounds = [
        within(x, left.first),
        within(y, left.second),
        within(value, left.value),
    ];
    keep_all(store, &bounds)
}

/// Keeps terms between bounds, one after the other.
pub fn keep_all(store: &mut Store, bounds: &[Bounds]) -> Result<Change, AllocError>
    requires { AllByRecursion (λ (b : Bounds). IsTermOf (length store.old.doms) b.term) bounds.now }
    ensures shrinks { Shrinks store.old store.new }
    ensures correct { IsCorrectOf (λ a. AllByRecursion (LiesBetween a) bounds.now)
        store.old.doms store.new.doms }
    ensures outcome { IfOk result
        (λ r. IsOutcome r (λ a. AllByRecursion (LiesBetween a) bounds.now) store.old store.new) }
{
    let mut has_changed = false;
    for index in 0..bounds.len() {
        match keep_between(store, bounds[index])? {
            Change::Wiped => return Ok(Change::Wiped),
            Change::Changed => has_changed = true,
            Change::Same => {}
        }
    }
    if has_changed {
        Ok(Change::Changed)
    } else {
        Ok(Change::Same)
    }
}
