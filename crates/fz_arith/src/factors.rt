//! Bounds of operands that the ends of the line don't give: of one variable in two places, and by sizes.
ghost use Rattle.std.specs.Prelude.{◌≡◌, ℤ, ◌+ℤ◌, ◌*ℤ◌, ◌∷◌, [], length, IfOk, IsTrue, ◌↔◌};
ghost use Rattle.std.specs.List.{AllByRecursion};
ghost use Rattle.fz_sets.specs.Sets.{IsInSet};
ghost use Rattle.fz_dom.specs.Changes.{IsFromTo};
ghost use Rattle.fz_spec.specs.declared.shape.Operation.TheVariants.{Plus, Times};
ghost use Rattle.fz_strength.specs.Domains.{term_set, IsTermOf};
ghost use Rattle.fz_strength.specs.Operations.{equation, EquationTruth};
ghost use Rattle.fz_prop.specs.Answers.{IsCorrectOf};
ghost use Rattle.fz_prop.specs.Stores.{Shrinks};
ghost use Rattle.fz_arith.specs.Narrowing.{IsHelped, only_wiped};

use crate::narrow::keep_between;
use crate::sized::keep_sized;
use fz_prop::terms::{greatest_of, least_of};
use fz_prop::{Change, Store};
use fz_ranges::roots::{half, least_root, root};
use fz_spec::shape::Operation;
use fz_spec::term::Term;
use fz_strength::bounds::Bounds;
use std::alloc::AllocError;

/// Keeps the terms of an equation between the bounds that one variable in two places, or the sizes of the others, give them.
pub fn keep_operands(
    store: &mut Store,
    operation: Operation,
    operands: &[Term],
    value: Term,
) -> Result<Change, AllocError>
    requires value { IsTermOf (length store.old.doms) value }
    requires operands { AllByRecursion (IsTermOf (length store.old.doms)) operands.now }
    ensures shrinks { Shrinks store.old store.new }
    ensures correct { IsCorrectOf (EquationTruth (equation operation operands.now value))
        store.old.doms store.new.doms }
    ensures helped { IfOk result (λ r. IsHelped r (equation operation operands.now value)
        store.old store.new) }
{
    match operands {
        [x, y] => keep_two(store, operation, *x, *y, value),
        _ => Ok(Change::Same),
    }
}

/// Keeps two operands and what an operation makes of them, as `keep_operands` does.
fn keep_two(
    store: &mut Store,
    operation: Operation,
    x: Term,
    y: Term,
    value: Term,
) -> Result<Change, AllocError>
    requires x { IsTermOf (length store.old.doms) x }
    requires y { IsTermOf (length store.old.doms) y }
    requires value { IsTermOf (length store.old.doms) value }
    ensures shrinks { Shrinks store.old store.new }
    ensures correct { IsCorrectOf (EquationTruth (equation operation (x ∷ y ∷ []) value))
        store.old.doms store.new.doms }
    ensures helped { IfOk result (λ r. IsHelped r (equation operation (x ∷ y ∷ []) value)
        store.old store.new) }
{
    match operation {
        Operation::Plus => keep_summands(store, x, y, value),
        Operation::Times => keep_factors(store, x, y, value),
        Operation::Quotient => keep_sized(store, Operation::Quotient, x, y, value),
        Operation::Remainder => keep_sized(store, Operation::Remainder, x, y, value),
        _ => Ok(Change::Same),
    }
}

/// Keeps two summands and their sum, where two of these are one term.
fn keep_summands(store: &mut Store, x: Term, y: Term, value: Term) -> Result<Change, AllocError>
    requires x { IsTermOf (length store.old.doms) x }
    requires y { IsTermOf (length store.old.doms) y }
    requires value { IsTermOf (length store.old.doms) value }
    ensures shrinks { Shrinks store.old store.new }
    ensures correct { IsCorrectOf (EquationTruth (equation Plus (x ∷ y ∷ []) value))
        store.old.doms store.new.doms }
    ensures helped { IfOk result (λ r. IsHelped r (equation Plus (x ∷ y ∷ []) value)
        store.old store.new) }
{
    if is_same(x, value) {
        return keep_zero(store, x, y);
    }
    if is_same(y, value) {
        return keep_zero(store, y, x);
    }
    if is_same(x, y) {
        return keep_half(store, x, value);
    }
    Ok(Change::Same)
}

/// Keeps two factors and their product.
fn keep_factors(store: &mut Store, x: Term, y: Term, value: Term) -> Result<Change, AllocError>
    requires x { IsTermOf (length store.old.doms) x }
    requires y { IsTermOf (length store.old.doms) y }
    requires value { IsTermOf (length store.old.doms) value }
    ensures shrinks { Shrinks store.old store.new }
    ensures correct { IsCorrectOf (EquationTruth (equation Times (x ∷ y ∷ []) value))
        store.old.doms store.new.doms }
    ensures helped { IfOk result (λ r. IsHelped r (equation Times (x ∷ y ∷ []) value)
        store.old store.new) }
{
    if is_same(x, y) {
        return keep_root(store, x, value);
    }
    keep_product(store, x, y, value)
}

/// Whether two terms are one.
fn is_same(x: Term, y: Term) -> bool
    ensures { IsTrue result ↔ (x ≡ y) }
{
    x == y
}

/// Keeps a summand that leaves the other as it is: it is 0.
fn keep_zero(store: &mut Store, x: Term, y: Term) -> Result<Change, AllocError>
    requires { IsTermOf (length store.old.doms) y }
    ensures shrinks { Shrinks store.old store.new }
    ensures correct { IsCorrectOf (EquationTruth (equation Plus (x ∷ y ∷ []) x))
        store.old.doms store.new.doms }
    ensures helped { IfOk result (λ r. IsHelped r (equation Plus (x ∷ y ∷ []) x)
        store.old store.new) }
    ensures turned_correct { IsCorrectOf (EquationTruth (equation Plus (y ∷ x ∷ []) x))
        store.old.doms store.new.doms }
    ensures turned_helped { IfOk result (λ r. IsHelped r (equation Plus (y ∷ x ∷ []) x)
        store.old store.new) }
{
    let _ = store.doms();
    let bounds = Bounds {
        term: y,
        low: 0,
        high: 0,
    };
    keep_between(store, bounds)
}

/// Keeps what twice is a value between its halves.
fn keep_half(store: &mut Store, x: Term, value: Term) -> Result<Change, AllocError>
    requires x { IsTermOf (length store.old.doms) x }
    requires value { IsTermOf (length store.old.doms) value }
    ensures shrinks { Shrinks store.old store.new }
    ensures correct { IsCorrectOf (EquationTruth (equation Plus (x ∷ x ∷ []) value))
        store.old.doms store.new.doms }
    ensures helped { IfOk result (λ r. IsHelped r (equation Plus (x ∷ x ∷ []) value)
        store.old store.new) }
{
    let _ = store.doms();
    let bounds = half_bounds(store, x, value);
    keep_between(store, bounds)
}

/// Keeps what times itself is a value between its roots.
fn keep_root(store: &mut Store, x: Term, value: Term) -> Result<Change, AllocError>
    requires x { IsTermOf (length store.old.doms) x }
    requires value { IsTermOf (length store.old.doms) value }
    ensures shrinks { Shrinks store.old store.new }
    ensures correct { IsCorrectOf (EquationTruth (equation Times (x ∷ x ∷ []) value))
        store.old.doms store.new.doms }
    ensures helped { IfOk result (λ r. IsHelped r (equation Times (x ∷ x ∷ []) value)
        store.old store.new) }
{
    let _ = store.doms();
    let bounds = root_bounds(store, x, value);
    keep_between(store, bounds)
}

/// Keeps factors and their product by the sizes of one another. No more is told, since the line alone says when to go on.
fn keep_product(store: &mut Store, x: Term, y: Term, value: Term) -> Result<Change, AllocError>
    requires x { IsTermOf (length store.old.doms) x }
    requires y { IsTermOf (length store.old.doms) y }
    requires value { IsTermOf (length store.old.doms) value }
    ensures shrinks { Shrinks store.old store.new }
    ensures correct { IsCorrectOf (EquationTruth (equation Times (x ∷ y ∷ []) value))
        store.old.doms store.new.doms }
    ensures helped { IfOk result (λ r. IsHelped r (equation Times (x ∷ y ∷ []) value)
        store.old store.new) }
{
    let change = keep_sized(store, Operation::Times, x, y, value)?;
    Ok(only_wiped(change))
}

/// That nothing is left, if so it is.
fn only_wiped(change: Change) -> Change
    ensures { result ≡ only_wiped change }
{
    match change {
        Change::Wiped => Change::Wiped,
        Change::Changed | Change::Same => Change::Same,
    }
}

/// The bounds of what times itself is a value.
fn root_bounds(store: &Store, x: Term, value: Term) -> Bounds
    requires x { IsTermOf (length store.now.doms) x }
    requires value { IsTermOf (length store.now.doms) value }
    ensures term { result.term ≡ x }
    ensures between { (u : ℤ) → IsInSet (term_set store.now.doms x) u
        → IsInSet (term_set store.now.doms value) (u *ℤ u) → IsFromTo result.low result.high u }
{
    let most = i64::from(root(greatest_of(store, value)));
    let least = least_root(least_of(store, value));
    let is_above = -least < i64::from(least_of(store, x));
    let is_below = i64::from(greatest_of(store, x)) < least;
    Bounds {
        term: x,
        low: if is_above { least } else { -most },
        high: if is_below { -least } else { most },
    }
}

/// The bounds of what twice is a value.
fn half_bounds(store: &Store, x: Term, value: Term) -> Bounds
    requires x { IsTermOf (length store.now.doms) x }
    requires value { IsTermOf (length store.now.doms) value }
    ensures term { result.term ≡ x }
    ensures between { (u : ℤ) → IsInSet (term_set store.now.doms value) (u +ℤ u)
        → IsFromTo result.low result.high u }
{
    let (low, high) = (least_of(store, value), greatest_of(store, value));
    Bounds {
        term: x,
        low: -half(-i64::from(low)),
        high: half(i64::from(high)),
    }
}
