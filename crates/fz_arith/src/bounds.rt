//! The bounds of each term of an equation.
ghost use Rattle.std.specs.Prelude.{◌≡◌, ◌≤◌, ◌<◌, ◌∷◌, List, length, slice_get, Some};
ghost use Rattle.std.specs.List.{AllByRecursion};
ghost use Rattle.fz_spec.specs.declared.shape.Operation.TheVariants.{Plus, Times, Quotient, Remainder, Abs};
ghost use Rattle.fz_strength.specs.Operations.{equation, low_of, high_of, between, no_bounds, result_bounds, operand_bounds, bounds_of};
ghost use Rattle.fz_strength.specs.Domains.{IsTermOf};

use crate::ends::{
    difference_bounds, extreme_bounds, own_bounds, product_bounds, quotient_bounds,
    remainder_bounds, signed_bounds, size_bounds, sum_bounds,
};
use fz_prop::Store;
use fz_prop::terms::{greatest_of, least_of};
use fz_spec::shape::Operation;
use fz_spec::term::Term;
use fz_strength::bounds::Bounds;

/// The bounds of the term at a place, from what an operation makes at 0 on.
pub fn bounds_at(
    store: &Store,
    operation: Operation,
    operands: &[Term],
    value: Term,
    place: usize,
) -> Bounds
    requires value { IsTermOf (length store.now.doms) value }
    requires operands { AllByRecursion (IsTermOf (length store.now.doms)) operands.now }
    requires place { place ≤ length operands.now }
    ensures { slice_get (bounds_of (equation operation operands.now value) store.now.doms) place
        ≡ Some result }
{
    if place == 0 {
        return value_bounds(store, operation, operands, value);
    }
    operand_bounds(store, operation, operands, value, place - 1)
}

/// No number lies between these.
fn no_bounds(term: Term) -> Bounds
    ensures { result ≡ no_bounds term }
{
    Bounds {
        term,
        low: 1,
        high: 0,
    }
}

/// The bounds of what an operation makes.
fn value_bounds(store: &Store, operation: Operation, operands: &[Term], value: Term) -> Bounds
    requires value { IsTermOf (length store.now.doms) value }
    requires operands { AllByRecursion (IsTermOf (length store.now.doms)) operands.now }
    ensures { result ≡ result_bounds operation operands.now value store.now.doms }
{
    match (operation, operands) {
        (Operation::Plus, [x, y]) => sum_bounds(store, *x, *y, value),
        (Operation::Times, [x, y]) => product_bounds(store, *x, *y, value),
        (Operation::Quotient, [x, y]) => quotient_bounds(store, value, *y, *x),
        (Operation::Remainder, [x, y]) => remainder_bounds(store, *x, *y, value),
        (Operation::Abs, [x]) => size_bounds(store, *x, value),
        (Operation::Min, [first, rest @ ..]) => {
            extreme_bounds(store, Operation::Min, *first, rest, value)
        }
        (Operation::Max, [first, rest @ ..]) => {
            extreme_bounds(store, Operation::Max, *first, rest, value)
        }
        _ => no_bounds(value),
    }
}

/// The bounds of an operand.
fn operand_bounds(
    store: &Store,
    operation: Operation,
    operands: &[Term],
    value: Term,
    place: usize,
) -> Bounds
    requires value { IsTermOf (length store.now.doms) value }
    requires operands { AllByRecursion (IsTermOf (length store.now.doms)) operands.now }
    requires place { place < length operands.now }
    ensures { slice_get (operand_bounds operation operands.now value store.now.doms) place
        ≡ Some result }
{
    match operation {
        Operation::Plus => summand_bounds(store, operands, value, place),
        Operation::Times => factor_bounds(store, operands, value, place),
        Operation::Quotient => divided_bounds(store, operands, place),
        Operation::Remainder => divided_bounds(store, operands, place),
        Operation::Abs => argument_bounds(store, operands, value, place),
        Operation::Min => above_bounds(store, operands[place], value),
        Operation::Max => below_bounds(store, operands[place], value),
    }
}

/// The bounds of a summand; where there are not two, no number lies between them.
fn summand_bounds(store: &Store, operands: &[Term], value: Term, place: usize) -> Bounds
    requires value { IsTermOf (length store.now.doms) value }
    requires operands { AllByRecursion (IsTermOf (length store.now.doms)) operands.now }
    requires place { place < length operands.now }
    ensures { slice_get (operand_bounds Plus operands.now value store.now.doms) place
        ≡ Some result }
{
    if operands.len() == 2 {
        difference_bounds(store, operands[place], operands[1 - place], value)
    } else {
        no_bounds(operands[place])
    }
}

/// The bounds of a factor; where there are not two, no number lies between them.
fn factor_bounds(store: &Store, operands: &[Term], value: Term, place: usize) -> Bounds
    requires value { IsTermOf (length store.now.doms) value }
    requires operands { AllByRecursion (IsTermOf (length store.now.doms)) operands.now }
    requires place { place < length operands.now }
    ensures { slice_get (operand_bounds Times operands.now value store.now.doms) place
        ≡ Some result }
{
    if operands.len() == 2 {
        quotient_bounds(store, operands[place], operands[1 - place], value)
    } else {
        no_bounds(operands[place])
    }
}

/// The bounds of what is divided and of a divisor; where there are not two, no number lies between them.
fn divided_bounds(store: &Store, operands: &[Term], place: usize) -> Bounds
    requires operands { AllByRecursion (IsTermOf (length store.now.doms)) operands.now }
    requires place { place < length operands.now }
    ensures quotient { (z : Term) → slice_get (operand_bounds Quotient operands.now z
        store.now.doms) place ≡ Some result }
    ensures remainder { (z : Term) → slice_get (operand_bounds Remainder operands.now z
        store.now.doms) place ≡ Some result }
{
    if operands.len() == 2 {
        own_bounds(store, operands[place])
    } else {
        no_bounds(operands[place])
    }
}

/// The bounds of a number whose absolute value is taken; where there is not one, no number lies between them.
fn argument_bounds(store: &Store, operands: &[Term], value: Term, place: usize) -> Bounds
    requires value { IsTermOf (length store.now.doms) value }
    requires operands { AllByRecursion (IsTermOf (length store.now.doms)) operands.now }
    requires place { place < length operands.now }
    ensures { slice_get (operand_bounds Abs operands.now value store.now.doms) place
        ≡ Some result }
{
    if operands.len() == 1 {
        signed_bounds(store, operands[place], value)
    } else {
        no_bounds(operands[place])
    }
}

/// From the least number of a value on.
fn above_bounds(store: &Store, term: Term, value: Term) -> Bounds
    requires term { IsTermOf (length store.now.doms) term }
    requires value { IsTermOf (length store.now.doms) value }
    ensures { result ≡ between term (low_of store.now.doms value) (high_of store.now.doms term) }
{
    Bounds {
        term,
        low: i64::from(least_of(store, value)),
        high: i64::from(greatest_of(store, term)),
    }
}

/// Up to the greatest number of a value.
fn below_bounds(store: &Store, term: Term, value: Term) -> Bounds
    requires term { IsTermOf (length store.now.doms) term }
    requires value { IsTermOf (length store.now.doms) value }
    ensures { result ≡ between term (low_of store.now.doms term) (high_of store.now.doms value) }
{
    Bounds {
        term,
        low: i64::from(least_of(store, term)),
        high: i64::from(greatest_of(store, value)),
    }
}
