//! Relations and results of numbers.
ghost use Rattle.std.specs.Prelude.{◌≡◌, ◌≢◌, ◌↔◌, IsTrue, pos, ◌*ℤ◌, ◌∷◌, [], int_div, int_rem, ◌≤◌, ◌^◌};
ghost use Rattle.std.specs.Int.RustNames.{unsigned_abs};
ghost use Rattle.fz_spec.specs.Constraints.{term_value, term_values};
ghost use Rattle.fz_spec.specs.declared.shape.Operation.TheVariants as operations;
ghost use Rattle.fz_spec.specs.Truth.{IsGreatestOf, IsLeastOf, IsResult, Relates, remainder, size_of};

use crate::terms::{none_is_above, none_is_below, some_is};
use fz_model::value_of;
use fz_spec::shape::{Operation, Relation};
use fz_spec::term::Term;

/// Whether two numbers are so related.
pub(crate) fn relates(relation: Relation, x: i128, y: i128) -> bool
    ensures { IsTrue result ↔ Relates relation x y }
{
    match relation {
        Relation::Equal => x == y,
        Relation::NotEqual => x != y,
        Relation::AtMost => x <= y,
        Relation::Below => x < y,
    }
}

/// Whether a term is what the operation makes of others.
pub(crate) fn is_result(
    operation: Operation,
    operands: &[Term],
    value: Term,
    values: &[i32],
) -> bool
    ensures { IsTrue result ↔ IsResult operation
        (term_values values.now operands.now) (term_value values.now value) }
{
    is_number_of(operation, operands, value_of(value, values), values)
}

/// Whether a number is what the operation makes of the values of terms.
fn is_number_of(operation: Operation, terms: &[Term], number: i32, values: &[i32]) -> bool
    ensures { IsTrue result ↔ IsResult operation (term_values values.now terms.now) number }
{
    match operation {
        Operation::Min => is_least(terms, number, values),
        Operation::Max => is_greatest(terms, number, values),
        Operation::Abs => match terms {
            [x] => is_size(value_of(*x, values), number),
            _ => false,
        },
        _ => match terms {
            [x, y] => is_result_of_two(
                operation,
                value_of(*x, values),
                value_of(*y, values),
                number,
            ),
            _ => false,
        },
    }
}

fn is_least(terms: &[Term], least: i32, values: &[i32]) -> bool
    ensures { IsTrue result ↔ IsLeastOf least (term_values values.now terms.now) }
{
    some_is(terms, least, values) && none_is_below(terms, least, values)
}

fn is_greatest(terms: &[Term], greatest: i32, values: &[i32]) -> bool
    ensures { IsTrue result ↔ IsGreatestOf greatest (term_values values.now terms.now) }
{
    some_is(terms, greatest, values) && none_is_above(terms, greatest, values)
}

fn is_size(x: i32, size: i32) -> bool
    ensures { IsTrue result ↔ (size ≡ size_of x) }
{
    i64::from(size) == i64::from(x).abs()
}

/// Whether a number is what an operation on two numbers makes of them.
fn is_result_of_two(operation: Operation, a: i32, b: i32, c: i32) -> bool
    requires least { operation ≢ operations.Min }
    requires greatest { operation ≢ operations.Max }
    ensures { IsTrue result ↔ IsResult operation (a ∷ b ∷ []) c }
{
    match operation {
        Operation::Plus => i64::from(a) + i64::from(b) == i64::from(c),
        Operation::Times => is_product(a, b, c),
        Operation::Quotient => is_quotient(a, b, c),
        Operation::Remainder => is_remainder(a, b, c),
        Operation::Abs => false,
        Operation::Min | Operation::Max => unreachable!(),
    }
}

fn is_product(a: i32, b: i32, c: i32) -> bool
    ensures { IsTrue result ↔ IsResult operations.Times (a ∷ b ∷ []) c }
{
    product(a, b) == i128::from(c)
}

/// The product, which is no further from 0 than 2^62.
pub(crate) fn product(a: i32, b: i32) -> i128
    ensures is { result ≡ a *ℤ b }
    ensures near { unsigned_abs result ≤ 2 ^ 62 }
{
    i128::from(a) * i128::from(b)
}

fn is_quotient(a: i32, b: i32, c: i32) -> bool
    ensures { IsTrue result ↔ IsResult operations.Quotient (a ∷ b ∷ []) c }
{
    b != 0 && quotient(a, b) == i64::from(c)
}

fn quotient(a: i32, b: i32) -> i64
    requires { b ≢ pos 0 }
    ensures { result ≡ int_div a b }
{
    i64::from(a) / i64::from(b)
}

fn is_remainder(a: i32, b: i32, c: i32) -> bool
    ensures { IsTrue result ↔ IsResult operations.Remainder (a ∷ b ∷ []) c }
{
    b != 0 && remainder(a, b) == i64::from(c)
}

/// What is left of a.
fn remainder(a: i32, b: i32) -> i64
    requires { b ≢ pos 0 }
    ensures { result ≡ remainder a b }
{
    truncated_remainder(a, b)
}

fn truncated_remainder(a: i32, b: i32) -> i64
    requires { b ≢ pos 0 }
    ensures { result ≡ int_rem a b }
{
    i64::from(a) % i64::from(b)
}
