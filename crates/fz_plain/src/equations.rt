//! Operations in a plainer form.
ghost use Rattle.std.specs.Prelude.{◌≡◌, ◌∷◌, [], IfOk};
ghost use Rattle.fz_spec.specs.declared.shape.Operation.TheVariants.{Abs, Plus, Quotient, Remainder, Times};
ghost use Rattle.fz_strength.specs.Operations.{equation};
ghost use Rattle.fz_strength.specs.Sayings.{Equals};
ghost use Rattle.fz_plain.specs.Plain.{IsPlainest};

use crate::itself::{are_twice, never};
use crate::operands::{plain_greatest, plain_least};
use crate::plain::Plain;
use crate::sums::plain_sum;
use fz_dom::Dom;
use fz_spec::shape::{Operation, Relation};
use fz_spec::term::Term;
use std::alloc::{AllocError, Global};
use std::sync::Arc;

/// A plainer form of what an operation makes of terms, where a variable stands twice among these.
pub fn plain_equation(
    alloc: Global,
    operation: Operation,
    operands: &[Term],
    made: Term,
) -> Result<Option<Plain>, AllocError>
    ensures { IfOk result (λ o. IsPlainest (Equals (equation operation operands.now made)) o) }
{
    match (operation, operands) {
        (Operation::Plus, [x, y]) => plain_plus(alloc, *x, *y, made),
        (Operation::Times, [x, y]) => plain_times(alloc, *x, *y, made),
        (Operation::Quotient, [x, y]) => Ok(plain_quotient(*x, *y, made)),
        (Operation::Remainder, [x, y]) => Ok(plain_remainder(*x, *y, made)),
        (Operation::Abs, [x]) => Ok(plain_size(*x, made)),
        (Operation::Min, [x, y]) => Ok(plain_least(*x, *y, made)),
        (Operation::Max, [x, y]) => Ok(plain_greatest(*x, *y, made)),
        _ => Ok(None),
    }
}

/// A sum of two terms, where a variable stands twice.
fn plain_plus(alloc: Global, x: Term, y: Term, z: Term) -> Result<Option<Plain>, AllocError>
    ensures { IfOk result (λ o. IsPlainest (Equals (equation Plus (x ∷ y ∷ []) z)) o) }
{
    plain_sum(alloc, Relation::Equal, &[1, 1], &[x, y], z)
}

/// A number whose square is itself is 0 or 1.
fn plain_times(alloc: Global, x: Term, y: Term, z: Term) -> Result<Option<Plain>, AllocError>
    ensures { IfOk result (λ o. IsPlainest (Equals (equation Times (x ∷ y ∷ []) z)) o) }
{
    if are_twice(x, y) && are_twice(x, z) {
        let set = Arc::new(alloc, Dom::from_ranges(alloc, &[(0, 1)])?)?;
        Ok(Some(Plain::Member(x, set)))
    } else {
        Ok(None)
    }
}

/// The quotient of a number by itself is 1.
fn plain_quotient(x: Term, y: Term, z: Term) -> Option<Plain>
    ensures { IsPlainest (Equals (equation Quotient (x ∷ y ∷ []) z)) result }
{
    if are_twice(x, y) {
        Some(Plain::Compare(Relation::Equal, z, Term::Num(1)))
    } else {
        None
    }
}

/// What is left by a division is never the divisor, and 0 where a number is divided by itself.
fn plain_remainder(x: Term, y: Term, z: Term) -> Option<Plain>
    ensures { IsPlainest (Equals (equation Remainder (x ∷ y ∷ []) z)) result }
{
    if are_twice(y, z) {
        Some(never())
    } else if are_twice(x, y) {
        Some(Plain::Compare(Relation::Equal, z, Term::Num(0)))
    } else {
        None
    }
}

/// A number that is its own size isn't negative.
fn plain_size(x: Term, z: Term) -> Option<Plain>
    ensures { IsPlainest (Equals (equation Abs (x ∷ []) z)) result }
{
    if are_twice(x, z) {
        Some(Plain::Compare(Relation::AtMost, Term::Num(0), x))
    } else {
        None
    }
}
