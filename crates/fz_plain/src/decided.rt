//! Sums that are always related so to a number, or never.
ghost use Rattle.std.specs.Prelude.{◌↔◌, ℤ, List, Bool, false, IfSome, IsNone, IsTrue};
ghost use Rattle.fz_spec.specs.Truth.{Relates};
ghost use Rattle.fz_plain.specs.Plain.{IsDecided, IsToldByDivisor, SumRelates};

use crate::divisor::{greatest_divisor, is_multiple};
use fz_spec::shape::Relation;
use fz_spec::term::Term;

/// Whether a sum is always related so to a number, or never, where that is seen by the greatest divisor of its factors: the sum is a
/// multiple of it, and 0 where all factors are.
pub fn decided(relation: Relation, factors: &[i32], terms: &[Term], number: i32) -> Option<bool>
    ensures decided { IfSome result (λ b. IsDecided b (SumRelates relation factors.now terms.now number)) }
    ensures told { IfSome result (λ b. IsToldByDivisor b relation factors.now number) }
    ensures none { IsNone result → (b : Bool) → IsToldByDivisor b relation factors.now number → ⊥ }
{
    let _ = terms;
    let divisor = greatest_divisor(factors);
    if divisor == 0 {
        return Some(relates(relation, 0, number));
    }
    match relation {
        Relation::Equal if !is_multiple(number, divisor) => Some(false),
        Relation::NotEqual if !is_multiple(number, divisor) => Some(true),
        _ => None,
    }
}

/// Whether the divisor of its factors tells that a sum is never related so to a number.
pub fn is_never(relation: Relation, factors: &[i32], terms: &[Term], number: i32) -> bool
    ensures told { IsTrue result ↔ IsToldByDivisor false relation factors.now number }
{
    match decided(relation, factors, terms, number) {
        Some(truth) => !truth,
        None => false,
    }
}

/// Whether a number is related so to another.
fn relates(relation: Relation, one: i32, other: i32) -> bool
    ensures { IsDecided result (λ (a : List ℤ). Relates relation one other) }
{
    match relation {
        Relation::Equal => one == other,
        Relation::NotEqual => one != other,
        Relation::AtMost => one <= other,
        Relation::Below => one < other,
    }
}
