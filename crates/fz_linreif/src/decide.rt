//! What the ends of a sum show of a relation to a number.
ghost use Rattle.std.specs.Prelude.{◌↔◌, ◌≤ℤ◌, IsTrue};
ghost use Rattle.fz_strength.specs.ReifiedSums.{AllRelate, NoneRelate};

use fz_spec::shape::Relation;

/// Whether each number between two ends stands in this relation to a number.
pub fn is_shown(relation: Relation, low: i128, high: i128, number: i32) -> bool
    requires rising { low ≤ℤ high }
    ensures { IsTrue result ↔ AllRelate relation low high number }
{
    let number = i128::from(number);
    match relation {
        Relation::Equal => low == number && high == number,
        Relation::NotEqual => number < low || high < number,
        Relation::AtMost => high <= number,
        Relation::Below => high < number,
    }
}

/// Whether no number between two ends stands in this relation to a number.
pub fn is_refuted(relation: Relation, low: i128, high: i128, number: i32) -> bool
    requires rising { low ≤ℤ high }
    ensures { IsTrue result ↔ NoneRelate relation low high number }
{
    let number = i128::from(number);
    match relation {
        Relation::Equal => number < low || high < number,
        Relation::NotEqual => low == number && high == number,
        Relation::AtMost => number < low,
        Relation::Below => number <= low,
    }
}
