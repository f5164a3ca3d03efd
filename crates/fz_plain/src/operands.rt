//! The greatest or the least of two terms.
ghost use Rattle.std.specs.Prelude.{◌≡◌, ◌∷◌, []};
ghost use Rattle.fz_spec.specs.declared.shape.Operation.TheVariants.{Max, Min};
ghost use Rattle.fz_strength.specs.Operations.{equation};
ghost use Rattle.fz_strength.specs.Sayings.{Equals};
ghost use Rattle.fz_plain.specs.Plain.{IsPlainest};

use crate::itself::are_twice;
use crate::plain::Plain;
use fz_spec::shape::Relation;
use fz_spec::term::Term;

/// The greatest of two terms, where a variable stands twice.
pub fn plain_greatest(x: Term, y: Term, z: Term) -> Option<Plain>
    ensures { IsPlainest (Equals (equation Max (x ∷ y ∷ []) z)) result }
{
    if are_twice(x, y) {
        Some(Plain::Compare(Relation::Equal, x, z))
    } else if are_twice(x, z) {
        Some(Plain::Compare(Relation::AtMost, y, x))
    } else if are_twice(y, z) {
        Some(Plain::Compare(Relation::AtMost, x, y))
    } else {
        None
    }
}

/// The least of two terms, where a variable stands twice.
pub fn plain_least(x: Term, y: Term, z: Term) -> Option<Plain>
    ensures { IsPlainest (Equals (equation Min (x ∷ y ∷ []) z)) result }
{
    if are_twice(x, y) {
        Some(Plain::Compare(Relation::Equal, x, z))
    } else if are_twice(x, z) {
        Some(Plain::Compare(Relation::AtMost, x, y))
    } else if are_twice(y, z) {
        Some(Plain::Compare(Relation::AtMost, y, x))
    } else {
        None
    }
}
