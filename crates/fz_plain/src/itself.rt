//! Relations of a variable to itself.
ghost use Rattle.std.specs.Prelude.{◌≡◌, ◌↔◌, ℤ, pos, false, IsTrue};
ghost use Rattle.fz_spec.specs.declared.term.Term.TheVariants.{Num};
ghost use Rattle.fz_spec.specs.Truth.{Relates};
ghost use Rattle.fz_strength.specs.Sayings.{Compare, CompareIf};
ghost use Rattle.fz_plain.specs.Plain.{IsDecided, IsPlainest, IsTwice, plain_said, told_by};

use crate::plain::Plain;
use fz_spec::shape::Relation;
use fz_spec::term::Term;

/// That a relation is never true, where it is of a variable to itself and doesn't hold of equal numbers.
pub fn plain_comparison(relation: Relation, x: Term, y: Term) -> Option<Plain>
    ensures { IsPlainest (Compare relation x y) result }
{
    if !are_twice(x, y) || holds_of_same(relation) {
        return None;
    }
    Some(never())
}

/// Whether a term is 1 that says whether a relation is true, where this is of a variable to itself.
pub fn plain_test(relation: Relation, x: Term, y: Term, told: Term) -> Option<Plain>
    ensures { IsPlainest (CompareIf relation x y told) result }
{
    if are_twice(x, y) {
        Some(told_by(holds_of_same(relation), told))
    } else {
        None
    }
}

/// That a term is 1, or that it isn't.
pub fn told_by(truth: bool, told: Term) -> Plain
    ensures { plain_said result ≡ told_by truth told }
{
    let relation = if truth {
        Relation::Equal
    } else {
        Relation::NotEqual
    };
    Plain::Compare(relation, told, Term::Num(1))
}

/// What is never true.
pub fn never() -> Plain
    ensures { plain_said result ≡ told_by false (Num (pos 1)) }
{
    told_by(false, Term::Num(1))
}

/// Whether two terms are one variable.
pub fn are_twice(one: Term, other: Term) -> bool
    ensures { IsTrue result ↔ IsTwice one other }
{
    match (one, other) {
        (Term::Var(one), Term::Var(other)) => one == other,
        _ => false,
    }
}

/// Whether a relation holds of equal numbers.
fn holds_of_same(relation: Relation) -> bool
    ensures { IsDecided result (λ a. (n : ℤ) → Relates relation n n) }
{
    match relation {
        Relation::Equal | Relation::AtMost => true,
        Relation::NotEqual | Relation::Below => false,
    }
}
