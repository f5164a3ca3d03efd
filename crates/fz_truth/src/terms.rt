//! The values of terms, and what is true of lists of them.
ghost use Rattle.std.specs.Prelude.{◌≡◌, ◌↔◌, ◌⊎◌, IsTrue, ◌≤ℤ◌, pos, count_by};
ghost use Rattle.std.specs.List.{AllByRecursion};
ghost use Rattle.std.specs.Ordering.{int_eq};
ghost use Rattle.fz_spec.specs.Constraints.{term_value, term_values};
ghost use Rattle.fz_spec.specs.Truth.{SomeByRecursion, AreDifferent, IsOdd, IsOne, IsZero, is_one};

use fz_model::value_of;
use fz_spec::term::Term;

/// Whether a term has this value.
pub(crate) fn has_value(term: Term, number: i32, values: &[i32]) -> bool
    ensures { IsTrue result ↔ (term_value values.now term ≡ number) }
{
    value_of(term, values) == number
}

/// Whether some term has this value.
pub(crate) fn some_is(terms: &[Term], number: i32, values: &[i32]) -> bool
    ensures { IsTrue result ↔ SomeByRecursion (λ x. x ≡ number) (term_values values.now terms.now) }
{
    terms.iter().any(|term| value_of(*term, values) == number)
}

/// Whether each term has this value.
pub(crate) fn all_are(terms: &[Term], number: i32, values: &[i32]) -> bool
    ensures { IsTrue result ↔ AllByRecursion (λ x. x ≡ number) (term_values values.now terms.now) }
{
    terms.iter().all(|term| value_of(*term, values) == number)
}

/// Whether one of some terms is 1, or one of others 0.
pub(crate) fn is_satisfied(positives: &[Term], negatives: &[Term], values: &[i32]) -> bool
    ensures { IsTrue result ↔ (SomeByRecursion IsOne (term_values values.now positives.now)
        ⊎ SomeByRecursion IsZero (term_values values.now negatives.now)) }
{
    some_is(positives, 1, values) || some_is(negatives, 0, values)
}

/// Whether no value is below this one.
pub(crate) fn none_is_below(terms: &[Term], least: i32, values: &[i32]) -> bool
    ensures { IsTrue result ↔ AllByRecursion (λ x. least ≤ℤ x) (term_values values.now terms.now) }
{
    terms.iter().all(|term| least <= value_of(*term, values))
}

/// Whether no value is above this one.
pub(crate) fn none_is_above(terms: &[Term], greatest: i32, values: &[i32]) -> bool
    ensures { IsTrue result
        ↔ AllByRecursion (λ x. x ≤ℤ greatest) (term_values values.now terms.now) }
{
    terms.iter().all(|term| value_of(*term, values) <= greatest)
}

/// Whether an odd number of terms are 1.
pub(crate) fn is_odd(terms: &[Term], values: &[i32]) -> bool
    ensures { IsTrue result ↔ IsOdd (term_values values.now terms.now) }
{
    count_of_ones(terms, values) % 2 == 1
}

/// How many terms are 1.
fn count_of_ones(terms: &[Term], values: &[i32]) -> usize
    ensures { result ≡ count_by is_one (term_values values.now terms.now) }
{
    terms
        .iter()
        .filter(|term| value_of(**term, values) == 1)
        .count()
}

/// Whether no two values are equal. The time is the square of their number.
pub(crate) fn are_different(terms: &[Term], values: &[i32]) -> bool
    ensures { IsTrue result ↔ AreDifferent (term_values values.now terms.now) }
{
    for (i, term) in terms.iter().enumerate() {
        if some_is(&terms[i + 1..], value_of(*term, values), values) {
            return false;
        }
    }
    true
}
