//! Elements of lists.
ghost use Rattle.std.specs.Prelude.{◌≡◌, ◌↔◌, ◌+◌, ℕ, pos, IsTrue, MatchOption};
ghost use Rattle.fz_spec.specs.Constraints.{term_value, term_values};
ghost use Rattle.fz_spec.specs.Truth.{IsElement};

use crate::terms::has_value;
use fz_model::value_of;
use fz_spec::term::Term;

/// Whether a number stands in a list at an index, counted from 1.
pub(crate) fn is_number_at(index: Term, numbers: &[i32], value: Term, values: &[i32]) -> bool
    ensures { IsTrue result ↔ IsElement
        (term_value values.now index) numbers.now (term_value values.now value) }
{
    is_element(value_of(index, values), numbers, value_of(value, values))
}

/// Whether a term of this value stands in a list at an index, counted from 1.
pub(crate) fn is_term_at(index: Term, terms: &[Term], value: Term, values: &[i32]) -> bool
    ensures { IsTrue result ↔ IsElement (term_value values.now index)
        (term_values values.now terms.now) (term_value values.now value) }
{
    is_term_element(
        value_of(index, values),
        terms,
        value_of(value, values),
        values,
    )
}

fn is_element(index: i32, numbers: &[i32], number: i32) -> bool
    ensures { IsTrue result ↔ IsElement index numbers.now number }
{
    match place_of(index) {
        None => false,
        Some(place) => numbers.get(place).copied() == Some(number),
    }
}

fn is_term_element(index: i32, terms: &[Term], number: i32, values: &[i32]) -> bool
    ensures { IsTrue result ↔ IsElement index (term_values values.now terms.now) number }
{
    let Some(place) = place_of(index) else {
        return false;
    };
    if place >= terms.len() {
        return false;
    }
    has_value(terms[place], number, values)
}

/// The place from 0 of an index from 1.
pub(crate) fn place_of(index: i32) -> Option<usize>
    ensures { MatchOption result ((i : ℕ) → index ≡ pos (i + 1) → ⊥)
        (λ place. index ≡ pos (place + 1)) }
{
    if index < 1 {
        None
    } else {
        Some((index - 1) as usize)
    }
}
