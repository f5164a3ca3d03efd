//! Inverses.
ghost use Rattle.std.specs.Prelude.{◌≡◌, ◌↔◌, ◌+◌, IsTrue, pos};
ghost use Rattle.fz_spec.specs.Constraints.{term_values};
ghost use Rattle.fz_spec.specs.Truth.{AreInverse, PointBack, IsElement};

use crate::element::place_of;
use fz_model::value_of;
use fz_spec::term::Term;

/// Whether each list is the inverse of the other.
pub(crate) fn are_inverse(firsts: &[Term], seconds: &[Term], values: &[i32]) -> bool
    ensures { IsTrue result ↔ AreInverse
        (term_values values.now firsts.now) (term_values values.now seconds.now) }
{
    point_back(firsts, seconds, values) && point_back(seconds, firsts, values)
}

/// Whether at each value of the terms, as a place of the others, stands the place of the term.
fn point_back(terms: &[Term], others: &[Term], values: &[i32]) -> bool
    ensures { IsTrue result ↔ PointBack
        (term_values values.now terms.now) (term_values values.now others.now) }
{
    for (i, term) in terms.iter().enumerate() {
        if !points_back(value_of(*term, values), others, i, values) {
            return false;
        }
    }
    true
}

/// Whether this place, counted from 1, stands in the list at an index.
fn points_back(index: i32, others: &[Term], place: usize, values: &[i32]) -> bool
    ensures { IsTrue result
        ↔ IsElement index (term_values values.now others.now) (pos (place + 1)) }
{
    let Some(at) = place_of(index) else {
        return false;
    };
    if at >= others.len() {
        return false;
    }
    is_place(value_of(others[at], values), place)
}

/// Whether a number is this place, counted from 1.
fn is_place(number: i32, place: usize) -> bool
    ensures { IsTrue result ↔ (number ≡ pos (place + 1)) }
{
    match place_of(number) {
        Some(at) => at == place,
        None => false,
    }
}
