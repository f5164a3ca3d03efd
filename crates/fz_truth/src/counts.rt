//! Numbers of places that have values.
ghost use Rattle.std.specs.Prelude.{◌≡◌, ◌↔◌, IsTrue, pos};
ghost use Rattle.fz_spec.specs.Constraints.{term_values};
ghost use Rattle.fz_spec.specs.Truth as truth;
ghost use Rattle.fz_spec.specs.Truth.{AreCounts};

use fz_model::value_of;
use fz_spec::term::Term;

/// Whether there are as many counts as values in the cover, and each is the number of the terms that have the value. The time is the
/// product of the numbers of terms and of counts.
pub(crate) fn are_counts(terms: &[Term], cover: &[i32], counts: &[Term], values: &[i32]) -> bool
    ensures { IsTrue result ↔ AreCounts (term_values values.now terms.now) cover.now
        (term_values values.now counts.now) }
{
    if cover.len() != counts.len() {
        return false;
    }
    for (i, value) in cover.iter().enumerate() {
        if !is_count(terms, *value, value_of(counts[i], values), values) {
            return false;
        }
    }
    true
}

/// Whether so many terms have this value.
fn is_count(terms: &[Term], value: i32, count: i32, values: &[i32]) -> bool
    ensures { IsTrue result
        ↔ (count ≡ pos (truth.count_of value (term_values values.now terms.now))) }
{
    i128::from(count) == count_of(terms, value, values) as i128
}

/// How many terms have this value.
fn count_of(terms: &[Term], value: i32, values: &[i32]) -> usize
    ensures { result ≡ truth.count_of value (term_values values.now terms.now) }
{
    terms
        .iter()
        .filter(|term| value_of(**term, values) == value)
        .count()
}
