//! Weighted sums.
ghost use Rattle.std.specs.Prelude.{◌≡◌};
ghost use Rattle.fz_spec.specs.Constraints.{term_values};
ghost use Rattle.fz_spec.specs.Truth as truth;

use crate::numbers::product;
use fz_model::value_of;
use fz_spec::term::Term;

/// The sum of the products of coefficients and terms, one by one, to the end of the shorter list.
pub(crate) fn weighted_sum(coefficients: &[i32], terms: &[Term], values: &[i32]) -> i128
    ensures { result ≡ truth.weighted_sum coefficients.now (term_values values.now terms.now) }
{
    let mut sum = 0;
    for (coefficient, term) in coefficients.iter().zip(terms) {
        sum += product(*coefficient, value_of(*term, values));
    }
    sum
}
