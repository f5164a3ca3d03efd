//! The numbers that are left of terms, where they lie close together.
ghost use Rattle.std.specs.Prelude.{◌≡◌, length, IfSome};
ghost use Rattle.std.specs.List.{AllByRecursion};
ghost use Rattle.fz_strength.specs.Domains.{IsTermOf};
ghost use Rattle.fz_alldiff.specs.Freeing.{AreBetween, IsSpan};

use fz_prop::Store;
use fz_prop::terms::{greatest_of, least_of};
use fz_spec::term::Term;

/// The least number that is left, and the greatest.
#[derive(Clone, Copy)]
pub struct Span {
    pub low: i32,
    pub high: i32,
}

/// The ends of all that is left of terms, where the 64 numbers from the lower one on, all within the limits, have the higher one.
pub fn close_span(store: &Store, terms: &[Term]) -> Option<Span>
    requires { AllByRecursion (IsTermOf (length store.now.doms)) terms.now }
    ensures between { IfSome result (λ s. AreBetween terms.now store.now.doms s.low s.high) }
    ensures limits { IfSome result (λ s. IsSpan s.low s.high) }
{
    let (mut low, mut high) = (i32::MAX, i32::MIN);
    for term in terms {
        low = low.min(least_of(store, *term));
        high = high.max(greatest_of(store, *term));
        if high.abs_diff(low) > 63 {
            return None;
        }
    }
    span_between(low, high)
}

/// The span of two ends, if 64 numbers from the lower one on, all within the limits, have the higher one.
fn span_between(low: i32, high: i32) -> Option<Span>
    ensures limits { IfSome result (λ s. IsSpan s.low s.high) }
    ensures low { IfSome result (λ s. s.low ≡ low) }
    ensures high { IfSome result (λ s. s.high ≡ high) }
{
    if low <= high && high.abs_diff(low) < 64 && -2147483646 <= low && low <= 2147483583 {
        Some(Span { low, high })
    } else {
        None
    }
}
