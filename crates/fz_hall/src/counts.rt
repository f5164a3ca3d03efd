//! How many terms begin and end at each number, where all that is left of them lies within 64 numbers.
ghost use Rattle.std.specs.Prelude.{◌≡◌, ◌<◌, ◌≤ℤ◌, ◌+ℤ◌, pos, length, IsTrue};
ghost use Rattle.std.specs.List.{AllByRecursion};
ghost use Rattle.fz_strength.specs.Domains.{IsTermOf};
ghost use Rattle.fz_hall.specs.Counts.{IsInSpan, IsTally};

use crate::interval::{Interval, ends_of};
use fz_prop::Store;
use fz_spec::term::Term;

/// How many terms begin and end at each number from a low one on, and whether one that begins there isn't fixed.
#[derive(Clone, Copy)]
pub struct Tally {
    pub span: Interval,
    pub begins: [u8; 64],
    pub ends: [u8; 64],
    pub opens: [bool; 64],
}

/// The numbers from the least to the greatest of all terms.
pub fn span_of(store: &Store, terms: &[Term]) -> Interval
    requires { AllByRecursion (IsTermOf (length store.now.doms)) terms.now }
    ensures { AllByRecursion (IsInSpan store.now.doms result.low result.high) terms.now }
{
    let mut span = Interval {
        low: i32::MAX,
        high: i32::MIN,
    };
    for term in terms {
        let left = ends_of(store, *term);
        span.low = span.low.min(left.low);
        span.high = span.high.max(left.high);
    }
    span
}

/// Whether these are at most 64 numbers, and the terms so few that a byte has their number.
pub fn is_close(terms: &[Term], span: Interval) -> bool
    ensures few { IsTrue result → length terms.now < 256 }
    ensures narrow { IsTrue result → span.high ≤ℤ (span.low +ℤ pos 63) }
{
    terms.len() < 256 && i64::from(span.high) <= i64::from(span.low) + 63
}

/// Counts terms that all lie within a span.
pub fn tally_of(store: &Store, terms: &[Term], span: Interval) -> Tally
    requires terms { AllByRecursion (IsTermOf (length store.now.doms)) terms.now }
    requires span { AllByRecursion (IsInSpan store.now.doms span.low span.high) terms.now }
    requires few { length terms.now < 256 }
    requires narrow { span.high ≤ℤ (span.low +ℤ pos 63) }
    ensures tally { IsTally terms.now store.now.doms result }
    ensures span { result.span ≡ span }
{
    let _ = store.doms();
    let mut begins = [0u8; 64];
    let mut ends = [0u8; 64];
    let mut opens = [false; 64];
    for term in terms {
        let left = ends_of(store, *term);
        let first = offset(left.low, span.low);
        let last = offset(left.high, span.low);
        begins[first] += 1;
        ends[last] += 1;
        if first != last {
            opens[first] = true;
        }
    }
    Tally {
        span,
        begins,
        ends,
        opens,
    }
}

/// How far a number is above another one.
fn offset(number: i32, low: i32) -> usize
    requires from { low ≤ℤ number }
    requires to { number ≤ℤ (low +ℤ pos 63) }
    ensures below { result < 64 }
    ensures at { number ≡ low +ℤ pos result }
{
    number.abs_diff(low) as usize
}
