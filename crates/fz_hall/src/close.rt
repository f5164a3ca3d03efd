//! Intervals that terms fill, where all that is left of these lies within 64 numbers.
ghost use Rattle.std.specs.Prelude.{◌≡◌, ◌+◌, ◌<◌, ◌≤ℤ◌, ◌+ℤ◌, ℕ, pos, false, length, count_by, IsNone};
ghost use Rattle.std.specs.List.{AllByRecursion};
ghost use Rattle.fz_strength.specs.Domains.{IsTermOf};
ghost use Rattle.fz_strength.specs.Differences.{AreSpread, IsSpread, interval_size};
ghost use Rattle.fz_hall.specs.Counts.{AreSpreadOn, IsExcess, IsInSpan, IsSeenAt, IsTally, IsWidth, begins_in, ends_in};

use crate::counts::{Tally, tally_of};
use crate::interval::{Interval, count_confined};
use fz_prop::Store;
use fz_spec::term::Term;

/// An interval that terms fill, or that has too many; `None` where none has too many, nor is crossed. From each number on at which one
/// begins it is looked how many begin and end up to another number, from the last number to the first. Those that end are fewer than the
/// numbers, wherever one stops, if they exceed these by less than 0 at most.
pub fn crossed_interval(store: &Store, terms: &[Term], span: Interval) -> Option<Interval>
    requires terms { AllByRecursion (IsTermOf (length store.now.doms)) terms.now }
    requires span { AllByRecursion (IsInSpan store.now.doms span.low span.high) terms.now }
    requires few { length terms.now < 256 }
    requires narrow { span.high ≤ℤ (span.low +ℤ pos 63) }
    ensures { IsNone result → AreSpread terms.now store.now.doms }
{
    let _ = store.doms();
    let tally = tally_of(store, terms, span);
    let width = width_of(span);
    let mut excess = -1;
    for back in 0..width {
        let place = width - 1 - back;
        excess = more(excess, tally.ends[place]);
        if let Some(interval) = crossed_at(store, terms, &tally, place, excess) {
            return Some(interval);
        }
    }
    None
}

/// How many numbers a span has.
fn width_of(span: Interval) -> usize
    requires { span.high ≤ℤ (span.low +ℤ pos 63) }
    ensures { IsWidth span.low span.high result }
{
    if span.high < span.low {
        return 0;
    }
    span.high.abs_diff(span.low) as usize + 1
}

/// By how much those that end exceed the numbers, from one number on at most, by the same of the next one.
fn more(excess: i64, ends: u8) -> i64
    requires { excess ≤ℤ pos 100000 }
    ensures alone { pos ends ≤ℤ (result +ℤ pos 1) }
    ensures both { (excess +ℤ pos ends) ≤ℤ (result +ℤ pos 1) }
    ensures bound { (k : ℕ) → excess ≤ℤ pos k → result ≤ℤ pos (k + 255) }
{
    excess.max(0) + i64::from(ends) - 1
}

/// The same of the intervals from one number on.
fn crossed_at(
    store: &Store,
    terms: &[Term],
    tally: &Tally,
    place: usize,
    excess: i64,
) -> Option<Interval>
    requires terms { AllByRecursion (IsTermOf (length store.now.doms)) terms.now }
    requires tally { IsTally terms.now store.now.doms tally.now }
    requires place { place < 64 }
    requires within { (tally.now.span.low +ℤ pos place) ≤ℤ tally.now.span.high }
    requires excess { IsExcess terms.now store.now.doms (tally.now.span.low +ℤ pos place) tally.now.span.high excess }
    ensures { IsNone result
        → IsSeenAt terms.now store.now.doms (tally.now.span.low +ℤ pos place) }
{
    let _ = store.doms();
    let begins = tally.begins[place];
    if begins == 0 {
        return None;
    }
    if !tally.opens[place] && begins == 1 && tally.ends[place] <= 1 {
        return None;
    }
    if excess < 0 {
        return None;
    }
    crossed_from(store, terms, tally, place)
}

/// An interval from a number on that terms fill and others cross, or that has too many.
fn crossed_from(store: &Store, terms: &[Term], tally: &Tally, place: usize) -> Option<Interval>
    requires terms { AllByRecursion (IsTermOf (length store.now.doms)) terms.now }
    requires tally { IsTally terms.now store.now.doms tally.now }
    requires place { place < 64 }
    requires within { (tally.now.span.low +ℤ pos place) ≤ℤ tally.now.span.high }
    ensures { IsNone result
        → AreSpreadOn terms.now store.now.doms (tally.now.span.low +ℤ pos place) }
{
    let _ = store.doms();
    let low = number_at(tally.span, place);
    let mut begins = 0;
    let mut ends = 0;
    for last in place..width_of(tally.span) {
        begins += usize::from(tally.begins[last]);
        ends += usize::from(tally.ends[last]);
        let interval = Interval {
            low,
            high: number_at(tally.span, last),
        };
        if is_crossed(store, terms, interval, last - place + 1, begins, ends) {
            return Some(interval);
        }
    }
    None
}

/// The number at a place of a span.
fn number_at(span: Interval, place: usize) -> i32
    requires place { place < 64 }
    requires within { (span.low +ℤ pos place) ≤ℤ span.high }
    ensures { result ≡ span.low +ℤ pos place }
{
    span.low + place as i32
}

/// Whether an interval of some size has too many terms, or as many, and another one begins or ends there. That many begin there, and
/// that many end.
fn is_crossed(
    store: &Store,
    terms: &[Term],
    interval: Interval,
    size: usize,
    begins: usize,
    ends: usize,
) -> bool
    requires terms { AllByRecursion (IsTermOf (length store.now.doms)) terms.now }
    requires size { interval_size interval.low interval.high ≡ pos size }
    requires begins { begins ≡ count_by (begins_in store.now.doms interval.low interval.high) terms.now }
    requires ends { ends ≡ count_by (ends_in store.now.doms interval.low interval.high) terms.now }
    ensures { result ≡ false → IsSpread terms.now store.now.doms interval.low interval.high }
{
    let _ = store.doms();
    if begins < size || ends < size {
        return false;
    }
    if begins == size && ends == size {
        return false;
    }
    count_confined(store, terms, interval) >= size
}
