//! Intervals of numbers, and the terms that are confined to one.
ghost use Rattle.std.specs.Prelude.{◌≡◌, length, count_by, pos, ◌+ℤ◌, ◌-ℤ◌};
ghost use Rattle.std.specs.List.{AllByRecursion};
ghost use Rattle.fz_dom.specs.Shape.{least, greatest};
ghost use Rattle.fz_strength.specs.Domains.{term_set, IsTermOf};
ghost use Rattle.fz_strength.specs.Differences.{is_between, is_confined};
ghost use Rattle.fz_hall.specs.Lefts.{is_within};

use fz_prop::Store;
use fz_prop::terms::{greatest_of, least_of};
use fz_spec::term::Term;

/// The numbers from a low one to a high one.
#[derive(Clone, Copy)]
pub struct Interval {
    pub low: i32,
    pub high: i32,
}

impl Interval {
    /// How many numbers it has, where the high one isn't below the low one.
    pub fn size(self) -> i128
        ensures { result ≡ (self.high -ℤ self.low) +ℤ pos 1 }
    {
        i128::from(self.high) - i128::from(self.low) + 1
    }

    /// Whether a number is one of them.
    pub fn has(self, number: i32) -> bool
        ensures { result ≡ is_between self.low self.high number }
    {
        self.low <= number && number <= self.high
    }

    /// Whether all numbers of another one are among its own.
    pub fn contains(self, other: Interval) -> bool
        ensures { result ≡ is_within self.low self.high other }
    {
        self.low <= other.low && other.high <= self.high
    }
}

/// What is left of a term, by its ends.
pub fn ends_of(store: &Store, term: Term) -> Interval
    requires { IsTermOf (length store.now.doms) term }
    ensures low { result.low ≡ least (term_set store.now.doms term) }
    ensures high { result.high ≡ greatest (term_set store.now.doms term) }
{
    Interval {
        low: least_of(store, term),
        high: greatest_of(store, term),
    }
}

/// How many terms are confined to an interval.
pub fn count_confined(store: &Store, terms: &[Term], interval: Interval) -> usize
    requires { AllByRecursion (IsTermOf (length store.now.doms)) terms.now }
    ensures { result ≡ count_by (is_confined store.now.doms interval.low interval.high) terms.now }
{
    let mut count = 0;
    for term in terms {
        if !is_confined(store, *term, interval) {
            continue;
        }
        count += 1;
    }
    count
}

/// Whether all that is left of a term is in an interval.
fn is_confined(store: &Store, term: Term, interval: Interval) -> bool
    requires { IsTermOf (length store.now.doms) term }
    ensures { result ≡ is_confined store.now.doms interval.low interval.high term }
{
    let least = least_of(store, term);
    let greatest = greatest_of(store, term);
    interval.low <= least && greatest <= interval.high
}
