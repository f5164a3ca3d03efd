//! Bounds that the ends of terms give.
ghost use Rattle.std.specs.Prelude.{◌≡◌, ◌<◌, ℤ, pos, neg_ℤ, ◌<ℤ◌, int_div, int_lt, List, [], ◌∷◌, ◌⊎◌, length, map, if◌then◌else◌};
ghost use Rattle.std.specs.Int.{int_min, int_max};
ghost use Rattle.std.specs.List.{AllByRecursion, fold};
ghost use Rattle.fz_sets.specs.Sets.{IsInSet};
ghost use Rattle.fz_dom.specs.Changes.{IsFromTo};
ghost use Rattle.fz_strength.specs.Domains.{term_set, IsTermOf};
ghost use Rattle.fz_strength.specs.Operations.{size_between, least_size, low_of, high_of, between, own_bounds, corner_bounds, difference_bounds, quotient_bounds, remainder_bounds, signed_bounds, result_bounds};
ghost use Rattle.fz_spec.specs.declared.shape.Operation.TheVariants.{Plus, Times, Abs};
ghost use Rattle.fz_arith.specs.Extremes.{pick};

use fz_dom::Dom;
use fz_prop::Store;
use fz_prop::terms::{greatest_of, least_of};
use fz_ranges::numbers::{difference, negative, product, quotient, remainder, sum};
use fz_spec::shape::Operation;
use fz_spec::term::Term;
use fz_strength::bounds::Bounds;

/// A term between the least and the greatest of four numbers.
pub fn around(term: Term, a: i64, b: i64, c: i64, d: i64) -> Bounds
    ensures { result ≡ between term (fold int_min a (b ∷ c ∷ d ∷ []))
        (fold int_max a (b ∷ c ∷ d ∷ [])) }
{
    Bounds {
        term,
        low: a.min(b).min(c).min(d),
        high: a.max(b).max(c).max(d),
    }
}

/// The bounds of a sum.
pub fn sum_bounds(store: &Store, x: Term, y: Term, value: Term) -> Bounds
    requires x { IsTermOf (length store.now.doms) x }
    requires y { IsTermOf (length store.now.doms) y }
    ensures { result ≡ result_bounds Plus (x ∷ y ∷ []) value store.now.doms }
{
    Bounds {
        term: value,
        low: sum(least_of(store, x), least_of(store, y)),
        high: sum(greatest_of(store, x), greatest_of(store, y)),
    }
}

/// The bounds of a summand, by the other and the sum.
pub fn difference_bounds(store: &Store, x: Term, y: Term, value: Term) -> Bounds
    requires y { IsTermOf (length store.now.doms) y }
    requires value { IsTermOf (length store.now.doms) value }
    ensures { result ≡ difference_bounds x y value store.now.doms }
{
    Bounds {
        term: x,
        low: difference(least_of(store, value), greatest_of(store, y)),
        high: difference(greatest_of(store, value), least_of(store, y)),
    }
}

/// The bounds of a product.
pub fn product_bounds(store: &Store, x: Term, y: Term, value: Term) -> Bounds
    requires x { IsTermOf (length store.now.doms) x }
    requires y { IsTermOf (length store.now.doms) y }
    ensures { result ≡ result_bounds Times (x ∷ y ∷ []) value store.now.doms }
{
    let (low, high) = (least_of(store, y), greatest_of(store, y));
    let (first, last) = (least_of(store, x), greatest_of(store, x));
    around(
        value,
        product(first, low),
        product(first, high),
        product(last, low),
        product(last, high),
    )
}

/// A term between its own ends.
pub fn own_bounds(store: &Store, term: Term) -> Bounds
    requires { IsTermOf (length store.now.doms) term }
    ensures bounds { result ≡ own_bounds term store.now.doms }
    ensures between { (u : ℤ) → IsInSet (term_set store.now.doms term) u
        → IsFromTo result.low result.high u }
{
    Bounds {
        term,
        low: i64::from(least_of(store, term)),
        high: i64::from(greatest_of(store, term)),
    }
}

/// The bounds of what a quotient leaves.
pub fn remainder_bounds(store: &Store, x: Term, y: Term, value: Term) -> Bounds
    requires x { IsTermOf (length store.now.doms) x }
    requires y { IsTermOf (length store.now.doms) y }
    requires value { IsTermOf (length store.now.doms) value }
    ensures { result ≡ remainder_bounds x y value store.now.doms }
{
    let (first, low) = (least_of(store, x), least_of(store, y));
    if first == greatest_of(store, x) && low == greatest_of(store, y) {
        let only = remainder(first, low);
        return Bounds {
            term: value,
            low: only,
            high: only,
        };
    }
    own_bounds(store, value)
}

/// The bounds of a factor, by the other and the product; or of a quotient, by the divisor and what is divided.
pub fn quotient_bounds(store: &Store, x: Term, y: Term, value: Term) -> Bounds
    requires x { IsTermOf (length store.now.doms) x }
    requires y { IsTermOf (length store.now.doms) y }
    requires value { IsTermOf (length store.now.doms) value }
    ensures { result ≡ quotient_bounds x y value store.now.doms }
{
    if 0 < least_of(store, y) {
        return quotients(store, x, y, value);
    }
    if greatest_of(store, y) < 0 {
        return quotients(store, x, y, value);
    }
    own_bounds(store, x)
}

/// The bounds of a factor whose other factor has numbers of one sign alone: the hull of the quotients.
fn quotients(store: &Store, x: Term, y: Term, value: Term) -> Bounds
    requires y { IsTermOf (length store.now.doms) y }
    requires value { IsTermOf (length store.now.doms) value }
    requires sign { (pos 0 <ℤ low_of store.now.doms y) ⊎ (high_of store.now.doms y <ℤ pos 0) }
    ensures { result ≡ corner_bounds int_div value y x store.now.doms }
{
    let (low, high) = (least_of(store, y), greatest_of(store, y));
    let (first, last) = (least_of(store, value), greatest_of(store, value));
    around(
        x,
        quotient(first, low),
        quotient(first, high),
        quotient(last, low),
        quotient(last, high),
    )
}

/// The least size of a number between two.
fn size_between(low: i32, high: i32) -> i64
    ensures { result ≡ size_between (low, high) }
{
    i64::from(low).max(negative(high)).max(0)
}

/// The least size of a number of a set.
fn least_size_in(set: &Dom) -> i64
    requires { 0 < length set.now }
    ensures { result ≡ least_size set.now }
{
    let (low, high) = (set.min(), set.max());
    if 0 <= low {
        return i64::from(low);
    }
    if high <= 0 {
        return negative(high);
    }
    least_size_of_ranges(set)
}

/// The least size of a number of a set, by its ranges.
fn least_size_of_ranges(set: &Dom) -> i64
    requires { 0 < length set.now }
    ensures { result ≡ least_size set.now }
{
    let (low, high) = set.range_at(0);
    let mut least = size_between(low, high);
    'sizes: for index in 1..set.range_count() {
        let (low, high) = set.range_at(index);
        least = least.min(size_between(low, high));
    }
    least
}

/// The least size of a number that is left of a term.
fn least_size_of(store: &Store, term: Term) -> i64
    requires { IsTermOf (length store.now.doms) term }
    ensures { result ≡ least_size (term_set store.now.doms term) }
{
    match term {
        Term::Var(variable) => least_size_in(store.dom(variable)),
        Term::Num(number) => size_between(number, number),
    }
}

/// The bounds of an absolute value.
pub fn size_bounds(store: &Store, x: Term, value: Term) -> Bounds
    requires { IsTermOf (length store.now.doms) x }
    ensures { result ≡ result_bounds Abs (x ∷ []) value store.now.doms }
{
    let (low, high) = (least_of(store, x), greatest_of(store, x));
    Bounds {
        term: value,
        low: least_size_of(store, x),
        high: i64::from(high).max(negative(low)),
    }
}

/// The bounds of a number, by its absolute value.
pub fn signed_bounds(store: &Store, x: Term, value: Term) -> Bounds
    requires x { IsTermOf (length store.now.doms) x }
    requires value { IsTermOf (length store.now.doms) value }
    ensures { result ≡ signed_bounds x value store.now.doms }
{
    let (low, high) = (least_of(store, value), greatest_of(store, value));
    Bounds {
        term: x,
        low: lowest_signed(least_of(store, x), low, high),
        high: highest_signed(greatest_of(store, x), low, high),
    }
}

/// The least number at or above another whose absolute value may lie from a low to a high.
fn lowest_signed(least: i32, low: i32, high: i32) -> i64
    ensures { result ≡ (if int_lt (neg_ℤ low) least then low else neg_ℤ high) }
{
    if negative(low) < i64::from(least) {
        i64::from(low)
    } else {
        negative(high)
    }
}

/// The greatest number at or below another whose absolute value may lie from a low to a high.
fn highest_signed(greatest: i32, low: i32, high: i32) -> i64
    ensures { result ≡ (if int_lt greatest low then neg_ℤ low else high) }
{
    if greatest < low {
        negative(low)
    } else {
        i64::from(high)
    }
}

/// The lesser of two, or the greater.
fn pick(operation: Operation, x: i32, y: i32) -> i32
    ensures { result ≡ pick operation x y }
{
    match operation {
        Operation::Min => x.min(y),
        _ => x.max(y),
    }
}

/// The bounds of the least, or of the greatest, of terms.
pub fn extreme_bounds(
    store: &Store,
    operation: Operation,
    first: Term,
    rest: &[Term],
    value: Term,
) -> Bounds
    requires first { IsTermOf (length store.now.doms) first }
    requires rest { AllByRecursion (IsTermOf (length store.now.doms)) rest.now }
    ensures { result ≡ between value
        (fold (pick operation) (low_of store.now.doms first)
        (map (low_of store.now.doms) rest.now))
        (fold (pick operation) (high_of store.now.doms first)
        (map (high_of store.now.doms) rest.now)) }
{
    let (mut low, mut high) = (least_of(store, first), greatest_of(store, first));
    for term in rest {
        low = pick(operation, low, least_of(store, *term));
        high = pick(operation, high, greatest_of(store, *term));
    }
    Bounds {
        term: value,
        low: i64::from(low),
        high: i64::from(high),
    }
}
