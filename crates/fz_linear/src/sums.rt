//! The ends of products and sums.
ghost use Rattle.std.specs.Prelude.{◌≡◌, ◌↔◌, ℕ, ◌+◌, ◌*◌, ◌^◌, ◌≤◌, pos, ◌+ℤ◌, ◌-ℤ◌, ◌*ℤ◌, ◌≤ℤ◌, length, unsigned_abs, IsTrue};
ghost use Rattle.fz_spec.specs.declared.limits.TheConstants.{ELEMENT_LIMIT};
ghost use Rattle.fz_strength.specs.Domains.{term_set, AreDomains, IsTermOf};
ghost use Rattle.fz_strength.specs.Sums.{least_product, greatest_product, least_sum, greatest_sum, AreNear};
ghost use Rattle.fz_linear.specs.Terms.{AreTermsOf};

use fz_prop::Store;
use fz_prop::terms::{greatest_of, least_of};
use fz_spec::term::Term;

/// A product, which fits.
pub fn product(factor: i32, number: i32) -> i64
    ensures product { result ≡ factor *ℤ number }
    ensures near { unsigned_abs result ≤ unsigned_abs factor * 2 ^ 31 }
{
    i64::from(factor) * i64::from(number)
}

/// The least and the greatest that a term is with its factor.
pub fn product_ends(store: &Store, factor: i32, term: Term) -> (i64, i64)
    requires { IsTermOf (length store.now.doms) term }
    ensures least { result.0 ≡ least_product factor (term_set store.now.doms term) }
    ensures greatest { result.1 ≡ greatest_product factor (term_set store.now.doms term) }
    ensures near { unsigned_abs result.0 ≤ unsigned_abs factor * 2 ^ 31 }
    ensures near_greatest { unsigned_abs result.1 ≤ unsigned_abs factor * 2 ^ 31 }
{
    let (low, high) = (least_of(store, term), greatest_of(store, term));
    if factor < 0 {
        (product(factor, high), product(factor, low))
    } else {
        (product(factor, low), product(factor, high))
    }
}

/// A sum of that many products, and one more.
fn add(sum: i128, product: i64, count: usize) -> i128
    requires near { unsigned_abs sum ≤ count * 2 ^ 63 }
    requires few { count ≤ ELEMENT_LIMIT }
    ensures sum { result ≡ sum +ℤ product }
    ensures near { unsigned_abs result ≤ (count + 1) * 2 ^ 63 }
{
    sum + i128::from(product)
}

/// The ends of a sum.
#[derive(Clone, Copy)]
pub struct Ends {
    /// The least that it may be.
    pub least: i128,
    /// The greatest.
    pub greatest: i128,
    /// The greatest of no term with its factor is further above its least.
    pub widest: u64,
}

/// How far a number may be above another at most.
pub fn width(low: i64, high: i64) -> u64
    ensures { high ≤ℤ (low +ℤ pos result) }
{
    high.abs_diff(low)
}

/// The greater of two widths.
pub fn wider(first: u64, second: u64) -> u64
    ensures first { first ≤ result }
    ensures second { second ≤ result }
{
    first.max(second)
}

/// Whether each width fits into a slack.
pub fn is_loose(widest: u64, slack: u128) -> bool
    ensures { IsTrue result ↔ (widest ≤ slack) }
{
    u128::from(widest) <= slack
}

/// Whether each width fits into two slacks.
pub fn are_loose(widest: u64, above: u128, below: u128) -> bool
    ensures { IsTrue result ↔ ((widest ≤ above) × (widest ≤ below)) }
{
    is_loose(widest, above) && is_loose(widest, below)
}

/// The least and the greatest that the sum of terms is with their factors.
pub fn sum_ends(store: &Store, factors: &[i32], terms: &[Term]) -> Ends
    requires same { length factors.now ≡ length terms.now }
    requires few { length terms.now ≤ ELEMENT_LIMIT + 1 }
    requires inside { AreTermsOf (length store.now.doms) terms.now }
    ensures least { result.least ≡ least_sum store.now.doms factors.now terms.now }
    ensures greatest { result.greatest ≡ greatest_sum store.now.doms factors.now terms.now }
    ensures near { unsigned_abs result.least ≤ 2 ^ 90 }
    ensures near_greatest { unsigned_abs result.greatest ≤ 2 ^ 90 }
    ensures loose { (slack : ℕ) → result.widest ≤ slack
        → AreNear store.now.doms (pos slack) factors.now terms.now }
    ensures domains { AreDomains store.now.doms }
{
    let _ = store.doms();
    let (mut least, mut greatest, mut widest) = (0, 0, 0);
    for i in 0..factors.len() {
        let (low, high) = product_ends(store, factors[i], terms[i]);
        least = add(least, low, i);
        greatest = add(greatest, high, i);
        widest = wider(widest, width(low, high));
    }
    Ends {
        least,
        greatest,
        widest,
    }
}

/// How far a number is above another.
pub fn gap(low: i128, high: i128) -> u128
    requires rising { low ≤ℤ high }
    requires low { unsigned_abs low ≤ 2 ^ 100 }
    requires high { unsigned_abs high ≤ 2 ^ 100 }
    ensures { pos result ≡ high -ℤ low }
{
    (high - low) as u128
}
