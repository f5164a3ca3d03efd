//! Sums in 64 bits, where the factors are so small that none overflows.
ghost use Rattle.std.specs.Prelude.{◌≡◌, ◌↔◌, ℕ, ◌+◌, ◌^◌, ◌≤◌, pos, ◌+ℤ◌, length, unsigned_abs};
ghost use Rattle.fz_strength.specs.Domains.{AreDomains};
ghost use Rattle.fz_strength.specs.Sums.{least_sum, greatest_sum, AreNear};
ghost use Rattle.fz_linear.specs.Terms.{AreTermsOf};
ghost use Rattle.fz_linear.specs.Precisions.{AreLight, IsWeighted};
ghost use Rattle.fz_linear.specs.declared.narrow.Precision.TheVariants.{Narrow};

use crate::sums::{Ends, product_ends, sum_ends, wider, width};
use fz_prop::Store;
use fz_spec::term::Term;

/// How many bits hold each partial sum: 64, or 128.
#[derive(Clone, Copy)]
pub enum Precision {
    Narrow,
    Wide,
}

/// Terms with their factors, and in how many bits their sum is added up.
#[derive(Clone, Copy)]
pub struct Weighted<'a> {
    pub factors: &'a [i32],
    pub terms: &'a [Term],
    pub precision: Precision,
}

/// The most that the sizes of factors add up to where sums are narrow: with numbers of 32 bits they then stay within 2^62.
const MOST: u32 = 1 << 31;

/// Whether 64 bits hold each partial sum with these factors, whatever the terms are.
pub fn precision_of(factors: &[i32]) -> Precision
    ensures { (result ≡ Narrow) ↔ AreLight factors.now }
{
    let mut left = MOST;
    for i in 0..factors.len() {
        match left.checked_sub(factors[i].unsigned_abs()) {
            Some(less) => left = less,
            None => return Precision::Wide,
        }
    }
    Precision::Narrow
}

/// A sum and one more product, which together stay within 2^62.
fn add_narrow(sum: i64, product: i64) -> i64
    requires { unsigned_abs sum + unsigned_abs product ≤ 2 ^ 62 }
    ensures sum { result ≡ sum +ℤ product }
    ensures near { unsigned_abs result ≤ unsigned_abs sum + unsigned_abs product }
{
    sum + product
}

/// The ends of a sum, as `sum_ends` gives them, added up in 64 bits.
#[inline(always)]
fn narrow_ends(store: &Store, factors: &[i32], terms: &[Term]) -> Ends
    requires same { length factors.now ≡ length terms.now }
    requires light { AreLight factors.now }
    requires inside { AreTermsOf (length store.now.doms) terms.now }
    ensures least { result.least ≡ least_sum store.now.doms factors.now terms.now }
    ensures greatest { result.greatest ≡ greatest_sum store.now.doms factors.now terms.now }
    ensures near { unsigned_abs result.least ≤ 2 ^ 90 }
    ensures near_greatest { unsigned_abs result.greatest ≤ 2 ^ 90 }
    ensures loose { (slack : ℕ) → result.widest ≤ slack
        → AreNear store.now.doms (pos slack) factors.now terms.now }
    ensures domains { AreDomains store.now.doms }
{
    let _ = store.doms();
    let (mut least, mut greatest, mut widest) = (0, 0, 0);
    for i in 0..factors.len() {
        let (low, high) = product_ends(store, factors[i], terms[i]);
        least = add_narrow(least, low);
        greatest = add_narrow(greatest, high);
        widest = wider(widest, width(low, high));
    }
    Ends {
        least: i128::from(least),
        greatest: i128::from(greatest),
        widest,
    }
}

/// The least and the greatest that the sum of terms is with their factors, added up in as many bits as those allow.
#[inline(always)]
pub fn ends_of(store: &Store, sum: &Weighted<'_>) -> Ends
    requires law { IsWeighted sum.now }
    requires inside { AreTermsOf (length store.now.doms) sum.now.terms.now }
    ensures least { result.least
        ≡ least_sum store.now.doms sum.now.factors.now sum.now.terms.now }
    ensures greatest { result.greatest
        ≡ greatest_sum store.now.doms sum.now.factors.now sum.now.terms.now }
    ensures near { unsigned_abs result.least ≤ 2 ^ 90 }
    ensures near_greatest { unsigned_abs result.greatest ≤ 2 ^ 90 }
    ensures loose { (slack : ℕ) → result.widest ≤ slack
        → AreNear store.now.doms (pos slack) sum.now.factors.now sum.now.terms.now }
    ensures domains { AreDomains store.now.doms }
{
    match sum.precision {
        Precision::Narrow => narrow_ends(store, sum.factors, sum.terms),
        Precision::Wide => sum_ends(store, sum.factors, sum.terms),
    }
}
