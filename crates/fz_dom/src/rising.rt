//! Rising ranges: how many numbers are in them, what follows a value, and what is left of them.
ghost use Rattle.std.specs.Prelude.{◌≡◌, ◌<◌, ◌≤◌, ◌≤ℤ◌, ◌+ℤ◌, ◌↔◌, ◌⊎◌, ◌++◌, ◌^◌, neg_ℤ, ℕ, ℤ, pos, true, false, List, [], ◌∷◌, length, drop, MatchOption, IfOk};
ghost use Rattle.fz_sets.specs.Sets.{AreRanges, AreWithinLimits, IsInSet, IsWithinLimits, set_size};
ghost use Rattle.fz_dom.specs.Shape.{IsNextFrom, IsNoneFrom};
ghost use Rattle.std.specs.Int.{bit_at};
ghost use Rattle.fz_dom.specs.Changes.{IsFromTo};
ghost use Rattle.fz_dom.specs.Wide.{cut_ranges, IsPart};

use crate::window::window_of;
use fz_bits::word::either;
use smallvec::SmallVec;
use std::alloc::{AllocError, Global};

/// How many numbers are in rising ranges within the limits.
pub fn size_of(ranges: &[(i32, i32)]) -> u32
    requires ranges { AreRanges ranges.now }
    requires within { AreWithinLimits ranges.now }
    ensures { result ≡ set_size ranges.now }
{
    let mut size = 0;
    for r in ranges {
        size += r.1.abs_diff(r.0) + 1;
    }
    size
}

/// The least number in rising ranges at or above a value, if there is one.
pub fn next_in(ranges: &[(i32, i32)], value: i32) -> Option<i32>
    requires { AreRanges ranges.now }
    ensures { MatchOption result (IsNoneFrom ranges.now value)
        (λ y. IsNextFrom ranges.now value y) }
{
    let at = ranges.partition_point(|r| r.1 < value);
    let range = ranges.get(at)?;
    Some(range.0.max(value))
}

/// Whether a number of rising ranges lies between a low and a high, or is one of them.
pub fn has_between(ranges: &[(i32, i32)], low: i32, high: i32) -> bool
    requires { AreRanges ranges.now }
    ensures some { result ≡ true → (y : ℤ) × IsInSet ranges.now y × IsFromTo low high y }
    ensures none { result ≡ false → (y : ℤ) → IsInSet ranges.now y → IsFromTo low high y → ⊥ }
{
    match next_in(ranges, low) {
        Some(next) => next <= high,
        None => false,
    }
}

/// Keeps the numbers of ranges from a low to a high, both among them.
pub fn keep_between(ranges: &mut SmallVec<(i32, i32), 2>, low: i32, high: i32)
    requires ranges { AreRanges ranges.old.items }
    requires within { AreWithinLimits ranges.old.items }
    requires low { IsWithinLimits low }
    requires high { IsWithinLimits high }
    ensures { IsPart (λ x. IsFromTo low high x) ranges.old.items ranges.new.items }
{
    keep_low(ranges, high);
    keep_high(ranges, low);
}

/// The ranges without the numbers from a low to a high, both among them.
pub fn cut(
    alloc: Global,
    ranges: &[(i32, i32)],
    low: i32,
    high: i32,
) -> Result<SmallVec<(i32, i32), 2>, AllocError>
    requires low { IsWithinLimits low }
    requires high { IsWithinLimits high }
    ensures { IfOk result (λ v. v.items ≡ cut_ranges low high ranges.now) }
{
    let mut kept = SmallVec::new(alloc);
    for r in ranges {
        if r.0 < low {
            kept.push((r.0, r.1.min(low - 1)))?;
        }
        if high < r.1 {
            kept.push((r.0.max(high + 1), r.1))?;
        }
    }
    Ok(kept)
}

/// Drops the ranges, and the part of one, that lie above a value.
fn keep_low(ranges: &mut SmallVec<(i32, i32), 2>, high: i32)
    requires ranges { AreRanges ranges.old.items }
    requires within { AreWithinLimits ranges.old.items }
    requires high { IsWithinLimits high }
    ensures { IsPart (λ x. x ≤ℤ high) ranges.old.items ranges.new.items }
{
    let count = ranges.as_slice().partition_point(|r| r.0 <= high);
    ranges.truncate(count);
    if let Some(last) = ranges.get_mut(count.saturating_sub(1)) {
        last.1 = last.1.min(high);
    }
}

/// Drops the ranges, and the part of one, that lie below a value.
fn keep_high(ranges: &mut SmallVec<(i32, i32), 2>, low: i32)
    requires ranges { AreRanges ranges.old.items }
    requires within { AreWithinLimits ranges.old.items }
    requires low { IsWithinLimits low }
    ensures { IsPart (λ x. low ≤ℤ x) ranges.old.items ranges.new.items }
{
    let from = ranges.as_slice().partition_point(|r| r.1 < low);
    keep_places_from(ranges, from);
    if let Some(first) = ranges.get_mut(0) {
        first.0 = first.0.max(low);
    }
}

/// Drops the first places.
fn keep_places_from(ranges: &mut SmallVec<(i32, i32), 2>, from: usize)
    requires { from ≤ length ranges.old.items }
    ensures { ranges.new.items ≡ drop from ranges.old.items }
{
    let left = ranges.len() - from;
    ranges.as_mut_slice().copy_within(from.., 0);
    ranges.truncate(left);
}

/// The bits of the numbers of ranges, where bit 0 stands for a base.
pub fn word_of(ranges: &[(i32, i32)], base: i64) -> u64
    requires ranges { AreRanges ranges.now }
    requires floor { neg_ℤ (pos (2 ^ 40)) ≤ℤ base }
    requires ceiling { base ≤ℤ pos (2 ^ 40) }
    ensures { (i : ℕ) → i < 64 → (bit_at result i ≡ 1) ↔ IsInSet ranges.now (base +ℤ pos i) }
{
    let mut word = 0;
    for r in ranges {
        word = either(word, window_of(r.0, r.1, base));
    }
    word
}
