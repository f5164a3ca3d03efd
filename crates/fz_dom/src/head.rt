//! The part of a domain that is copied as it is.
ghost use Rattle.std.specs.Prelude.{◌≡◌, ◌<◌, ◌≤ℤ◌, ◌<ℤ◌, ◌+ℤ◌, ◌^◌, ◌↔◌, ◌⊎◌, ℕ, ℤ, pos, neg_ℤ, List, [], ◌∷◌, length, slice_index_or, IsTrue};
ghost use Rattle.fz_sets.specs.Sets.{AreRanges, AreWithinLimits, IsWithinLimits, IsInSet, LEAST, GREATEST};
ghost use Rattle.std.specs.Int.{bit_at};

use crate::change::Change;
use crate::rising::{size_of, word_of};
use crate::window::{rebased, window_of};
use fz_bits::word::{bits_above, common, first_run, has_bit, run_of, without};

/// The highest number that the lowest bit of a word may stand for, so that each of its bits stands for a number within
/// the limits.
pub const HIGHEST_BASE: i32 = 2147483583;

/// The ends and the size of a domain, and a word of bits where it has holes and is at most 64 wide.
#[derive(Clone, Copy)]
pub struct Head {
    /// The least number, or 0 where there is none.
    pub low: i32,
    /// The greatest number, or 0 where there is none.
    pub high: i32,
    /// The number that the lowest bit stands for.
    pub base: i32,
    /// How many numbers there are.
    pub size: u32,
    /// The numbers as bits, or 0 where there is no hole.
    pub bits: u64,
}

impl Head {
    ghost use Rattle.fz_dom.specs.Places.{IsBit, bit_ranges};
    ghost use Rattle.fz_dom.specs.Shape.{IsNextFrom};
    ghost use Rattle.fz_dom.specs.Heads.{head_set, IsHeadOf, IsWhole};
    ghost use Rattle.fz_dom.specs.Changes.{IsChange, IsFromTo};

    /// No number.
    pub fn empty() -> Head
        ensures whole { IsWhole result }
        ensures set { head_set result ≡ [] }
    {
        Head {
            low: 0,
            high: 0,
            base: 0,
            size: 0,
            bits: 0,
        }
    }

    /// The numbers from a low to a high, both among them.
    pub fn interval(low: i32, high: i32) -> Head
        requires low { IsWithinLimits low }
        requires high { IsWithinLimits high }
        requires order { low ≤ℤ high }
        ensures whole { IsWhole result }
        ensures set { head_set result ≡ (low, high) ∷ [] }
    {
        Head {
            low,
            high,
            base: 0,
            size: high.abs_diff(low) + 1,
            bits: 0,
        }
    }

    /// The numbers of a word.
    pub fn from_word(base: i32, bits: u64) -> Head
        requires floor { LEAST ≤ℤ base }
        requires ceiling { (base +ℤ pos 63) ≤ℤ GREATEST }
        requires some { 0 < bits }
        ensures whole { IsWhole result }
        ensures set { head_set result ≡ bit_ranges base bits }
        ensures base { result.base ≡ base }
        ensures bits { result.bits ≡ bits }
    {
        Head {
            low: base + bits.trailing_zeros() as i32,
            high: base + 63 - bits.leading_zeros() as i32,
            base,
            size: bits.count_ones(),
            bits,
        }
    }

    /// The numbers that are left of a word's, which have some of its bits.
    #[inline(always)]
    pub fn keep_bits(&mut self, kept: u64) -> Change
        requires whole { IsWhole self.old }
        requires bits { 0 < self.old.bits }
        requires among { (i : ℕ) → i < 64 → bit_at kept i ≡ 1 → bit_at self.old.bits i ≡ 1 }
        ensures whole { IsWhole self.new }
        ensures change { IsChange result (λ x. IsBit self.old.base kept x)
            (head_set self.old) (head_set self.new) }
    {
        if kept == self.bits {
            return Change::Same;
        }
        if kept == 0 {
            return Change::Wiped;
        }
        *self = Head::from_word(self.base, kept);
        Change::Changed
    }

    /// The bit that stands for a number.
    fn place(&self, value: i32) -> u32
        requires whole { IsWhole self.now }
        requires bits { 0 < self.now.bits }
        requires low { self.now.low ≤ℤ value }
        requires high { value ≤ℤ self.now.high }
        ensures at { value ≡ self.now.base +ℤ pos result }
        ensures below { result < 64 }
    {
        value.abs_diff(self.base)
    }

    /// Keeps the numbers from a low to a high, both among them.
    #[inline(always)]
    pub fn keep_range(&mut self, low: i32, high: i32) -> Change
        requires whole { IsWhole self.old }
        ensures whole { IsWhole self.new }
        ensures change { IsChange result (λ x. IsFromTo low high x)
            (head_set self.old) (head_set self.new) }
    {
        if high < self.low || self.high < low || high < low || self.size == 0 {
            return Change::Wiped;
        }
        if low <= self.low && self.high <= high {
            return Change::Same;
        }
        self.keep_part(low.max(self.low), high.min(self.high))
    }

    /// Keeps a part, whose ends lie between its own, and isn't all of it.
    #[inline(always)]
    fn keep_part(&mut self, low: i32, high: i32) -> Change
        requires whole { IsWhole self.old }
        requires some { 0 < self.old.size }
        requires from { self.old.low ≤ℤ low }
        requires to { high ≤ℤ self.old.high }
        requires order { low ≤ℤ high }
        requires part { (self.old.low <ℤ low) ⊎ (high <ℤ self.old.high) }
        ensures whole { IsWhole self.new }
        ensures change { IsChange result (λ x. IsFromTo low high x)
            (head_set self.old) (head_set self.new) }
    {
        if self.bits != 0 {
            let part = run_of(self.place(low), self.place(high));
            return self.keep_bits(common(self.bits, part));
        }
        *self = Head::interval(low, high);
        Change::Changed
    }

    /// Its numbers, with a word for them.
    fn in_bits(self) -> Head
        requires whole { IsWhole self }
        requires some { 0 < self.size }
        requires plain { self.bits ≡ 0 }
        requires narrow { self.high ≤ℤ (self.low +ℤ pos 63) }
        ensures whole { IsWhole result }
        ensures same { head_set result ≡ head_set self }
        ensures bits { 0 < result.bits }
        ensures low { result.low ≡ self.low }
        ensures high { result.high ≡ self.high }
    {
        let base = self.low.min(HIGHEST_BASE);
        let bits = run_of(self.low.abs_diff(base), self.high.abs_diff(base));
        Head {
            low: self.low,
            high: self.high,
            base,
            size: self.size,
            bits,
        }
    }

    /// Removes the numbers from a low to a high, both among them, where it is at most 64 wide.
    pub fn cut(&mut self, low: i32, high: i32) -> Change
        requires whole { IsWhole self.old }
        requires some { 0 < self.old.size }
        requires narrow { self.old.high ≤ℤ (self.old.low +ℤ pos 63) }
        requires from { self.old.low ≤ℤ low }
        requires to { high ≤ℤ self.old.high }
        requires order { low ≤ℤ high }
        ensures whole { IsWhole self.new }
        ensures change { IsChange result (λ x. IsFromTo low high x → ⊥)
            (head_set self.old) (head_set self.new) }
    {
        if self.bits == 0 {
            *self = self.in_bits();
        }
        self.cut_bits(low, high)
    }

    fn cut_bits(&mut self, low: i32, high: i32) -> Change
        requires whole { IsWhole self.old }
        requires bits { 0 < self.old.bits }
        requires from { self.old.low ≤ℤ low }
        requires to { high ≤ℤ self.old.high }
        requires order { low ≤ℤ high }
        ensures whole { IsWhole self.new }
        ensures change { IsChange result (λ x. IsFromTo low high x → ⊥)
            (head_set self.old) (head_set self.new) }
    {
        let part = run_of(self.place(low), self.place(high));
        self.keep_bits(without(self.bits, part))
    }

    /// Whether a number is one of them.
    #[inline(always)]
    pub fn contains(&self, value: i32) -> bool
        requires { IsWhole self.now }
        ensures { IsTrue result ↔ IsInSet (head_set self.now) value }
    {
        if value < self.low || self.high < value || self.size == 0 {
            return false;
        }
        self.bits == 0 || has_bit(self.bits, self.place(value))
    }

    /// Its numbers as bits, where bit 0 stands for a base.
    pub fn word_at(&self, base: i64) -> u64
        requires whole { IsWhole self.now }
        requires floor { neg_ℤ (pos (2 ^ 40)) ≤ℤ base }
        requires ceiling { base ≤ℤ pos (2 ^ 40) }
        ensures { (i : ℕ) → i < 64
            → (bit_at result i ≡ 1) ↔ IsInSet (head_set self.now) (base +ℤ pos i) }
    {
        if self.bits != 0 {
            return rebased(self.bits, self.base, base);
        }
        if self.size == 0 {
            return 0;
        }
        window_of(self.low, self.high, base)
    }

    /// The least of its numbers at or above a value between its ends.
    pub fn next_from(&self, value: i32) -> i32
        requires whole { IsWhole self.now }
        requires some { 0 < self.now.size }
        requires low { self.now.low ≤ℤ value }
        requires high { value ≤ℤ self.now.high }
        ensures { IsNextFrom (head_set self.now) value result }
    {
        if self.bits == 0 {
            return value;
        }
        let above = common(self.bits, run_of(self.place(value), 63));
        self.base + above.trailing_zeros() as i32
    }

    /// What is kept of rising ranges: the word too where they are several and at most 64 wide.
    pub fn of(ranges: &[(i32, i32)]) -> Head
        requires ranges { AreRanges ranges.now }
        requires within { AreWithinLimits ranges.now }
        requires some { 0 < length ranges.now }
        ensures head { IsHeadOf result ranges.now }
        ensures word { 0 < result.bits → head_set result ≡ ranges.now }
        ensures one { length ranges.now ≡ 1 → head_set result ≡ ranges.now }
        ensures wide { (0 < result.bits)
            ⊎ ((length ranges.now ≡ 1) ⊎ ((result.low +ℤ pos 63) <ℤ result.high)) }
    {
        let low = ranges[0].0;
        let high = ranges[ranges.len() - 1].1;
        let size = size_of(ranges);
        if ranges.len() == 1 || high.abs_diff(low) >= 64 {
            return Head {
                low,
                high,
                base: 0,
                size,
                bits: 0,
            };
        }
        let base = low.min(HIGHEST_BASE);
        let bits = word_of(ranges, i64::from(base));
        Head {
            low,
            high,
            base,
            size,
            bits,
        }
    }

    /// How many ranges there are.
    pub fn range_count(&self) -> usize
        requires { IsWhole self.now }
        ensures { result ≡ length (head_set self.now) }
    {
        if self.bits == 0 {
            return usize::from(self.size != 0);
        }
        let mut word = self.bits;
        let mut count = 0;
        while word != 0 {
            word = bits_above(word, first_run(word).1);
            count += 1;
        }
        count
    }

    /// The range at a place, counted from 0.
    pub fn range_at(&self, index: usize) -> (i32, i32)
        requires whole { IsWhole self.now }
        requires index { index < length (head_set self.now) }
        ensures { result ≡ slice_index_or (head_set self.now) index (pos 0, pos 0) }
    {
        if self.bits == 0 {
            return (self.low, self.high);
        }
        let mut word = self.bits;
        for passed in 0..index {
            word = bits_above(word, first_run(word).1);
        }
        let (first, last) = first_run(word);
        (self.base + first as i32, self.base + last as i32)
    }
}
