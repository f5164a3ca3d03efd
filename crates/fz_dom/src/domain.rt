//! The domain of a variable.
ghost use Rattle.std.specs.Prelude.{◌≡◌, ℕ, ℤ, pos, neg_ℤ, false, ◌≤ℤ◌, ◌<ℤ◌, ◌+ℤ◌, ◌-ℤ◌, ◌^◌, ◌≤◌, ◌<◌, ◌↔◌, ◌⊎◌, ◌≢◌, List, [], ◌∷◌, length, IfOk, IsOk, OnOk, OnErr, IsTrue, IsNone, IsSome, IfSome, slice_index_or, MatchOption};
ghost use Rattle.std.specs.Int.{bit_at};
ghost use Rattle.fz_sets.specs.Sets.{AreRanges, AreWithinLimits, AreOneSet, IsInSet, IsWithinLimits, set_size, interval, LEAST, GREATEST};
ghost use Rattle.fz_dom.specs.Shape.{IsDomain, least, greatest, IsNextFrom, IsNextAbove, IsNoneFrom, IsNoneAbove};
ghost use Rattle.fz_dom.specs.Changes.{IsChange, IsFromTo};
ghost use Rattle.fz_dom.specs.Kept.{kept_ranges, IsKept};
ghost use Rattle.fz_dom.specs.Wide.{IsPart};
ghost use Rattle.fz_dom.specs.Places.{IsBit, bit_ranges};

use crate::change::Change;
use crate::close::close_word;
use crate::head::Head;
use crate::meet::{base_of, moved, shared};
use crate::range_iter::RangeIter;
use crate::rising::{cut, has_between, keep_between, next_in, size_of, word_of};
use crate::union::union_of;
use fz_bits::Window;
use fz_bits::word::common;
use smallvec::SmallVec;
use std::alloc::{AllocError, Global};
use std::marker::Model;

/// A finite set of whole numbers within the limits of the language, from -2147483646 to 2147483646.
///
/// Contracts see it as the list of its ranges: each a low and a high, both in it, none empty, rising, and with a number
/// between one and the next that isn't in the set.
#[derive(Drop)]
pub struct Dom {
    head: Head,
    /// The ranges where they are several and more than 64 wide, else nothing.
    rest: SmallVec<(i32, i32), 2>,
}

impl Model for Dom {
    ghost use Rattle.std.specs.Prelude.{ℤ, List};
    ghost use Rattle.fz_dom.specs.Kept.{kept_ranges, IsKept};

    ghost Value = { List (ℤ × ℤ) };

    ghost view = { λ d. kept_ranges d.head d.rest.items };

    ghost invariant = { λ d. IsKept d.head d.rest.items };
}

impl Dom {
    /// The union of the ranges, each a low and a high, both in it; a range whose low is above its high is empty.
    ///
    /// # Errors
    /// `AllocError` where there is no memory. A list of at most one range takes none.
    pub fn from_ranges(alloc: Global, ranges: &[(i32, i32)]) -> Result<Dom, AllocError>
        requires { AreWithinLimits ranges.now }
        ensures one_set { IfOk result (λ d. AreOneSet d ranges.now) }
        ensures domain { IfOk result (λ d. IsDomain d) }
        ensures unique { IfOk result
            (λ d. (s : List (ℤ × ℤ)) → AreRanges s → AreOneSet s ranges.now → d ≡ s) }
        ensures one_range { IfOk result
            (λ d. (l u : ℤ) → ranges.now ≡ (l, u) ∷ [] → d ≡ interval l u) }
        ensures succeeds { length ranges.now ≤ 1 → IsOk result }
    {
        match ranges {
            [] => Ok(Dom::empty(alloc)),
            [(low, high)] => Ok(Dom::interval(alloc, *low, *high)),
            _ => match close_word(ranges) {
                Some(window) => Ok(Dom::close(alloc, window)),
                None => Dom::far(alloc, ranges),
            },
        }
    }

    /// The numbers of a window.
    fn close(alloc: Global, window: Window) -> Dom
        requires floor { LEAST ≤ℤ window.base }
        requires ceiling { (window.base +ℤ pos 63) ≤ℤ GREATEST }
        requires some { 0 < window.bits }
        ensures { result ≡ bit_ranges window.base window.bits }
    {
        Dom {
            head: Head::from_word(window.base, window.bits),
            rest: SmallVec::new(alloc),
        }
    }

    /// The union of ranges, however far apart they are.
    fn far(alloc: Global, ranges: &[(i32, i32)]) -> Result<Dom, AllocError>
        requires { AreWithinLimits ranges.now }
        ensures ranges { IfOk result (λ d. AreRanges d) }
        ensures one_set { IfOk result (λ d. AreOneSet d ranges.now) }
    {
        let union = union_of(alloc, ranges)?;
        Dom::from_union(alloc, &union)
    }

    fn empty(alloc: Global) -> Dom
        ensures { result ≡ [] }
    {
        Dom {
            head: Head::empty(),
            rest: SmallVec::new(alloc),
        }
    }

    fn interval(alloc: Global, low: i32, high: i32) -> Dom
        requires low { IsWithinLimits low }
        requires high { IsWithinLimits high }
        ensures { result ≡ interval low high }
    {
        if low > high {
            return Dom::empty(alloc);
        }
        Dom {
            head: Head::interval(low, high),
            rest: SmallVec::new(alloc),
        }
    }

    fn from_union(alloc: Global, ranges: &[(i32, i32)]) -> Result<Dom, AllocError>
        requires ranges { AreRanges ranges.now }
        requires within { AreWithinLimits ranges.now }
        ensures { IfOk result (λ d. d ≡ ranges.now) }
    {
        if ranges.is_empty() {
            return Ok(Dom::empty(alloc));
        }
        Ok(Dom::from_several(SmallVec::from_slice(alloc, ranges)?))
    }

    /// Whether no number is in the set.
    pub fn is_empty(&self) -> bool
        ensures empty { IsTrue result ↔ (length self.now ≡ 0) }
        ensures no_member { IsTrue result ↔ ((x : ℤ) → IsInSet self.now x → ⊥) }
        ensures domain { IsDomain self.now }
    {
        self.head.size == 0
    }

    /// The least number in the set, which isn't empty.
    pub fn min(&self) -> i32
        requires { 0 < length self.now }
        ensures first { result ≡ least self.now }
        ensures member { IsInSet self.now result }
        ensures lower_bound { (x : ℤ) → IsInSet self.now x → result ≤ℤ x }
        ensures limits { IsWithinLimits result }
        ensures domain { IsDomain self.now }
    {
        self.head.low
    }

    /// The greatest number in the set, which isn't empty.
    pub fn max(&self) -> i32
        requires { 0 < length self.now }
        ensures last { result ≡ greatest self.now }
        ensures member { IsInSet self.now result }
        ensures upper_bound { (x : ℤ) → IsInSet self.now x → x ≤ℤ result }
        ensures limits { IsWithinLimits result }
        ensures domain { IsDomain self.now }
    {
        self.head.high
    }

    /// How many numbers are in the set.
    pub fn size(&self) -> u64
        ensures size { result ≡ set_size self.now }
        ensures bound { result ≤ 4294967293 }
        ensures domain { IsDomain self.now }
    {
        u64::from(self.head.size)
    }

    /// Whether exactly one number is in the set.
    pub fn is_fixed(&self) -> bool
        ensures size { IsTrue result ↔ (set_size self.now ≡ 1) }
        ensures one { IsTrue result ↔ ((x : ℤ) × (self.now ≡ (x, x) ∷ [])) }
        ensures domain { IsDomain self.now }
    {
        self.head.size == 1
    }

    /// How many ranges the set has.
    pub fn range_count(&self) -> usize
        ensures count { result ≡ length self.now }
        ensures domain { IsDomain self.now }
    {
        if self.rest.is_empty() {
            self.head.range_count()
        } else {
            self.rest.len()
        }
    }

    /// The range at a place, counted from 0: its low and its high, both in the set.
    pub fn range_at(&self, index: usize) -> (i32, i32)
        requires { index < length self.now }
        ensures range { result ≡ slice_index_or self.now index (pos 0, pos 0) }
        ensures domain { IsDomain self.now }
    {
        if self.rest.is_empty() {
            self.head.range_at(index)
        } else {
            self.rest[index]
        }
    }

    /// The ranges from the lowest up, each a low and a high, both in the set.
    pub fn ranges(&self) -> RangeIter<'_>
        ensures ranges { result ≡ self.now }
        ensures domain { IsDomain self.now }
    {
        if self.rest.is_empty() {
            RangeIter::of_head(&self.head)
        } else {
            RangeIter::of_list(self.rest.as_slice())
        }
    }

    /// Another domain of the same numbers.
    ///
    /// # Errors
    /// `AllocError` where there is no memory for its ranges. A domain of at most one range, or at most 64 wide, takes none.
    pub fn copy(&self) -> Result<Dom, AllocError>
        ensures same { IfOk result (λ d. d ≡ self.now) }
        ensures succeeds { length self.now ≤ 1 → IsOk result }
        ensures narrow { greatest self.now ≤ℤ (least self.now +ℤ pos 63) → IsOk result }
        ensures domain { IsDomain self.now }
    {
        let alloc = *self.rest.allocator();
        let rest = SmallVec::from_slice(alloc, self.rest.as_slice())?;
        Ok(Dom {
            head: self.head,
            rest,
        })
    }

    /// Writes the numbers of another domain over its own, and keeps its room for ranges.
    ///
    /// # Errors
    /// `AllocError` where there is no memory for the ranges; it is then left as it was. A domain of at most one range, or
    /// at most 64 wide, takes none.
    pub fn copy_from(&mut self, other: &Dom) -> Result<(), AllocError>
        ensures same { OnOk result (self.new ≡ other.now) }
        ensures err { OnErr result (self.new ≡ self.old) }
        ensures succeeds { length other.now ≤ 1 → IsOk result }
        ensures narrow { greatest other.now ≤ℤ (least other.now +ℤ pos 63) → IsOk result }
        ensures domain { IsDomain other.now }
    {
        match write_over(&mut self.rest, &other.rest) {
            Ok(()) => {
                self.head = other.head;
                Ok(())
            }
            Err(error) => Err(error),
        }
    }

    /// Whether the two are the same set.
    pub fn same(&self, other: &Dom) -> bool
        ensures same { IsTrue result ↔ (self.now ≡ other.now) }
        ensures one_set { IsTrue result ↔ AreOneSet self.now other.now }
        ensures domain { IsDomain self.now }
    {
        if self.size() != other.size() {
            return false;
        }
        self.has_ranges_of(other)
    }

    fn has_ranges_of(&self, other: &Dom) -> bool
        ensures same { IsTrue result ↔ (self.now ≡ other.now) }
        ensures domain { IsDomain self.now }
        ensures other_domain { IsDomain other.now }
    {
        let count = self.range_count();
        if other.range_count() != count {
            return false;
        }
        for i in 0..count {
            if self.range_at(i) != other.range_at(i) {
                return false;
            }
        }
        true
    }

    /// Its numbers, each moved up by a shift, as a window, as far as they are within the limits; `None` exactly where it is more
    /// than 64 wide.
    pub fn window(&self, shift: i32) -> Option<Window>
        ensures none { IsNone result ↔ ((least self.now +ℤ pos 63) <ℤ greatest self.now) }
        ensures floor { IfSome result (λ w. LEAST ≤ℤ w.base) }
        ensures ceiling { IfSome result (λ w. (w.base +ℤ pos 63) ≤ℤ GREATEST) }
        ensures numbers { IfSome result (λ w. (x : ℤ) → IsWithinLimits x
            → IsBit w.base w.bits x ↔ IsInSet self.now (x -ℤ shift)) }
        ensures domain { IsDomain self.now }
    {
        if !self.is_narrow() {
            return None;
        }
        let base = self.window_base(shift);
        let bits = self.word_at(i64::from(base) - i64::from(shift));
        Some(Window { base, bits })
    }

    /// Whether a number is in the set.
    #[inline(always)]
    pub fn contains(&self, value: i32) -> bool
        ensures member { IsTrue result ↔ IsInSet self.now value }
        ensures domain { IsDomain self.now }
    {
        if self.rest.is_empty() {
            return self.head.contains(value);
        }
        match next_in(self.rest.as_slice(), value) {
            Some(next) => next == value,
            None => false,
        }
    }

    /// The least number of the set at or above a value, if there is one.
    pub fn next_from(&self, value: i32) -> Option<i32>
        ensures next { MatchOption result (IsNoneFrom self.now value)
            (λ y. IsNextFrom self.now value y) }
        ensures domain { IsDomain self.now }
    {
        if self.head.size == 0 || value > self.head.high {
            return None;
        }
        if value <= self.head.low {
            Some(self.head.low)
        } else if self.rest.is_empty() {
            Some(self.head.next_from(value))
        } else {
            next_in(self.rest.as_slice(), value)
        }
    }

    /// The least number of the set above a value, if there is one.
    pub fn next_above(&self, value: i32) -> Option<i32>
        ensures next { MatchOption result (IsNoneAbove self.now value)
            (λ y. IsNextAbove self.now value y) }
        ensures domain { IsDomain self.now }
    {
        if self.head.size == 0 || value >= self.head.high {
            return None;
        }
        self.next_from(value + 1)
    }

    /// Keeps the numbers at or above a value.
    #[inline(always)]
    pub fn keep_from(&mut self, value: i32) -> Change
        ensures change { IsChange result (λ x. value ≤ℤ x) self.old self.new }
        ensures domain { IsDomain self.new }
    {
        self.keep_range(value, i32::MAX)
    }

    /// Keeps the numbers at or below a value.
    #[inline(always)]
    pub fn keep_to(&mut self, value: i32) -> Change
        ensures change { IsChange result (λ x. x ≤ℤ value) self.old self.new }
        ensures domain { IsDomain self.new }
    {
        self.keep_range(i32::MIN, value)
    }

    /// Keeps one number.
    #[inline(always)]
    pub fn keep_only(&mut self, value: i32) -> Change
        ensures change { IsChange result (λ x. x ≡ value) self.old self.new }
        ensures domain { IsDomain self.new }
    {
        self.keep_range(value, value)
    }

    /// Keeps the numbers from a low to a high, both among them.
    #[inline(always)]
    pub fn keep_range(&mut self, low: i32, high: i32) -> Change
        ensures change { IsChange result (λ x. IsFromTo low high x) self.old self.new }
        ensures domain { IsDomain self.new }
        ensures old_domain { IsDomain self.old }
    {
        if self.rest.is_empty() {
            return self.head.keep_range(low, high);
        }
        if !has_between(self.rest.as_slice(), low, high) {
            return Change::Wiped;
        }
        if low <= self.head.low && self.head.high <= high {
            return Change::Same;
        }
        let (low, high) = (low.max(self.head.low), high.min(self.head.high));
        keep_between(&mut self.rest, low, high);
        self.head = settle(&mut self.rest);
        Change::Changed
    }

    /// Removes a number.
    ///
    /// # Errors
    /// `AllocError` where there is no memory for its ranges; it is then left as it was. A domain that is at most 64 wide,
    /// or has no hole, takes none.
    pub fn remove(&mut self, value: i32) -> Result<Change, AllocError>
        ensures change { IfOk result (λ r. IsChange r (λ x. x ≢ value) self.old self.new) }
        ensures err { OnErr result (self.new ≡ self.old) }
        ensures one { length self.old ≤ 1 → IsOk result }
        ensures narrow { greatest self.old ≤ℤ (least self.old +ℤ pos 63) → IsOk result }
        ensures domain { IsDomain self.new }
    {
        self.remove_range(value, value)
    }

    /// Removes the numbers from a low to a high, both among them.
    ///
    /// # Errors
    /// `AllocError` where there is no memory for its ranges; it is then left as it was. A domain that is at most 64 wide,
    /// or has no hole, takes none.
    pub fn remove_range(&mut self, low: i32, high: i32) -> Result<Change, AllocError>
        ensures change { IfOk result
            (λ r. IsChange r (λ x. IsFromTo low high x → ⊥) self.old self.new) }
        ensures err { OnErr result (self.new ≡ self.old) }
        ensures one { length self.old ≤ 1 → IsOk result }
        ensures narrow { greatest self.old ≤ℤ (least self.old +ℤ pos 63) → IsOk result }
        ensures domain { IsDomain self.new }
    {
        if high < low || high < self.head.low || self.head.high < low {
            return Ok(if self.head.size == 0 {
                Change::Wiped
            } else {
                Change::Same
            });
        }
        if self.head.high <= high {
            if low <= self.head.low {
                return Ok(Change::Wiped);
            }
            let first = self.head.low;
            return Ok(self.keep_range(first, low - 1));
        }
        if low <= self.head.low {
            let last = self.head.high;
            return Ok(self.keep_range(high + 1, last));
        }
        self.cut(low, high)
    }

    /// Removes numbers between its ends.
    fn cut(&mut self, low: i32, high: i32) -> Result<Change, AllocError>
        requires from { least self.old <ℤ low }
        requires to { high <ℤ greatest self.old }
        requires order { low ≤ℤ high }
        ensures change { IfOk result
            (λ r. IsChange r (λ x. IsFromTo low high x → ⊥) self.old self.new) }
        ensures err { OnErr result (self.new ≡ self.old) }
        ensures narrow { greatest self.old ≤ℤ (least self.old +ℤ pos 63) → IsOk result }
        ensures one { length self.old ≤ 1 → IsOk result }
        ensures domain { IsDomain self.new }
    {
        if self.rest.is_empty() && self.head.high.abs_diff(self.head.low) < 64 {
            return Ok(self.head.cut(low, high));
        }
        let Some(ranges) = self.cut_ranges(low, high)? else {
            return Ok(Change::Same);
        };
        *self = Dom::from_several(ranges);
        Ok(Change::Changed)
    }

    /// The ranges without numbers between its ends, where it is more than 64 wide; `None` where it has none of them.
    fn cut_ranges(&self, low: i32, high: i32) -> Result<Option<SmallVec<(i32, i32), 2>>, AllocError>
        requires wide { (least self.now +ℤ pos 63) <ℤ greatest self.now }
        requires from { least self.now <ℤ low }
        requires to { high <ℤ greatest self.now }
        requires order { low ≤ℤ high }
        ensures none { IfOk result
            (λ o. IsNone o → (x : ℤ) → IsInSet self.now x → IsFromTo low high x → ⊥) }
        ensures some { IfOk result
            (λ o. IfSome o (λ v. IsPart (λ x. IsFromTo low high x → ⊥) self.now v.items)) }
        ensures member { IfOk result
            (λ o. IsSome o → (x : ℤ) × IsInSet self.now x × IsFromTo low high x) }
        ensures one { length self.now ≤ 1 → IsOk result }
    {
        let alloc = *self.rest.allocator();
        if self.rest.is_empty() {
            let left = (self.head.low, low - 1);
            let right = (high + 1, self.head.high);
            return Ok(Some(SmallVec::from_buf(alloc, [left, right])));
        }
        if !has_between(self.rest.as_slice(), low, high) {
            return Ok(None);
        }
        Ok(Some(cut(alloc, self.rest.as_slice(), low, high)?))
    }

    /// Keeps the numbers of another domain.
    ///
    /// # Errors
    /// `AllocError` where there is no memory for its ranges; it is then left as it was. Where one of the two is at most 64
    /// wide, or the other has no hole, it takes none.
    pub fn keep(&mut self, other: &Dom) -> Result<Change, AllocError>
        ensures change { IfOk result
            (λ r. IsChange r (λ x. IsInSet other.now x) self.old self.new) }
        ensures err { OnErr result (self.new ≡ self.old) }
        ensures one { length other.now ≤ 1 → IsOk result }
        ensures narrow { greatest self.old ≤ℤ (least self.old +ℤ pos 63) → IsOk result }
        ensures narrow_other { greatest other.now ≤ℤ (least other.now +ℤ pos 63) → IsOk result }
        ensures domain { IsDomain self.new }
    {
        self.keep_shifted(other, 0)
    }

    /// Keeps the numbers that lie a shift above those of another domain.
    ///
    /// # Errors
    /// `AllocError` where there is no memory for its ranges; it is then left as it was. Where one of the two is at most 64
    /// wide, or the other has no hole, it takes none.
    pub fn keep_shifted(&mut self, other: &Dom, shift: i32) -> Result<Change, AllocError>
        ensures change { IfOk result
            (λ r. IsChange r (λ x. IsInSet other.now (x -ℤ shift)) self.old self.new) }
        ensures err { OnErr result (self.new ≡ self.old) }
        ensures one { length other.now ≤ 1 → IsOk result }
        ensures narrow { greatest self.old ≤ℤ (least self.old +ℤ pos 63) → IsOk result }
        ensures narrow_other { greatest other.now ≤ℤ (least other.now +ℤ pos 63) → IsOk result }
        ensures domain { IsDomain self.new }
    {
        if other.is_interval() {
            return Ok(self.keep_interval(other, shift));
        }
        let narrow = self.is_narrow();
        if let Some(window) = other.window(shift) {
            return Ok(self.keep_window(window));
        }
        if narrow {
            return Ok(self.keep_narrow(other, shift));
        }
        self.keep_wide(other, shift)
    }

    /// Keeps the numbers that lie a shift above those of an interval.
    fn keep_interval(&mut self, other: &Dom, shift: i32) -> Change
        requires one { other.now ≡ (least other.now, greatest other.now) ∷ [] }
        requires some { 0 < length other.now }
        ensures change { IsChange result (λ x. IsInSet other.now (x -ℤ shift)) self.old self.new }
        ensures domain { IsDomain self.new }
    {
        let low = moved(other.min(), shift);
        let high = moved(other.max(), shift);
        self.keep_range(low, high)
    }

    /// Keeps the numbers that lie a shift above those of another domain, where it is at most 64 wide.
    fn keep_narrow(&mut self, other: &Dom, shift: i32) -> Change
        requires narrow { greatest self.old ≤ℤ (least self.old +ℤ pos 63) }
        ensures change { IsChange result (λ x. IsInSet other.now (x -ℤ shift)) self.old self.new }
        ensures domain { IsDomain self.new }
    {
        let base = self.window_base(0);
        let bits = other.word_at(i64::from(base) - i64::from(shift));
        self.keep_window(Window { base, bits })
    }

    /// Whether it is kept by its ends alone, and has numbers.
    fn is_interval(&self) -> bool
        ensures one { IsTrue result → (self.now ≡ (least self.now, greatest self.now) ∷ []) }
        ensures some { IsTrue result → 0 < length self.now }
        ensures several { result ≡ false
            → (2 ≤ length self.now) ⊎ (greatest self.now ≤ℤ (least self.now +ℤ pos 63)) }
        ensures domain { IsDomain self.now }
    {
        if !self.rest.is_empty() {
            return false;
        }
        self.head.bits == 0 && self.head.size != 0
    }

    /// Whether it is at most 64 wide.
    fn is_narrow(&self) -> bool
        ensures narrow { IsTrue result ↔ (greatest self.now ≤ℤ (least self.now +ℤ pos 63)) }
        ensures domain { IsDomain self.now }
    {
        self.head.high.abs_diff(self.head.low) < 64
    }

    /// The base of a word for its numbers, each moved up by a shift, as far as they are within the limits.
    fn window_base(&self, shift: i32) -> i32
        requires { greatest self.now ≤ℤ (least self.now +ℤ pos 63) }
        ensures floor { LEAST ≤ℤ result }
        ensures ceiling { (result +ℤ pos 63) ≤ℤ GREATEST }
        ensures window { (x : ℤ) → IsWithinLimits x → IsInSet self.now (x -ℤ shift)
            → (result ≤ℤ x) × (x ≤ℤ (result +ℤ pos 63)) }
        ensures domain { IsDomain self.now }
    {
        base_of(self.head.low, shift)
    }

    /// Its numbers as bits, where bit 0 stands for a base.
    pub fn word_at(&self, base: i64) -> u64
        requires floor { neg_ℤ (pos (2 ^ 40)) ≤ℤ base }
        requires ceiling { base ≤ℤ pos (2 ^ 40) }
        ensures { (i : ℕ) → i < 64 → (bit_at result i ≡ 1) ↔ IsInSet self.now (base +ℤ pos i) }
    {
        if self.rest.is_empty() {
            return self.head.word_at(base);
        }
        word_of(self.rest.as_slice(), base)
    }

    /// Keeps the numbers of a window.
    pub fn keep_window(&mut self, window: Window) -> Change
        requires floor { LEAST ≤ℤ window.base }
        requires ceiling { (window.base +ℤ pos 63) ≤ℤ GREATEST }
        ensures change { IsChange result (λ x. IsBit window.base window.bits x) self.old self.new }
        ensures domain { IsDomain self.new }
    {
        let mine = self.word_at(i64::from(window.base));
        self.keep_own(window.base, common(mine, window.bits))
    }

    /// Keeps the numbers of a word, all of which it has.
    fn keep_own(&mut self, base: i32, word: u64) -> Change
        requires floor { LEAST ≤ℤ base }
        requires ceiling { (base +ℤ pos 63) ≤ℤ GREATEST }
        requires among { (x : ℤ) → IsBit base word x → IsInSet self.old x }
        ensures change { IsChange result (λ x. IsBit base word x) self.old self.new }
        ensures domain { IsDomain self.new }
    {
        let size = self.head.size;
        if word == 0 {
            return Change::Wiped;
        }
        if word.count_ones() == size {
            return Change::Same;
        }
        self.rest.clear();
        self.head = Head::from_word(base, word);
        Change::Changed
    }

    /// Keeps the numbers that lie a shift above those of another domain, where both are more than 64 wide.
    fn keep_wide(&mut self, other: &Dom, shift: i32) -> Result<Change, AllocError>
        requires wide { (least self.old +ℤ pos 63) <ℤ greatest self.old }
        requires other_wide { (least other.now +ℤ pos 63) <ℤ greatest other.now }
        requires several { 2 ≤ length other.now }
        ensures change { IfOk result
            (λ r. IsChange r (λ x. IsInSet other.now (x -ℤ shift)) self.old self.new) }
        ensures err { OnErr result (self.new ≡ self.old) }
        ensures domain { IsDomain self.new }
    {
        let ranges = self.shared_with(other.rest.as_slice(), shift)?;
        Ok(self.keep_ranges(ranges))
    }

    /// The ranges of its numbers that lie a shift above those of others, where it is more than 64 wide.
    fn shared_with(
        &self,
        theirs: &[(i32, i32)],
        shift: i32,
    ) -> Result<SmallVec<(i32, i32), 2>, AllocError>
        requires wide { (least self.now +ℤ pos 63) <ℤ greatest self.now }
        requires theirs { AreRanges theirs.now }
        ensures part { IfOk result
            (λ v. IsPart (λ x. IsInSet theirs.now (x -ℤ shift)) self.now v.items) }
        ensures domain { IsDomain self.now }
    {
        let alloc = *self.rest.allocator();
        if self.rest.is_empty() {
            let whole = [(self.head.low, self.head.high)];
            return shared(alloc, &whole, theirs, shift);
        }
        shared(alloc, self.rest.as_slice(), theirs, shift)
    }

    /// Keeps the numbers of ranges, all of which it has.
    fn keep_ranges(&mut self, ranges: SmallVec<(i32, i32), 2>) -> Change
        requires ranges { AreRanges ranges.items }
        requires within { AreWithinLimits ranges.items }
        requires among { (x : ℤ) → IsInSet ranges.items x → IsInSet self.old x }
        ensures change { IsChange result (λ x. IsInSet ranges.items x) self.old self.new }
        ensures domain { IsDomain self.new }
    {
        let size = self.head.size;
        if ranges.is_empty() {
            return Change::Wiped;
        }
        if size_of(ranges.as_slice()) == size {
            return Change::Same;
        }
        *self = Dom::from_several(ranges);
        Change::Changed
    }

    fn from_several(ranges: SmallVec<(i32, i32), 2>) -> Dom
        requires ranges { AreRanges ranges.items }
        requires within { AreWithinLimits ranges.items }
        requires some { 0 < length ranges.items }
        ensures { result ≡ ranges.items }
    {
        let mut rest = ranges;
        let head = settle(&mut rest);
        Dom { head, rest }
    }
}

/// What is kept of ranges, and drops them where that is all.
fn settle(ranges: &mut SmallVec<(i32, i32), 2>) -> Head
    requires ranges { AreRanges ranges.old.items }
    requires within { AreWithinLimits ranges.old.items }
    requires some { 0 < length ranges.old.items }
    ensures kept { IsKept result ranges.new.items }
    ensures set { kept_ranges result ranges.new.items ≡ ranges.old.items }
{
    let head = Head::of(ranges.as_slice());
    if ranges.len() == 1 || head.bits != 0 {
        ranges.clear();
    }
    head
}

/// Writes some ranges over others; most domains have none, and then there is nothing to do.
fn write_over(
    old: &mut SmallVec<(i32, i32), 2>,
    new: &SmallVec<(i32, i32), 2>,
) -> Result<(), AllocError>
    ensures same { OnOk result (old.new.items ≡ new.now.items) }
    ensures err { OnErr result (old.new ≡ old.old) }
    ensures succeeds { length new.now.items ≡ 0 → IsOk result }
{
    if new.is_empty() {
        if !old.is_empty() {
            old.clear();
        }
        return Ok(());
    }
    old.reserve(new.len())?;
    old.clear();
    old.extend_from_slice(new.as_slice())?;
    Ok(())
}
