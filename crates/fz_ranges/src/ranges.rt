//! Ranges of three numbers of which one is the product, the quotient or the rest of the two others: on each side of 0 these are sizes.
ghost use Rattle.std.specs.Prelude.{◌≡◌, ◌∷◌, [], ◌⊎◌, IsFalse, ◌-◌, ◌^◌, ℤ, pos, ◌≤ℤ◌, ◌↔◌, IsTrue, unsigned_abs};
ghost use Rattle.fz_spec.specs.Truth.{IsResult};
ghost use Rattle.fz_ranges.specs.Sizes.{IsSized, AreAtMost, IsSizedBy};
ghost use Rattle.fz_ranges.specs.Ranges.{IsIn, AreIn, IsNear, AreNear, IsEmpty, IsOnSide, IsTurned, IsScaling, turned};

use crate::sizes::{Sizes, sizes_by};
use fz_spec::shape::Operation;

/// The numbers from a low to a high; none where that is less.
#[derive(Clone, Copy)]
pub struct Range {
    pub low: i64,
    pub high: i64,
}

/// Ranges of two operands, and of what an operation makes of them.
#[derive(Clone, Copy)]
pub struct Ranges {
    pub first: Range,
    pub second: Range,
    pub value: Range,
}

/// No numbers; of these and others the hull are the others.
fn nothing() -> Ranges {
    let none = Range {
        low: i64::MAX,
        high: i64::MIN,
    };
    Ranges {
        first: none,
        second: none,
        value: none,
    }
}

/// Whether a range has no numbers.
fn is_empty(range: Range) -> bool
    ensures { IsTrue result ↔ IsEmpty range }
{
    range.high < range.low
}

/// Whether one of three ranges has no numbers.
fn is_some_empty(ranges: Ranges) -> bool
    ensures some { IsTrue result → (u w v : ℤ) → AreIn ranges u w v → ⊥ }
    ensures none { IsFalse result → (ranges.first.low ≤ℤ ranges.first.high)
        × (ranges.second.low ≤ℤ ranges.second.high) × (ranges.value.low ≤ℤ ranges.value.high) }
{
    is_empty(ranges.first) || is_empty(ranges.second) || is_empty(ranges.value)
}

/// The same ranges, or nothing where one of them has no numbers.
fn or_nothing(ranges: Ranges) -> Ranges
    ensures { (u w v : ℤ) → AreIn ranges u w v → AreIn result u w v }
{
    if is_some_empty(ranges) {
        nothing()
    } else {
        ranges
    }
}

/// The numbers of both.
fn met(one: Range, other: Range) -> Range
    ensures { (u : ℤ) → IsIn one u → IsIn other u → IsIn result u }
{
    Range {
        low: if one.low < other.low {
            other.low
        } else {
            one.low
        },
        high: if other.high < one.high {
            other.high
        } else {
            one.high
        },
    }
}

/// The smallest range round both.
fn joined(one: Range, other: Range) -> Range
    ensures { (u : ℤ) → IsIn one u ⊎ IsIn other u → IsIn result u }
{
    Range {
        low: one.low.min(other.low),
        high: one.high.max(other.high),
    }
}

/// The smallest ranges round both of each.
fn all_joined(one: Ranges, other: Ranges) -> Ranges
    ensures { (u w v : ℤ) → AreIn one u w v ⊎ AreIn other u w v → AreIn result u w v }
{
    Ranges {
        first: joined(one.first, other.first),
        second: joined(one.second, other.second),
        value: joined(one.value, other.value),
    }
}

/// The sizes of the numbers of a range.
fn sizes_of(range: Range) -> Sizes
    requires near { IsNear range }
    requires some { range.low ≤ℤ range.high }
    ensures sizes { (u : ℤ) → IsIn range u → IsSized result (unsigned_abs u) }
    ensures near { AreAtMost (2 ^ 31) result }
{
    let first = range.low.unsigned_abs();
    let last = range.high.unsigned_abs();
    let low = if 0 < range.low {
        first
    } else if range.high < 0 {
        last
    } else {
        0
    };
    Sizes {
        low,
        high: first.max(last),
    }
}

/// The least number that a range may have, of numbers of such sizes.
fn lowest(range: Range, sizes: Sizes) -> i64
    requires { AreAtMost (2 ^ 63 - 1) sizes }
    ensures { (u : ℤ) → IsIn range u → IsSized sizes (unsigned_abs u) → result ≤ℤ u }
{
    let (low, high) = (sizes.low as i64, sizes.high as i64);
    if 0 <= range.low || -low < range.low {
        low
    } else {
        -high
    }
}

/// The greatest number that a range may have, of numbers of such sizes.
fn highest(range: Range, sizes: Sizes) -> i64
    requires { AreAtMost (2 ^ 63 - 1) sizes }
    ensures { (u : ℤ) → IsIn range u → IsSized sizes (unsigned_abs u) → u ≤ℤ result }
{
    let (low, high) = (sizes.low as i64, sizes.high as i64);
    if range.high <= 0 || range.high < low {
        -low
    } else {
        high
    }
}

/// The numbers of such sizes on the sides of 0 on which a range lies.
fn with_sizes(range: Range, sizes: Sizes) -> Range
    requires { AreAtMost (2 ^ 63 - 1) sizes }
    ensures { (u : ℤ) → IsIn range u → IsSized sizes (unsigned_abs u) → IsIn result u }
{
    Range {
        low: lowest(range, sizes),
        high: highest(range, sizes),
    }
}

/// What is left of a range whose numbers have such sizes.
fn sized(range: Range, sizes: Sizes) -> Range
    requires { AreAtMost (2 ^ 63 - 1) sizes }
    ensures { (u : ℤ) → IsIn range u → IsSized sizes (unsigned_abs u) → IsIn result u }
{
    met(range, with_sizes(range, sizes))
}

/// What is left of ranges, by the sizes of their numbers.
fn all_sized(operation: Operation, ranges: Ranges) -> Ranges
    requires { AreNear ranges }
    ensures { (u w v : ℤ) → AreIn ranges u w v
        → IsSizedBy operation (unsigned_abs u) (unsigned_abs w) (unsigned_abs v)
        → AreIn result u w v }
{
    if is_some_empty(ranges) {
        return nothing();
    }
    let (first, second, value) = (ranges.first, ranges.second, ranges.value);
    let sizes = sizes_by(
        operation,
        sizes_of(first),
        sizes_of(second),
        sizes_of(value),
    );
    or_nothing(Ranges {
        first: sized(first, sizes.first),
        second: sized(second, sizes.second),
        value: sized(value, sizes.value),
    })
}

/// The numbers of a range below 0, or those from 0 on.
fn side(range: Range, is_negative: bool) -> Range
    requires { IsNear range }
    ensures side { (u : ℤ) → IsIn range u → IsOnSide is_negative u → IsIn result u }
    ensures near { IsNear result }
{
    if is_negative {
        Range {
            low: range.low,
            high: range.high.min(-1),
        }
    } else {
        Range {
            low: range.low.max(0),
            high: range.high,
        }
    }
}

/// The numbers of a range up to 0, or those from 0 on.
fn turned_side(range: Range, is_turned: bool) -> Range
    requires { IsNear range }
    ensures side { (u : ℤ) → IsIn range u → IsTurned is_turned u → IsIn result u }
    ensures near { IsNear result }
{
    if is_turned {
        Range {
            low: range.low,
            high: range.high.min(0),
        }
    } else {
        Range {
            low: range.low.max(0),
            high: range.high,
        }
    }
}

/// Whether what an operation makes of operands that are negative, or aren't, isn't above 0. A rest has the sign of what is divided.
fn is_turned(operation: Operation, first: bool, second: bool) -> bool
    ensures { result ≡ turned operation first second }
{
    match (operation, first) {
        (Operation::Remainder, first) => first,
        (_, true) => !second,
        (_, false) => second,
    }
}

/// What is left of ranges whose operands are on a side of 0 each.
fn on_sides(operation: Operation, ranges: Ranges, first: bool, second: bool) -> Ranges
    requires near { AreNear ranges }
    requires scaling { IsScaling operation }
    ensures { (u w v : ℤ) → AreIn ranges u w v → IsOnSide first u → IsOnSide second w
        → IsResult operation (u ∷ w ∷ []) v → AreIn result u w v }
{
    let is_below = is_turned(operation, first, second);
    let sides = Ranges {
        first: side(ranges.first, first),
        second: side(ranges.second, second),
        value: turned_side(ranges.value, is_below),
    };
    all_sized(operation, sides)
}

/// Whether both operands are 0 or more.
fn are_natural(ranges: Ranges) -> bool
    ensures { IsTrue result → (u w v : ℤ) → AreIn ranges u w v → (pos 0 ≤ℤ u) × (pos 0 ≤ℤ w) }
{
    0 <= ranges.first.low && 0 <= ranges.second.low
}

/// What is left of the ranges of two operands and of their product, quotient or rest.
pub fn narrowed(operation: Operation, ranges: Ranges) -> Ranges
    requires near { AreNear ranges }
    requires scaling { IsScaling operation }
    ensures { (u w v : ℤ) → AreIn ranges u w v → IsResult operation (u ∷ w ∷ []) v
        → AreIn result u w v }
{
    if are_natural(ranges) {
        return on_sides(operation, ranges, false, false);
    }
    let rising = on_sides(operation, ranges, false, false);
    let turned = on_sides(operation, ranges, false, true);
    let natural = all_joined(rising, turned);
    let falling = on_sides(operation, ranges, true, false);
    let twice = on_sides(operation, ranges, true, true);
    let negative = all_joined(falling, twice);
    all_joined(natural, negative)
}
