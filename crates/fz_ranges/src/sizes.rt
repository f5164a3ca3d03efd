//! The sizes of numbers of which one is the product, the quotient or the rest of the two others: signs aside, these are natural numbers.
ghost use Rattle.std.specs.Prelude.{ℕ, ◌+◌, ◌-◌, ◌*◌, ◌^◌, ◌≤◌, ◌<◌};
ghost use Rattle.fz_ranges.specs.Sizes.{IsSized, AreSized, AreAtMost, IsParted, IsSizedBy};

use fz_spec::shape::Operation;

/// From the least to the greatest size of a number.
#[derive(Clone, Copy)]
pub struct Sizes {
    pub low: u64,
    pub high: u64,
}

/// The sizes of two operands, and of what an operation makes of them.
#[derive(Clone, Copy)]
pub struct Triple {
    pub first: Sizes,
    pub second: Sizes,
    pub value: Sizes,
}

/// How often at least a part is taken that reaches a total, where it is no greater than this one.
fn fewest(total: u64, part: u64) -> u64
    ensures fewest { (k n : ℕ) → n ≤ part → total ≤ k * n → result ≤ k }
    ensures near { result ≤ total }
{
    if total == 0 {
        return 0;
    }
    (total - 1) / part.max(1) + 1
}

/// How often at most a part is taken that stays within a total, where it is no less than this one, nor 0.
fn most(total: u64, part: u64) -> u64
    ensures most { (k n : ℕ) → part ≤ n → 0 < n → k * n ≤ total → k ≤ result }
    ensures near { result ≤ total }
{
    total / part.max(1)
}

/// The sizes of a factor, by the other and the product.
fn factor(own: Sizes, other: Sizes, product: Sizes) -> Sizes
    ensures sizes { (m n : ℕ) → IsSized own m → IsSized other n → IsSized product (m * n)
        → IsSized result m }
    ensures near { (limit : ℕ) → own.high ≤ limit → AreAtMost limit product
        → AreAtMost limit result }
{
    let is_some = 0 < other.low || 0 < product.low;
    Sizes {
        low: fewest(product.low, other.high),
        high: if is_some {
            most(product.high, other.low)
        } else {
            own.high
        },
    }
}

/// The sizes of a product.
fn product(one: Sizes, other: Sizes) -> Sizes
    requires one { AreAtMost (2 ^ 31) one }
    requires other { AreAtMost (2 ^ 31) other }
    ensures sizes { (m n : ℕ) → IsSized one m → IsSized other n → IsSized result (m * n) }
    ensures near { AreAtMost (2 ^ 62) result }
{
    Sizes {
        low: one.low * other.low,
        high: one.high * other.high,
    }
}

/// The sizes of a sum.
fn sum(one: Sizes, other: Sizes) -> Sizes
    requires one { AreAtMost (2 ^ 62) one }
    requires other { AreAtMost (2 ^ 31) other }
    ensures sizes { (m n : ℕ) → IsSized one m → IsSized other n → IsSized result (m + n) }
    ensures near { AreAtMost (2 ^ 63 - 1) result }
{
    Sizes {
        low: one.low + other.low,
        high: one.high + other.high,
    }
}

/// The sizes of a summand, by the other and the sum.
fn difference(sum: Sizes, other: Sizes) -> Sizes
    ensures sizes { (m n : ℕ) → IsSized sum (m + n) → IsSized other n → IsSized result m }
    ensures near { (limit : ℕ) → AreAtMost limit sum → AreAtMost limit result }
{
    Sizes {
        low: sum.low.saturating_sub(other.high),
        high: sum.high.saturating_sub(other.low),
    }
}

/// The sizes of a rest.
fn rest_of(divisor: Sizes) -> Sizes
    ensures sizes { (n rest : ℕ) → IsSized divisor n → rest < n → IsSized result rest }
    ensures near { AreAtMost (2 ^ 31) divisor → AreAtMost (2 ^ 31) result }
{
    Sizes {
        low: 0,
        high: divisor.high.saturating_sub(1),
    }
}

/// The sizes that two factors and their product may have.
fn sizes_of_product(first: Sizes, second: Sizes, value: Sizes) -> Triple
    requires first { AreAtMost (2 ^ 31) first }
    requires second { AreAtMost (2 ^ 31) second }
    requires value { AreAtMost (2 ^ 31) value }
    ensures sizes { (m n : ℕ) → IsSized first m → IsSized second n → IsSized value (m * n)
        → AreSized result m n (m * n) }
    ensures first { AreAtMost (2 ^ 63 - 1) result.first }
    ensures second { AreAtMost (2 ^ 63 - 1) result.second }
    ensures value { AreAtMost (2 ^ 63 - 1) result.value }
{
    Triple {
        first: factor(first, second, value),
        second: factor(second, first, value),
        value,
    }
}

/// The sizes that what is divided, a divisor and their quotient may have.
fn sizes_of_quotient(first: Sizes, second: Sizes, value: Sizes) -> Triple
    requires first { AreAtMost (2 ^ 31) first }
    requires second { AreAtMost (2 ^ 31) second }
    requires value { AreAtMost (2 ^ 31) value }
    ensures sizes { (m n k rest : ℕ) → IsParted m n k rest → IsSized first m → IsSized second n
        → IsSized value k → AreSized result m n k }
    ensures first { AreAtMost (2 ^ 63 - 1) result.first }
    ensures second { AreAtMost (2 ^ 63 - 1) result.second }
    ensures value { AreAtMost (2 ^ 63 - 1) result.value }
{
    let rest = rest_of(second);
    let whole = difference(first, rest);
    let divisor = factor(second, value, whole);
    let least = fewest(first.low + 1, value.high + 1);
    Triple {
        first: sum(product(value, second), rest),
        second: Sizes {
            low: divisor.low.max(least),
            high: divisor.high,
        },
        value: factor(value, second, whole),
    }
}

/// The sizes that what is divided, a divisor and the rest may have.
fn sizes_of_rest(first: Sizes, second: Sizes, value: Sizes) -> Triple
    requires first { AreAtMost (2 ^ 31) first }
    requires second { AreAtMost (2 ^ 31) second }
    requires value { AreAtMost (2 ^ 31) value }
    ensures sizes { (m n k rest : ℕ) → IsParted m n k rest → IsSized first m → IsSized second n
        → IsSized value rest → AreSized result m n rest }
    ensures first { AreAtMost (2 ^ 63 - 1) result.first }
    ensures second { AreAtMost (2 ^ 63 - 1) result.second }
    ensures value { AreAtMost (2 ^ 63 - 1) result.value }
{
    let most_whole = difference(first, value);
    let any = Sizes {
        low: 0,
        high: most_whole.high,
    };
    let times = factor(any, second, most_whole);
    let divisor = factor(second, times, most_whole);
    let whole = product(times, second);
    let rest = difference(first, whole);
    let most = rest_of(second).high;
    Triple {
        first: sum(whole, value),
        second: Sizes {
            low: divisor.low.max(value.low + 1),
            high: divisor.high,
        },
        value: Sizes {
            low: rest.low,
            high: rest.high.min(most),
        },
    }
}

/// The sizes that two operands and what an operation makes of them may have.
pub fn sizes_by(operation: Operation, first: Sizes, second: Sizes, value: Sizes) -> Triple
    requires first { AreAtMost (2 ^ 31) first }
    requires second { AreAtMost (2 ^ 31) second }
    requires value { AreAtMost (2 ^ 31) value }
    ensures sizes { (m n k : ℕ) → IsSizedBy operation m n k → IsSized first m → IsSized second n
        → IsSized value k → AreSized result m n k }
    ensures first { AreAtMost (2 ^ 63 - 1) result.first }
    ensures second { AreAtMost (2 ^ 63 - 1) result.second }
    ensures value { AreAtMost (2 ^ 63 - 1) result.value }
{
    match operation {
        Operation::Times => sizes_of_product(first, second, value),
        Operation::Quotient => sizes_of_quotient(first, second, value),
        Operation::Remainder => sizes_of_rest(first, second, value),
        _ => Triple {
            first,
            second,
            value,
        },
    }
}
