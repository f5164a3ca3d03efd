//! Halves and roots of numbers, rounded to the side on which a range of them lies.
ghost use Rattle.std.specs.Prelude.{ℕ, ◌*◌, ◌^◌, ◌≤◌, ℤ, pos, ◌+ℤ◌, ◌*ℤ◌, ◌≤ℤ◌, unsigned_abs};
ghost use Rattle.fz_ranges.specs.Roots.{IsRoot};

/// The greatest number that is twice at most another.
pub fn half(number: i64) -> i64
    requires { unsigned_abs number ≤ 2 ^ 31 }
    ensures half { (u : ℤ) → (u +ℤ u) ≤ℤ number → u ≤ℤ result }
    ensures reached { (result +ℤ result) ≤ℤ number }
    ensures near { unsigned_abs result ≤ 2 ^ 31 }
{
    if number < 0 {
        (number - 1) / 2
    } else {
        number / 2
    }
}

/// The greatest number whose square is at most another, 0 where that is negative.
pub fn root(number: i32) -> u32
    ensures { IsRoot number result }
{
    u32::try_from(number).unwrap_or(0).isqrt()
}

/// The least number whose square is at least another.
pub fn least_root(number: i32) -> i64
    ensures low { pos 0 ≤ℤ result }
    ensures high { result ≤ℤ pos 65536 }
    ensures least { (u : ℕ) → number ≤ℤ pos (u * u) → result ≤ℤ pos u }
    ensures reached { number ≤ℤ (result *ℤ result) }
{
    if number <= 0 {
        return 0;
    }
    i64::from(root(number - 1)) + 1
}
