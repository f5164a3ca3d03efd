//! Numbers by their places among 64 that follow one another.
ghost use Rattle.std.specs.Prelude.{◌≡◌, ◌<◌, ℕ, pos, ◌+ℤ◌, MatchOption};

/// The first of 64 numbers that lie within the limits is between these.
pub const LOWEST_BASE: i32 = -2147483646;

pub const HIGHEST_BASE: i32 = 2147483583;

/// The place of a number among the 64 from a base on, if it is one of them.
pub fn place_of(number: i32, base: i32) -> Option<u32>
    ensures { MatchOption result ((k : ℕ) → k < 64 → number ≡ base +ℤ pos k → ⊥)
        (λ k. (k < 64) × (number ≡ base +ℤ pos k)) }
{
    if number < base {
        return None;
    }
    let place = number.abs_diff(base);
    if place < 64 { Some(place) } else { None }
}
