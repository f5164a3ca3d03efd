//! Quotients rounded down and up, as bounds of an inequality divided by a factor want them.
ghost use Rattle.std.specs.Prelude.{◌≢◌, ◌^◌, pos, neg_ℤ, ◌≤ℤ◌};
ghost use Rattle.fz_num.specs.Quotients.{IsFloor, IsCeiling};

/// The quotient rounded down.
pub fn floor_div(a: i128, b: i128) -> i128
    requires nonzero { b ≢ pos 0 }
    requires low { neg_ℤ (pos (2 ^ 100)) ≤ℤ a }
    requires high { a ≤ℤ pos (2 ^ 100) }
    ensures { IsFloor a b result }
{
    let quotient = a.div_euclid(b);
    if b < 0 && a.rem_euclid(b) != 0 {
        quotient - 1
    } else {
        quotient
    }
}

/// The quotient rounded up.
pub fn ceil_div(a: i128, b: i128) -> i128
    requires nonzero { b ≢ pos 0 }
    requires low { neg_ℤ (pos (2 ^ 100)) ≤ℤ a }
    requires high { a ≤ℤ pos (2 ^ 100) }
    ensures { IsCeiling a b result }
{
    let quotient = a.div_euclid(b);
    if b > 0 && a.rem_euclid(b) != 0 {
        quotient + 1
    } else {
        quotient
    }
}
