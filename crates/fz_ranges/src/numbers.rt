//! Arithmetic on numbers of 32 bits, exact in 64.
ghost use Rattle.std.specs.Prelude.{◌≡◌, ◌≢◌, pos, neg_ℤ, ◌+ℤ◌, ◌-ℤ◌, ◌*ℤ◌, int_div};
ghost use Rattle.fz_spec.specs.Truth.{remainder};

/// The sum of two numbers.
pub fn sum(x: i32, y: i32) -> i64
    ensures { result ≡ x +ℤ y }
{
    i64::from(x) + i64::from(y)
}

/// The difference of two numbers.
pub fn difference(x: i32, y: i32) -> i64
    ensures { result ≡ x -ℤ y }
{
    i64::from(x) - i64::from(y)
}

/// The negative of a number.
pub fn negative(x: i32) -> i64
    ensures { result ≡ neg_ℤ x }
{
    -i64::from(x)
}

/// The product of two numbers.
pub fn product(x: i32, y: i32) -> i64
    ensures { result ≡ x *ℤ y }
{
    i64::from(x) * i64::from(y)
}

/// The quotient of two numbers, rounded toward 0.
pub fn quotient(x: i32, y: i32) -> i64
    requires { y ≢ pos 0 }
    ensures { result ≡ int_div x y }
{
    match x.checked_div(y) {
        Some(quotient) => i64::from(quotient),
        None => -i64::from(x),
    }
}

/// What a truncated quotient leaves; all of the number where the divisor is 0.
pub fn remainder(x: i32, y: i32) -> i64
    ensures { result ≡ remainder x y }
{
    if y == 0 {
        return i64::from(x);
    }
    i64::from(x) % i64::from(y)
}
