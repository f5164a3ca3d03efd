//! The greatest common divisor of numbers.
ghost use Rattle.std.specs.Prelude.{◌↔◌, ◌<ℤ◌, ◌+ℤ◌, ◌*ℤ◌, ◌≡◌, ℤ, pos, IsTrue, IfSome};
ghost use Rattle.std.specs.List.{AllByRecursion};
ghost use Rattle.fz_plain.specs.Plain.{IsMultipleOf};

/// The greatest common divisor of numbers, 0 where all are 0.
pub fn greatest_divisor(numbers: &[i32]) -> u32
    ensures divides { AllByRecursion (IsMultipleOf (pos result)) numbers.now }
    ensures greatest { (d : ℤ) → AllByRecursion (IsMultipleOf d) numbers.now
        → IsMultipleOf d (pos result) }
{
    let mut divisor = 0;
    for number in numbers {
        divisor = common_divisor(divisor, number.unsigned_abs());
    }
    divisor
}

/// The greatest common divisor of two numbers.
fn common_divisor(one: u32, other: u32) -> u32
    ensures { (d : ℤ) → (IsMultipleOf d (pos one) × IsMultipleOf d (pos other))
        ↔ IsMultipleOf d (pos result) }
{
    let (mut one, mut other) = (one, other);
    'steps: while other != 0 {
        let rest = one % other;
        one = other;
        other = rest;
    }
    one
}

/// Whether a number is a multiple of a divisor.
pub fn is_multiple(number: i32, divisor: u32) -> bool
    ensures { IsTrue result ↔ IsMultipleOf (pos divisor) number }
{
    let size = number.unsigned_abs();
    if divisor == 0 {
        return size == 0;
    }
    size % divisor == 0
}
