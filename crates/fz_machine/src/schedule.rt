//! Whose turn it is when workers take turns on one thread.
ghost use Rattle.std.specs.Prelude.{◌≡◌, ◌<◌};
ghost use Rattle.fz_machine.specs.Schedule as schedule;

/// The multiplier and the increment of the numbers that pick workers: a linear congruential generator of 64 bits, with the
/// constants of Knuth's MMIX.
pub const MULTIPLIER: u64 = 6_364_136_223_846_793_005;

pub const INCREMENT: u64 = 1_442_695_040_888_963_407;

/// The number after this one.
pub fn next_number(number: u64) -> u64
    ensures { result ≡ schedule.next_number number }
{
    number.wrapping_mul(MULTIPLIER).wrapping_add(INCREMENT)
}

/// The worker that a number picks, of that many.
pub fn picked(number: u64, workers: u32) -> u32
    requires { 0 < workers }
    ensures picked { result ≡ schedule.picked number workers }
    ensures below { result < workers }
{
    ((number >> 33) % workers as u64) as u32
}
