//! Numbers as bits of a word whose first bit stands for a base.
ghost use Rattle.std.specs.Prelude.{◌≡◌, ◌<◌, ◌↔◌, ◌≤ℤ◌, ◌+ℤ◌, ◌^◌, pos, neg_ℤ, ℕ, ℤ};
ghost use Rattle.fz_sets.specs.Sets.{IsWithinLimits, LEAST, GREATEST};
ghost use Rattle.fz_bits.specs.Words.{AreOnes};
ghost use Rattle.fz_dom.specs.Places.{IsBit};

use crate::head::HIGHEST_BASE;
use fz_bits::Window;
use fz_bits::word::{lowered, raised, run_of};

/// The bits of the same numbers, where bit 0 stood for one base and is to stand for another; those that leave the word are
/// lost.
pub fn rebased(word: u64, from: i32, to: i64) -> u64
    ensures { AreOnes result (λ i. IsBit from word (to +ℤ pos i)) }
{
    let base = i64::from(from);
    let distance = base.abs_diff(to);
    if distance >= 64 {
        return 0;
    }
    if base <= to {
        lowered(word, distance as u32)
    } else {
        raised(word, distance as u32)
    }
}

/// The bits of the numbers from a low to a high, both among them, where bit 0 stands for a base.
pub fn window_of(low: i32, high: i32, base: i64) -> u64
    requires order { low ≤ℤ high }
    requires floor { neg_ℤ (pos (2 ^ 40)) ≤ℤ base }
    requires ceiling { base ≤ℤ pos (2 ^ 40) }
    ensures { AreOnes result (λ i. (low ≤ℤ (base +ℤ pos i)) × ((base +ℤ pos i) ≤ℤ high)) }
{
    let first = i64::from(low) - base;
    let last = i64::from(high) - base;
    if last < 0 || 63 < first {
        return 0;
    }
    run_of(place_of(first), place_of(last))
}

/// The place of a bit that is nearest to a number.
fn place_of(number: i64) -> u32
    ensures below { result < 64 }
    ensures at { pos 0 ≤ℤ number → number ≤ℤ pos 63 → pos result ≡ number }
    ensures low { number ≤ℤ pos 0 → result ≡ 0 }
    ensures high { pos 63 ≤ℤ number → result ≡ 63 }
{
    number.clamp(0, 63) as u32
}

/// A number as a window that lies within the limits.
pub fn single(number: i32) -> Window
    requires { IsWithinLimits number }
    ensures floor { LEAST ≤ℤ result.base }
    ensures ceiling { (result.base +ℤ pos 63) ≤ℤ GREATEST }
    ensures numbers { (x : ℤ) → IsBit result.base result.bits x ↔ (x ≡ number) }
{
    let base = number.min(HIGHEST_BASE);
    Window::none(base).with(number)
}
