//! Ranges whose numbers lie close together, as a word.
ghost use Rattle.std.specs.Prelude.{◌≡◌, ◌<◌, ◌↔◌, ◌≤ℤ◌, ◌+ℤ◌, ℕ, ℤ, pos, IfSome};
ghost use Rattle.std.specs.Int.{bit_at};
ghost use Rattle.fz_sets.specs.Sets.{IsInSet, LEAST, GREATEST};
ghost use Rattle.fz_dom.specs.Places.{IsBit};

use crate::head::HIGHEST_BASE;
use crate::meet::LOWEST;
use crate::window::window_of;
use fz_bits::Window;
use fz_bits::word::either;

/// The numbers of ranges as a word, where these lie within 64 numbers and there are some.
pub fn close_word(ranges: &[(i32, i32)]) -> Option<Window>
    ensures floor { IfSome result (λ w. LEAST ≤ℤ w.base) }
    ensures ceiling { IfSome result (λ w. (w.base +ℤ pos 63) ≤ℤ GREATEST) }
    ensures some { IfSome result (λ w. 0 < w.bits) }
    ensures one_set { IfSome result
        (λ w. (x : ℤ) → IsBit w.base w.bits x ↔ IsInSet ranges.now x) }
{
    let base = lowest(ranges);
    let bits = bits_of(ranges, base)?;
    if bits == 0 {
        return None;
    }
    Some(Window { base, bits })
}

/// A base that is above no low.
fn lowest(ranges: &[(i32, i32)]) -> i32
    ensures floor { LEAST ≤ℤ result }
    ensures ceiling { (result +ℤ pos 63) ≤ℤ GREATEST }
{
    let mut base = HIGHEST_BASE;
    for r in ranges {
        base = base.min(r.0);
    }
    base.max(LOWEST)
}

/// The bits of the numbers of ranges; `None` where one has no bit.
fn bits_of(ranges: &[(i32, i32)], base: i32) -> Option<u64>
    requires ceiling { (base +ℤ pos 63) ≤ℤ GREATEST }
    ensures { IfSome result (λ bits. (x : ℤ) → IsBit base bits x ↔ IsInSet ranges.now x) }
{
    let mut bits = 0;
    for r in ranges {
        let Some(window) = bits_between(r.0, r.1, base) else {
            return None;
        };
        bits = either(bits, window);
    }
    Some(bits)
}

/// The bits of the numbers from a low to a high, both among them; `None` where one has no bit.
fn bits_between(low: i32, high: i32, base: i32) -> Option<u64>
    requires ceiling { (base +ℤ pos 63) ≤ℤ GREATEST }
    ensures bits { IfSome result (λ bits. (i : ℕ) → i < 64
        → (bit_at bits i ≡ 1) ↔ ((low ≤ℤ (base +ℤ pos i)) × ((base +ℤ pos i) ≤ℤ high))) }
    ensures inside { IfSome result (λ bits. (x : ℤ) → low ≤ℤ x → x ≤ℤ high
        → (base ≤ℤ x) × (x ≤ℤ (base +ℤ pos 63))) }
{
    if low > high {
        return Some(0);
    }
    if low < base || base + 63 < high {
        return None;
    }
    Some(window_of(low, high, i64::from(base)))
}
