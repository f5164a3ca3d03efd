//! The values of a cover as the bits of a word.
ghost use Rattle.std.specs.Prelude.{◌≡◌, ◌≤ℤ◌, ◌+ℤ◌, pos, IfSome};
ghost use Rattle.fz_sets.specs.Sets.{LEAST, GREATEST};
ghost use Rattle.fz_counts.specs.Covers.{IsCoverOf, IsGap, IsWindowOf, IsWithin};

use fz_bits::Window;
use fz_bits::word::without;

/// The last number at which a window within the limits begins, and the first.
const HIGHEST_BASE: i32 = 2_147_483_583;

const LOWEST_BASE: i32 = -2_147_483_646;

/// The values of a cover, each of which stands in it once: a window, and a number before which all from its base on are values.
#[derive(Clone, Copy)]
pub struct Cover {
    pub window: Window,
    pub gap: i32,
}

/// A cover by its values, where they lie within 64 numbers and each stands once.
pub fn cover_of(values: &[i32]) -> Option<Cover>
    ensures { IfSome result (λ c. IsCoverOf c values.now) }
{
    let window = window_of(values, base_of(values)?)?;
    let gap = gap_of(window);
    Some(Cover { window, gap })
}

/// The least of some values, or the last base.
fn base_of(values: &[i32]) -> Option<i32>
    ensures { IfSome result (λ b. (LEAST ≤ℤ b) × ((b +ℤ pos 63) ≤ℤ GREATEST)) }
{
    let mut base = HIGHEST_BASE;
    for value in values {
        base = base.min(*value);
    }
    if base < LOWEST_BASE {
        return None;
    }
    Some(base)
}

/// Values as a window with a base.
fn window_of(values: &[i32], base: i32) -> Option<Window>
    requires ceiling { (base +ℤ pos 63) ≤ℤ GREATEST }
    ensures base { IfSome result (λ w. w.base ≡ base) }
    ensures values { IfSome result (λ w. IsWindowOf w values.now) }
{
    let mut window = Window::none(base);
    for value in values {
        if *value < base || base + 63 < *value || window.has(*value) {
            return None;
        }
        window = window.with(*value);
    }
    Some(window)
}

/// The first number from its base on that isn't one of a window, or its base where all are.
fn gap_of(window: Window) -> i32
    requires { IsWithin window }
    ensures { IsGap window result }
{
    let all = Window::all(window.base);
    let others = Window {
        base: window.base,
        bits: without(all.bits, window.bits),
    };
    if others.bits == 0 {
        return window.base;
    }
    others.first()
}
