//! The numbers of two windows that have a partner in the other.
ghost use Rattle.std.specs.Prelude.{◌≡◌, ◌↔◌, ◌≤ℤ◌, ◌+ℤ◌, ℤ, pos};
ghost use Rattle.fz_bits.specs.Windows.{IsBit};
ghost use Rattle.fz_prop.specs.Matching.{AreMatching};

use fz_bits::Window;
use fz_bits::word::either;

/// Which second numbers are partners of a first one.
pub trait Partners {
    /// Whether the two are.
    ghost are_partners: { Self → ℤ → ℤ → Type 0 };

    /// Whether windows of such a base are taken.
    ghost takes: { Self → ℤ → Type 0 };

    /// The partners of a first number among the second ones, as bits of their base.
    fn among(&self, first: i32, seconds: Window) -> u64
        requires { takes self.now seconds.base }
        ensures { (m : ℤ) → IsBit seconds.base result m
            ↔ (are_partners self.now first m × IsBit seconds.base seconds.bits m) };
}

/// First numbers, and second ones.
#[derive(Clone, Copy)]
pub struct Matches {
    pub firsts: Window,
    pub seconds: Window,
}

/// The numbers of two windows that have a partner in the other.
pub fn related<P: Partners>(firsts: Window, seconds: Window, partners: &P) -> Matches
    requires room { (firsts.base +ℤ pos 63) ≤ℤ pos 2147483647 }
    requires takes { P.takes partners.now seconds.base }
    ensures first_base { result.firsts.base ≡ firsts.base }
    ensures second_base { result.seconds.base ≡ seconds.base }
    ensures matching { AreMatching (P.are_partners partners.now)
        (λ n. IsBit firsts.base firsts.bits n) (λ m. IsBit seconds.base seconds.bits m)
        (λ n. IsBit firsts.base result.firsts.bits n)
        (λ m. IsBit seconds.base result.seconds.bits m) }
{
    let mut kept = Window::none(firsts.base);
    let mut found = Window::none(seconds.base);
    let mut left = firsts;
    'numbers: while left.bits != 0 {
        let number = left.first();
        left = left.without(number);
        let shared = partners.among(number, seconds);
        if shared != 0 {
            kept = kept.with(number);
            found = Window {
                base: seconds.base,
                bits: either(found.bits, shared),
            };
        }
    }
    Matches {
        firsts: kept,
        seconds: found,
    }
}
