//! The numbers that lie on a plane with those of a third variable.
ghost use Rattle.std.specs.Prelude.{◌≡◌, ◌≤ℤ◌, ◌+ℤ◌, ◌^◌, pos, neg_ℤ};
ghost use Rattle.fz_bits.specs.Windows.{IsBit};
ghost use Rattle.fz_bits.specs.Words.{AreOnes};
ghost use Rattle.fz_prop.specs.Matching.{HasRoom};
ghost use Rattle.fz_shift.specs.Planes.{IsOnPlane, IsSmall, number_on};
ghost use Rattle.fz_shift.specs.Points.{IsMade};

use crate::plane::Plane;
use fz_bits::Window;
use fz_bits::word::{common, lowered, raised};
use fz_dom::Dom;
use fz_prop::matching::{Partners, related};

/// Partners of numbers across are those of the first variable with which they lie on a plane, at a number of the second's domain.
#[derive(Clone, Copy)]
pub struct OnDomain<'d> {
    pub plane: Plane,
    pub second: &'d Dom,
}

impl Partners for OnDomain<'_> {
    ghost are_partners = { λ s. IsOnPlane s.plane s.second.now };

    ghost takes = { λ s base. IsSmall s.plane };

    fn among(&self, first: i32, seconds: Window) -> u64 {
        let from = number_on(self.plane, first, seconds.base);
        common(self.second.word_at(from), seconds.bits)
    }
}

/// The same, at a number of a window.
#[derive(Clone, Copy)]
pub struct OnWindow {
    pub plane: Plane,
    pub second: Window,
}

impl Partners for OnWindow {
    ghost are_partners = { λ s u w. IsBit s.second.base s.second.bits (number_on s.plane u w) };

    ghost takes = { λ s base. IsSmall s.plane };

    fn among(&self, first: i32, seconds: Window) -> u64 {
        let from = number_on(self.plane, first, seconds.base);
        let base = i64::from(self.second.base);
        common(rebased(self.second.bits, base, from), seconds.bits)
    }
}

/// The numbers of the second variable that the numbers of two windows make, as bits, where bit 0 stands for a base.
pub fn seconds_of(plane: Plane, across: Window, first: Window, base: i32) -> u64
    requires small { IsSmall plane }
    requires across_room { HasRoom across.base }
    ensures { AreOnes result (λ i. IsMade plane (λ u. IsBit across.base across.bits u)
        (λ w. IsBit first.base first.bits w) (base +ℤ pos i)) }
{
    let made = OnWindow {
        plane: plane.turned(),
        second: first,
    };
    related(across, Window::all(base), &made).seconds.bits
}

/// The bits of the same numbers, where bit 0 stood for one base and is to stand for another; those that leave the word are lost.
fn rebased(word: u64, from: i64, to: i64) -> u64
    ensures { AreOnes result (λ i. IsBit from word (to +ℤ pos i)) }
{
    let distance = from.abs_diff(to);
    if distance >= 64 {
        return 0;
    }
    if from <= to {
        lowered(word, distance as u32)
    } else {
        raised(word, distance as u32)
    }
}

/// The number of the second variable that lies on a plane with one across and one of the first.
fn number_on(plane: Plane, across: i32, first: i32) -> i64
    requires { IsSmall plane }
    ensures on { result ≡ number_on plane across first }
    ensures floor { neg_ℤ (pos (2 ^ 40)) ≤ℤ result }
    ensures ceiling { result ≤ℤ pos (2 ^ 40) }
{
    let far = i64::from(plane.factor) * i64::from(across);
    i64::from(first) + far - i64::from(plane.number)
}
