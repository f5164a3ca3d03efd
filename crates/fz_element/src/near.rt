//! The numbers that stand at indices, of which windows have some.
ghost use Rattle.fz_spec.specs.Truth.{IsElement};

use crate::numbers::number_at;
use fz_bits::Window;
use fz_prop::matching::Partners;

/// Numbers, each the partner of the index at which it stands.
#[derive(Clone, Copy)]
pub struct Standing<'n> {
    pub numbers: &'n [i32],
}

impl Partners for Standing<'_> {
    ghost are_partners = { λ s k n. IsElement k s.numbers.now n };

    ghost takes = { λ s base. Unit {0} };

    fn among(&self, first: i32, seconds: Window) -> u64 {
        let Some(number) = number_at(self.numbers, first) else {
            return 0;
        };
        if !seconds.has(number) {
            return 0;
        }
        Window::none(seconds.base).with(number).bits
    }
}
