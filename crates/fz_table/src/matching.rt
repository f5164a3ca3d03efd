//! The numbers of two columns that are partners.
ghost use Rattle.std.specs.Prelude.{◌≡◌, ◌↔◌, ℤ};
ghost use Rattle.fz_bits.specs.Windows.{IsBit};
ghost use Rattle.fz_table.specs.Partners.{ArePartners};

use crate::pairs::Pairs;
use fz_bits::Window;
use fz_bits::word::common;
use fz_column::places::place_of;
use fz_prop::matching::Partners;

impl Partners for Pairs {
    ghost are_partners = { λ pairs. ArePartners pairs };

    ghost takes = { λ pairs base. base ≡ pairs.base };

    fn among(&self, first: i32, seconds: Window) -> u64 {
        common(partners_of(self, first), seconds.bits)
    }
}

/// The partners of a number.
fn partners_of(pairs: &Pairs, number: i32) -> u64
    ensures { (m : ℤ) → IsBit pairs.now.base result m ↔ ArePartners pairs.now number m }
{
    let Some(place) = place_of(number, pairs.first) else {
        return 0;
    };
    match pairs.words.get(place as usize) {
        Some(word) => *word,
        None => 0,
    }
}
