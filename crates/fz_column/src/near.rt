//! The numbers of a column that are among 64 that follow one another, and the rows that have them.
ghost use Rattle.std.specs.Prelude.{◌≡◌, ◌↔◌, ◌⊎◌, ℕ, ℤ, length};
ghost use Rattle.fz_bits.specs.Members.{HasMember};
ghost use Rattle.fz_bits.specs.Windows.{IsBit};
ghost use Rattle.fz_column.specs.Supports.{AreSized, AreEnds, HasNumber, StandsIn};

use crate::row_set::{join, meets};
use crate::supports::Support;
use crate::walk::next_of;
use fz_bits::Window;

/// Puts the rows that have a number of a window into a set.
pub fn join_near(supports: &[Support], ends: &[usize], window: Window, rows: &mut [u64])
    requires ends { AreEnds supports.now ends.now }
    requires sized { AreSized supports.now (length rows.old) }
    ensures rows { (i : ℕ) → HasMember rows.new i ↔ (HasMember rows.old i
        ⊎ ((n : ℤ) × HasNumber supports.now n i × IsBit window.base window.bits n)) }
    ensures size { length rows.new ≡ length rows.old }
{
    let mut place = 0;
    while place < supports.len() {
        let support = supports[place];
        if window.has(support.number) {
            join(rows, support.rows);
            place += 1;
        } else {
            place = next_of(supports, ends, place);
        }
    }
}

/// The numbers of a window that some rows have.
pub fn numbers_near(supports: &[Support], ends: &[usize], window: Window, rows: &[u64]) -> Window
    requires ends { AreEnds supports.now ends.now }
    requires sized { AreSized supports.now (length rows.now) }
    ensures base { result.base ≡ window.base }
    ensures numbers { (n : ℤ) → IsBit window.base result.bits n
        ↔ (IsBit window.base window.bits n × StandsIn supports.now rows.now n) }
{
    let mut numbers = Window::none(window.base);
    let mut place = 0;
    while place < supports.len() {
        let support = supports[place];
        if !window.has(support.number) {
            place = next_of(supports, ends, place);
        } else if meets(rows, support.rows) {
            numbers = numbers.with(support.number);
            place = next_of(supports, ends, place);
        } else {
            place += 1;
        }
    }
    numbers
}
