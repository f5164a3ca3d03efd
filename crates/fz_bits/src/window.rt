//! Some of 64 numbers that follow one another.
ghost use Rattle.std.specs.Prelude.{◌≡◌, ◌<◌, ◌↔◌, ◌⊎◌, ◌≤ℤ◌, ◌+ℤ◌, ℤ, pos, IsTrue};

use crate::word::{has_bit, lowest_bit, run_of, with_bit, without_bit};

/// Some of the 64 numbers from a base on: they stand at the ones of a word, whose bit 0 stands for the base.
#[derive(Clone, Copy)]
pub struct Window {
    pub base: i32,
    pub bits: u64,
}

impl Window {
    ghost use Rattle.fz_bits.specs.Windows.{IsBit};

    /// None of them.
    pub fn none(base: i32) -> Window
        ensures base { result.base ≡ base }
        ensures numbers { (x : ℤ) → IsBit base result.bits x → ⊥ }
    {
        Window { base, bits: 0 }
    }

    /// All of them.
    pub fn all(base: i32) -> Window
        ensures base { result.base ≡ base }
        ensures numbers { (x : ℤ) → IsBit base result.bits x
            ↔ ((base ≤ℤ x) × (x ≤ℤ (base +ℤ pos 63))) }
    {
        let bits = run_of(0, 63);
        Window { base, bits }
    }

    /// Whether a number is one of them.
    pub fn has(self, number: i32) -> bool
        ensures { IsTrue result ↔ IsBit self.base self.bits number }
    {
        if number < self.base {
            return false;
        }
        let place = number.abs_diff(self.base);
        if place >= 64 {
            return false;
        }
        has_bit(self.bits, place)
    }

    /// These numbers and another.
    pub fn with(self, number: i32) -> Window
        requires low { self.base ≤ℤ number }
        requires high { number ≤ℤ (self.base +ℤ pos 63) }
        ensures base { result.base ≡ self.base }
        ensures numbers { (x : ℤ) → IsBit self.base result.bits x
            ↔ (IsBit self.base self.bits x ⊎ (x ≡ number)) }
    {
        let place = number.abs_diff(self.base);
        let bits = with_bit(self.bits, place);
        Window {
            base: self.base,
            bits,
        }
    }

    /// These numbers without one.
    pub fn without(self, number: i32) -> Window
        requires low { self.base ≤ℤ number }
        requires high { number ≤ℤ (self.base +ℤ pos 63) }
        ensures base { result.base ≡ self.base }
        ensures numbers { (x : ℤ) → IsBit self.base result.bits x
            ↔ (IsBit self.base self.bits x × (x ≡ number → ⊥)) }
        ensures falls { IsBit self.base self.bits number → result.bits < self.bits }
    {
        let place = number.abs_diff(self.base);
        let bits = without_bit(self.bits, place);
        Window {
            base: self.base,
            bits,
        }
    }

    /// The least of them.
    pub fn first(self) -> i32
        requires some { 0 < self.bits }
        requires ceiling { (self.base +ℤ pos 63) ≤ℤ pos 2147483647 }
        ensures number { IsBit self.base self.bits result }
        ensures least { (x : ℤ) → IsBit self.base self.bits x → result ≤ℤ x }
    {
        let place = lowest_bit(self.bits);
        self.base + place as i32
    }
}
