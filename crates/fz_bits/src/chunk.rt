//! Some of 64 numbers that follow one another.
ghost use Rattle.std.specs.Prelude.{◌≡◌, ◌/◌, ◌↔◌, ◌⊎◌, ℕ};
ghost use Rattle.fz_bits.specs.Members.{IsOneOf};

use crate::word::with_bit;

/// Numbers of one word of a set: bit k of word w stands for 64 w + k.
#[derive(Clone, Copy, Drop)]
pub struct Chunk {
    /// The place of the word.
    pub word: usize,
    pub bits: u64,
}

impl Chunk {
    /// One number.
    pub fn one(number: usize) -> Chunk
        ensures numbers { (i : ℕ) → IsOneOf result i ↔ (i ≡ number) }
        ensures word { result.word ≡ number / 64 }
    {
        let none = Chunk {
            word: number / 64,
            bits: 0,
        };
        none.with(number)
    }

    /// These numbers and another of the same word.
    pub fn with(self, number: usize) -> Chunk
        requires { self.word ≡ number / 64 }
        ensures numbers { (i : ℕ) → IsOneOf result i ↔ (IsOneOf self i ⊎ (i ≡ number)) }
        ensures word { result.word ≡ self.word }
    {
        Chunk {
            word: self.word,
            bits: with_bit(self.bits, (number % 64) as u32),
        }
    }
}
