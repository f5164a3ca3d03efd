//! Sets of numbers.
ghost use Rattle.std.specs.Prelude.{◌≡◌, ◌<◌, ◌/◌, ◌↔◌, ◌⊎◌, ℕ, length, slice_index, IfOk, IsTrue, false};
ghost use Rattle.fz_bits.specs.Members.{HasMember, IsOneOf, words_for};

use crate::chunk::Chunk;
use crate::word::{common, either, has_bit, with_bit, without_bit};
use std::alloc::{AllocError, Global};
use std::marker::Model;

/// A set of numbers below a size that it was made for: one bit for each, 64 in a word.
#[derive(Drop)]
pub struct BitSet {
    words: Vec<u64>,
}

impl Model for BitSet {
    ghost use Rattle.std.specs.Prelude.{ℕ, List};

    ghost Value = { List ℕ };

    ghost view = { λ s. s.words.items };
}

impl BitSet {
    /// A set for numbers below a size that has none of them.
    ///
    /// # Errors
    /// `AllocError` where there is no memory.
    pub fn none(alloc: Global, size: usize) -> Result<BitSet, AllocError>
        ensures none { IfOk result (λ s. (i : ℕ) → HasMember s i → ⊥) }
        ensures size { IfOk result (λ s. length s ≡ words_for size) }
    {
        let words = Vec::from_elem(alloc, 0, size / 64 + 1)?;
        Ok(BitSet { words })
    }

    /// A set of all numbers below a size.
    ///
    /// # Errors
    /// `AllocError` where there is no memory.
    pub fn all(alloc: Global, size: usize) -> Result<BitSet, AllocError>
        ensures members { IfOk result (λ s. (i : ℕ) → HasMember s i ↔ (i < size)) }
        ensures size { IfOk result (λ s. length s ≡ words_for size) }
    {
        let mut set = BitSet::none(alloc, size)?;
        set.fill(size);
        Ok(set)
    }

    /// Whether a number is in the set.
    pub fn has(&self, number: usize) -> bool
        requires { number / 64 < length self.now }
        ensures { IsTrue result ↔ HasMember self.now number }
    {
        has_bit(self.words[number / 64], (number % 64) as u32)
    }

    /// The bits of a word, or 0 where there is none.
    pub fn word(&self, place: usize) -> u64
        ensures { result ≡ slice_index self.now place }
    {
        match self.words.get(place) {
            Some(word) => *word,
            None => 0,
        }
    }

    /// Puts a number into the set.
    pub fn insert(&mut self, number: usize)
        requires { number / 64 < length self.old }
        ensures members { (i : ℕ) → HasMember self.new i ↔ (HasMember self.old i ⊎ (i ≡ number)) }
        ensures size { length self.new ≡ length self.old }
    {
        self.join(Chunk::one(number));
    }

    /// Takes a number from the set.
    pub fn remove(&mut self, number: usize)
        requires { number / 64 < length self.old }
        ensures members { (i : ℕ) → HasMember self.new i
            ↔ (HasMember self.old i × (i ≡ number → ⊥)) }
        ensures size { length self.new ≡ length self.old }
    {
        let place = number / 64;
        self.words[place] = without_bit(self.words[place], (number % 64) as u32);
    }

    /// Puts all numbers below a size into the set, and takes all others from it.
    pub fn fill(&mut self, size: usize)
        requires { length self.old ≡ words_for size }
        ensures members { (i : ℕ) → HasMember self.new i ↔ (i < size) }
        ensures size { length self.new ≡ length self.old }
    {
        self.words.fill(u64::MAX);
        self.words[size / 64] = (1 << (size % 64)) - 1;
    }

    /// Takes all numbers from the set.
    pub fn clear(&mut self)
        ensures none { (i : ℕ) → HasMember self.new i → ⊥ }
        ensures size { length self.new ≡ length self.old }
    {
        self.words.fill(0);
    }

    /// Puts the numbers of a chunk into the set.
    pub fn join(&mut self, chunk: Chunk)
        requires { chunk.word < length self.old }
        ensures members { (i : ℕ) → HasMember self.new i ↔ (HasMember self.old i ⊎ IsOneOf chunk i) }
        ensures size { length self.new ≡ length self.old }
    {
        self.words[chunk.word] = either(self.words[chunk.word], chunk.bits);
    }

    /// Keeps the numbers that another set has too.
    pub fn meet(&mut self, other: &BitSet)
        requires { length self.old ≡ length other.now }
        ensures members { (i : ℕ) → HasMember self.new i ↔ (HasMember self.old i × HasMember other.now i) }
        ensures size { length self.new ≡ length self.old }
    {
        for (place, word) in other.words.iter().enumerate() {
            self.words[place] = common(self.words[place], *word);
        }
    }

    /// Whether a number of a chunk is in the set.
    pub fn meets(&self, chunk: Chunk) -> bool
        requires { chunk.word < length self.now }
        ensures { IsTrue result ↔ ((i : ℕ) × HasMember self.now i × IsOneOf chunk i) }
    {
        common(self.words[chunk.word], chunk.bits) != 0
    }

    /// Whether no number is in the set.
    pub fn is_empty(&self) -> bool
        ensures none { IsTrue result → (i : ℕ) → HasMember self.now i → ⊥ }
        ensures some { result ≡ false → (i : ℕ) × HasMember self.now i }
    {
        for word in &self.words {
            if *word != 0 {
                return false;
            }
        }
        true
    }

    /// Another set of the same numbers.
    ///
    /// # Errors
    /// `AllocError` where there is no memory.
    pub fn copy(&self) -> Result<BitSet, AllocError>
        ensures { IfOk result (λ s. s ≡ self.now) }
    {
        let words = Vec::from_slice(*self.words.allocator(), &self.words)?;
        Ok(BitSet { words })
    }

    /// Takes on the numbers of a set that was made for as many.
    pub fn copy_from(&mut self, other: &BitSet)
        requires { length self.old ≡ length other.now }
        ensures { self.new ≡ other.now }
    {
        self.words.copy_from_slice(&other.words);
    }
}
