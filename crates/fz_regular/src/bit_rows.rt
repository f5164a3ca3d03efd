//! Rows of bits.
ghost use Rattle.std.specs.Prelude.{◌≡◌, ◌<◌, ◌≤◌, ◌/◌, ◌%◌, ◌*◌, ◌↔◌, ◌⊎◌, ℕ, length, IfOk, IsTrue, MatchOption};
ghost use Rattle.fz_bits.specs.Words.{HasBit};
ghost use Rattle.fz_regular.specs.BitRows.{Has, HasRow, HaveBoth, IsNext, word_at, width_for};

use fz_bits::word::{common, either, has_bit, lowered, lowest_bit, with_bit, without_bit};
use std::alloc::{AllocError, Global};

/// Rows of bits, each as many words.
#[derive(Drop)]
pub struct BitRows {
    pub words: Vec<u64>,
    /// How many words a row has.
    pub width: usize,
}

impl BitRows {
    /// That many rows for that many bits, of which none is set.
    ///
    /// # Errors
    /// `AllocError` where there is no memory.
    pub fn none(alloc: Global, rows: usize, bits: u32) -> Result<BitRows, AllocError>
        ensures none { IfOk result (λ b. (i k : ℕ) → Has b i k → ⊥) }
        ensures rows { IfOk result (λ b. (i : ℕ) → i < rows → HasRow b i) }
        ensures width { IfOk result (λ b. b.width ≡ width_for bits) }
    {
        let width = (bits as usize + 63) / 64;
        let Some(count) = rows.checked_mul(width) else {
            return Err(AllocError);
        };
        let words = Vec::from_elem(alloc, 0, count)?;
        Ok(BitRows { words, width })
    }

    /// As many rows as wide, of which no bit is set.
    ///
    /// # Errors
    /// `AllocError` where there is no memory.
    pub fn cleared(&self) -> Result<BitRows, AllocError>
        ensures none { IfOk result (λ b. (i k : ℕ) → Has b i k → ⊥) }
        ensures width { IfOk result (λ b. b.width ≡ self.now.width) }
        ensures size { IfOk result (λ b. length b.words.items ≡ length self.now.words.items) }
    {
        let words = Vec::from_elem(*self.words.allocator(), 0, self.words.len())?;
        Ok(BitRows {
            words,
            width: self.width,
        })
    }

    /// A word of a row.
    pub fn word(&self, row: usize, place: usize) -> u64
        requires row { HasRow self.now row }
        requires place { place < self.now.width }
        ensures { result ≡ word_at self.now row place }
    {
        self.words[row * self.width + place]
    }

    /// Writes a word of a row.
    pub fn set_word(&mut self, row: usize, place: usize, bits: u64)
        requires row { HasRow self.old row }
        requires place { place < self.old.width }
        ensures width { self.new.width ≡ self.old.width }
        ensures size { length self.new.words.items ≡ length self.old.words.items }
        ensures here { (k : ℕ) → k / 64 ≡ place → Has self.new row k ↔ HasBit bits (k % 64) }
        ensures others { (i k : ℕ) → ((i ≡ row) × (k / 64 ≡ place) → ⊥)
            → Has self.new i k ↔ Has self.old i k }
    {
        self.words[row * self.width + place] = bits;
    }

    /// Sets bits of a word of a row.
    pub fn join(&mut self, row: usize, place: usize, bits: u64)
        requires row { HasRow self.old row }
        requires place { place < self.old.width }
        ensures width { self.new.width ≡ self.old.width }
        ensures size { length self.new.words.items ≡ length self.old.words.items }
        ensures bits { (i k : ℕ) → Has self.new i k
            ↔ (Has self.old i k ⊎ ((i ≡ row) × (k / 64 ≡ place) × HasBit bits (k % 64))) }
    {
        let bits = either(self.word(row, place), bits);
        self.set_word(row, place, bits);
    }

    /// Sets a bit of a row.
    pub fn insert(&mut self, row: usize, bit: usize)
        requires row { HasRow self.old row }
        requires bit { bit / 64 < self.old.width }
        ensures width { self.new.width ≡ self.old.width }
        ensures size { length self.new.words.items ≡ length self.old.words.items }
        ensures bits { (i k : ℕ) → Has self.new i k ↔ (Has self.old i k ⊎ ((i ≡ row) × (k ≡ bit))) }
    {
        self.join(row, bit / 64, with_bit(0, (bit % 64) as u32));
    }

    /// Whether a bit of a row is set.
    pub fn has(&self, row: usize, bit: usize) -> bool
        requires row { HasRow self.now row }
        requires bit { bit / 64 < self.now.width }
        ensures { IsTrue result ↔ Has self.now row bit }
    {
        has_bit(self.word(row, bit / 64), (bit % 64) as u32)
    }

    /// Clears a bit of a row.
    pub fn remove(&mut self, row: usize, bit: usize)
        requires row { HasRow self.old row }
        requires bit { bit / 64 < self.old.width }
        ensures width { self.new.width ≡ self.old.width }
        ensures size { length self.new.words.items ≡ length self.old.words.items }
        ensures bits { (i k : ℕ) → Has self.new i k
            ↔ (Has self.old i k × ((i ≡ row) × (k ≡ bit) → ⊥)) }
    {
        let place = bit / 64;
        let bits = without_bit(self.word(row, place), (bit % 64) as u32);
        self.set_word(row, place, bits);
    }

    /// The first bit of a row from one on that is set, if there is one.
    pub fn next(&self, row: usize, from: usize) -> Option<usize>
        requires { HasRow self.now row }
        ensures { MatchOption result ((k : ℕ) → from ≤ k → Has self.now row k → ⊥)
            (λ k. IsNext (Has self.now row) from k) }
    {
        self.next_common(row, self, row, from)
    }

    /// The first bit from one on that is set in a row and in one of other rows, if there is one.
    pub fn next_common(
        &self,
        row: usize,
        other: &BitRows,
        other_row: usize,
        from: usize,
    ) -> Option<usize>
        requires here { HasRow self.now row }
        requires there { HasRow other.now other_row }
        ensures { MatchOption result
            ((k : ℕ) → from ≤ k → HaveBoth self.now row other.now other_row k → ⊥)
            (λ k. IsNext (HaveBoth self.now row other.now other_row) from k) }
    {
        let first = from / 64;
        if first >= self.width.min(other.width) {
            return None;
        }
        let both = common(self.word(row, first), other.word(other_row, first));
        let here = lowered(both, (from % 64) as u32);
        if here != 0 {
            return Some(from + lowest_bit(here) as usize);
        }
        self.first_common(row, other, other_row, first + 1)
    }

    /// The first bit that is set in both rows of the words from one on, if there is one.
    fn first_common(
        &self,
        row: usize,
        other: &BitRows,
        other_row: usize,
        first: usize,
    ) -> Option<usize>
        requires here { HasRow self.now row }
        requires there { HasRow other.now other_row }
        ensures { MatchOption result
            ((k : ℕ) → first * 64 ≤ k → HaveBoth self.now row other.now other_row k → ⊥)
            (λ k. IsNext (HaveBoth self.now row other.now other_row) (first * 64) k) }
    {
        for place in first..self.width.min(other.width) {
            let word = common(self.word(row, place), other.word(other_row, place));
            if word != 0 {
                return Some(place * 64 + lowest_bit(word) as usize);
            }
        }
        None
    }
}
