//! The rows of each of 64 numbers, of 64 rows.
ghost use Rattle.std.specs.Prelude.{◌≡◌, ◌⊎◌, ℕ, slice_index, IfOk, IsTrue, false};
ghost use Rattle.fz_bits.specs.Words.{HasBit, AreOnes};
ghost use Rattle.fz_column.specs.Lines.{HasOneOf, HasOneIn};

use fz_bits::word::{common, either, lowest_bit, with_bit, without_bit};
use std::alloc::{AllocError, Global};
use std::marker::Model;

/// For each of the first numbers a word, whose ones are the rows that have it; no row has a number without a word.
#[derive(Drop)]
pub struct Line {
    words: Vec<u64>,
}

impl Model for Line {
    ghost use Rattle.std.specs.Prelude.{ℕ, List};

    ghost Value = { List ℕ };

    ghost view = { λ l. l.words.items };
}

impl Line {
    /// Words for that many numbers, which no row has.
    ///
    /// # Errors
    /// `AllocError` where there is no memory.
    pub fn none(alloc: Global, size: usize) -> Result<Line, AllocError>
        ensures { IfOk result (λ l. (k : ℕ) → slice_index l k ≡ 0) }
    {
        let words = Vec::from_elem(alloc, 0, size)?;
        Ok(Line { words })
    }

    /// The rows that have a number.
    pub fn word(&self, place: u32) -> u64
        ensures { result ≡ slice_index self.now place }
    {
        match self.words.get(place as usize) {
            Some(word) => *word,
            None => 0,
        }
    }

    /// Adds rows to those of a number, and says whether that has a word.
    pub fn join(&mut self, place: u32, rows: u64) -> bool
        ensures none { result ≡ false → self.new ≡ self.old }
        ensures rows { IsTrue result → (k : ℕ) → AreOnes (slice_index self.new k)
            (λ r. HasBit (slice_index self.old k) r ⊎ ((k ≡ place) × HasBit rows r)) }
    {
        let place = place as usize;
        if place >= self.words.len() {
            return false;
        }
        self.words[place] = either(self.words[place], rows);
        true
    }

    /// The rows that have one of some numbers.
    pub fn rows_of(&self, numbers: u64) -> u64
        ensures { AreOnes result (HasOneOf self.now numbers) }
    {
        let mut left = numbers;
        let mut rows = 0;
        'numbers: while left != 0 {
            let place = lowest_bit(left);
            left = without_bit(left, place);
            rows = either(rows, self.word(place));
        }
        rows
    }

    /// Which of some numbers one of some rows has.
    pub fn numbers_of(&self, numbers: u64, rows: u64) -> u64
        ensures { AreOnes result (λ k. HasBit numbers k × HasOneIn self.now rows k) }
    {
        let mut left = numbers;
        let mut found = 0;
        'numbers: while left != 0 {
            let place = lowest_bit(left);
            left = without_bit(left, place);
            if common(rows, self.word(place)) != 0 {
                found = with_bit(found, place);
            }
        }
        found
    }
}
