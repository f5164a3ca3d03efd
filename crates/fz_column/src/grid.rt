//! The rows of each of 64 numbers, of a whole table.
ghost use Rattle.std.specs.Prelude.{◌≡◌, ◌<◌, ◌↔◌, ◌⊎◌, ℕ, length, IfOk, IsTrue};
ghost use Rattle.fz_bits.specs.Words.{HasBit, AreOnes};
ghost use Rattle.fz_bits.specs.Members.{HasMember, IsOneOf};
ghost use Rattle.fz_column.specs.Lines.{HasOneOf, HasOneIn};
ghost use Rattle.fz_column.specs.Grids.{line_at, HasRow, IsWhole, HasRowOf, HasNumberOf};

use crate::line::Line;
use fz_bits::Chunk;
use fz_bits::word::{common, either, with_bit, without};
use std::alloc::{AllocError, Global};

/// A line for each 64 rows, and which numbers stand in them.
#[derive(Drop)]
pub struct Grid {
    pub all: u64,
    pub lines: Vec<Line>,
}

impl Grid {
    /// That many lines with words for that many numbers, which no row has.
    ///
    /// # Errors
    /// `AllocError` where there is no memory.
    pub fn none(alloc: Global, size: usize, count: usize) -> Result<Grid, AllocError>
        ensures { IfOk result (λ g. (k i : ℕ) → HasRow g k i → ⊥) }
    {
        let mut lines = Vec::with_capacity(alloc, count)?;
        for _ in 0..count {
            let line = Line::none(alloc, size)?;
            lines.push(line)?;
        }
        Ok(Grid { all: 0, lines })
    }

    /// Adds rows to those of a number, and says whether there is a word for them.
    pub fn join(&mut self, place: u32, rows: Chunk) -> bool
        requires place { place < 64 }
        ensures whole { IsWhole self.old → IsWhole self.new }
        ensures rows { IsTrue result → (k i : ℕ) → HasRow self.new k i
            ↔ (HasRow self.old k i ⊎ ((k ≡ place) × IsOneOf rows i)) }
    {
        if rows.word >= self.lines.len() {
            return false;
        }
        self.all = with_bit(self.all, place);
        self.lines[rows.word].join(place, rows.bits)
    }

    /// Keeps the rows of a set that have one of some numbers.
    pub fn keep(&self, numbers: u64, rows: &mut [u64])
        requires whole { IsWhole self.now }
        requires each { (i : ℕ) → HasMember rows.old i → (k : ℕ) × HasRow self.now k i }
        ensures rows { (i : ℕ) → HasMember rows.new i
            ↔ (HasMember rows.old i × HasRowOf self.now numbers i) }
        ensures size { length rows.new ≡ length rows.old }
    {
        if common(self.all, numbers) == self.all {
            return;
        }
        for word in 0..rows.len() {
            if rows[word] != 0 {
                rows[word] = common(rows[word], self.rows_at(word, numbers));
            }
        }
    }

    /// The rows of a line that have one of some numbers.
    fn rows_at(&self, line: usize, numbers: u64) -> u64
        ensures { AreOnes result (HasOneOf (line_at self.now line) numbers) }
    {
        match self.lines.get(line) {
            Some(line) => line.rows_of(numbers),
            None => 0,
        }
    }

    /// Which of some numbers one of some rows has.
    pub fn numbers_of(&self, numbers: u64, rows: &[u64]) -> u64
        ensures { AreOnes result (λ k. HasBit numbers k × HasNumberOf self.now rows.now k) }
    {
        let mut found = 0;
        for (word, bits) in rows.iter().enumerate() {
            if *bits == 0 {
                continue;
            }
            let missing = without(numbers, found);
            found = either(found, self.numbers_at(word, missing, *bits));
            if found == numbers {
                return found;
            }
        }
        found
    }

    /// Which of some numbers one of some rows of a line has.
    fn numbers_at(&self, line: usize, numbers: u64, rows: u64) -> u64
        ensures { AreOnes result (λ k. HasBit numbers k × HasOneIn (line_at self.now line) rows k) }
    {
        match self.lines.get(line) {
            Some(line) => line.numbers_of(numbers, rows),
            None => 0,
        }
    }
}
