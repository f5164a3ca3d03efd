//! The rows of a table of two columns as words of partners.
ghost use Rattle.std.specs.Prelude.{◌≡◌, ◌↔◌, ◌⊎◌, ◌<◌, ℤ, IfOk, IfSome, IsTrue};
ghost use Rattle.fz_table.specs.Partners.{ArePartners, ArePairsOf};

use fz_bits::word::with_bit;
use fz_column::places::{HIGHEST_BASE, LOWEST_BASE, place_of};
use std::alloc::{AllocError, Global};

/// For each of at most 64 numbers that follow one another a word of its partners: the numbers at the second place of the rows that
/// have it at the first.
#[derive(Drop)]
pub struct Pairs {
    /// The number of the first word.
    pub first: i32,
    /// The number that bit 0 of each word stands for.
    pub base: i32,
    pub words: Vec<u64>,
}

/// A row may take that many words, at most.
const WORDS_A_ROW: usize = 4;

/// The pairs of a table whose rows have a width, if that is two, and the numbers at a place are near to one another.
///
/// # Errors
/// `AllocError` where there is no memory.
pub fn pairs_of_two(alloc: Global, table: &[i32], width: usize) -> Result<Option<Pairs>, AllocError>
    ensures { IfOk result (λ o. IfSome o (λ p. ArePairsOf table.now p × (width ≡ 2))) }
{
    if width != 2 {
        return Ok(None);
    }
    pairs_of(alloc, table)
}

/// The pairs of a table of two columns; `None` where the numbers at a place are too far apart, or the rows are few for the words.
fn pairs_of(alloc: Global, table: &[i32]) -> Result<Option<Pairs>, AllocError>
    ensures { IfOk result (λ o. IfSome o (λ p. ArePairsOf table.now p)) }
{
    let (lowest, last) = ends_at(table, 0);
    let first = lowest.clamp(LOWEST_BASE, HIGHEST_BASE);
    let Some(count) = words_for(first, last, table.len() / 2) else {
        return Ok(None);
    };
    let (least, _) = ends_at(table, 1);
    let base = least.clamp(LOWEST_BASE, HIGHEST_BASE);
    let words = Vec::from_elem(alloc, 0, count)?;
    let mut pairs = Pairs { first, base, words };
    for row in 0..table.len() / 2 {
        if !add(&mut pairs, table[row * 2], table[row * 2 + 1]) {
            return Ok(None);
        }
    }
    Ok(Some(pairs))
}

/// How many words numbers from a first to a last one take, if these are at most 64 and that many rows are worth them.
fn words_for(first: i32, last: i32, rows: usize) -> Option<usize> {
    let last = place_of(last, first)? as usize;
    if last / WORDS_A_ROW < rows {
        Some(last + 1)
    } else {
        None
    }
}

/// The least and the greatest number at one of two places.
fn ends_at(table: &[i32], place: usize) -> (i32, i32)
    requires { place < 2 }
{
    let mut ends = (i32::MAX, i32::MIN);
    for row in 0..table.len() / 2 {
        let number = table[row * 2 + place];
        ends = (ends.0.min(number), ends.1.max(number));
    }
    ends
}

/// Adds a row, if both numbers have their place.
fn add(pairs: &mut Pairs, first: i32, second: i32) -> bool
    ensures first { pairs.new.first ≡ pairs.old.first }
    ensures base { pairs.new.base ≡ pairs.old.base }
    ensures added { IsTrue result → (n m : ℤ) → ArePartners pairs.new n m
        ↔ (ArePartners pairs.old n m ⊎ ((n ≡ first) × (m ≡ second))) }
{
    let Some(place) = place_of(first, pairs.first) else {
        return false;
    };
    let Some(bit) = place_of(second, pairs.base) else {
        return false;
    };
    let place = place as usize;
    if place >= pairs.words.len() {
        return false;
    }
    pairs.words[place] = with_bit(pairs.words[place], bit);
    true
}
