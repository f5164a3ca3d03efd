//! Columns whose numbers are among 64 that follow one another.
ghost use Rattle.std.specs.Prelude.{◌≡◌, ◌↔◌, ℕ, ℤ, pos, ◌+ℤ◌, length, IfOk, IfSome, IsTrue};
ghost use Rattle.fz_sets.specs.Sets.{IsInSet};
ghost use Rattle.fz_bits.specs.Words.{AreOnes};
ghost use Rattle.fz_strength.specs.Domains.{term_set, IsTermOf};
ghost use Rattle.fz_column.specs.Grids.{HasRow, IsWhole};
ghost use Rattle.fz_column.specs.Supports.{HasNumber};
ghost use Rattle.fz_column.specs.Dense.{IsDenseOf, HasRowAt};

use crate::grid::Grid;
use crate::places::{HIGHEST_BASE, LOWEST_BASE, place_of};
use crate::supports::Support;
use fz_bits::word::with_bit;
use fz_prop::Store;
use fz_prop::terms::{value_of, word_of};
use fz_spec::term::Term;
use std::alloc::{AllocError, Global};

/// For each number from a base on the rows that have it.
#[derive(Drop)]
pub struct Dense {
    pub base: i32,
    pub grid: Grid,
}

/// A table of so few rows has none.
const FEW: usize = 9;

/// A support may take that many words, or a row one.
const WORDS_A_SUPPORT: usize = 4;

/// The rows of each number of the supports of that many rows; `None` where the numbers are too far apart, or the rows are few for
/// the words.
///
/// # Errors
/// `AllocError` where there is no memory.
pub fn dense_of(
    alloc: Global,
    supports: &[Support],
    rows: usize,
) -> Result<Option<Box<Dense>>, AllocError>
    ensures { IfOk result (λ o. IfSome o (λ b. IsDenseOf b.value supports.now)) }
{
    let Some((first, last)) = ends_of(supports, rows) else {
        return Ok(None);
    };
    let base = first.clamp(LOWEST_BASE, HIGHEST_BASE);
    let lines = rows / 64 + 1;
    let Some(size) = size_of(
        base,
        last,
        lines,
        supports.len().max(rows / WORDS_A_SUPPORT),
    ) else {
        return Ok(None);
    };
    let mut grid = Grid::none(alloc, size, lines)?;
    if !fill(&mut grid, base, supports) {
        return Ok(None);
    }
    Ok(Some(Box::new(alloc, Dense { base, grid })?))
}

/// The first and the last number of the supports of that many rows, unless these are few.
fn ends_of(supports: &[Support], rows: usize) -> Option<(i32, i32)> {
    if rows <= FEW {
        return None;
    }
    let first = supports.first()?;
    let last = supports.last()?;
    Some((first.number, last.number))
}

/// How many words a line takes for the numbers from a base to a last one, if these are at most 64, and that many supports are worth
/// the words of that many lines.
fn size_of(base: i32, last: i32, lines: usize, supports: usize) -> Option<usize> {
    let size = place_of(last, base)? as usize + 1;
    let words = size.checked_mul(lines)?;
    if words / WORDS_A_SUPPORT <= supports {
        Some(size)
    } else {
        None
    }
}

/// Puts the rows of supports into a grid, and says whether there is a word for each number from a base on.
fn fill(grid: &mut Grid, base: i32, supports: &[Support]) -> bool
    requires whole { IsWhole grid.old }
    requires none { (k i : ℕ) → HasRow grid.old k i → ⊥ }
    ensures whole { IsWhole grid.new }
    ensures rows { IsTrue result → (n : ℤ) (i : ℕ) → HasNumber supports.now n i ↔ HasRowAt base grid.new n i }
{
    for support in supports {
        let Some(place) = place_of(support.number, base) else {
            return false;
        };
        if !grid.join(place, support.rows) {
            return false;
        }
    }
    true
}

/// The places of what is left of a term, counted from a base on.
pub fn places_of(store: &Store, term: Term, base: i32) -> u64
    requires { IsTermOf (length store.now.doms) term }
    ensures { AreOnes result (λ k. IsInSet (term_set store.now.doms term) (base +ℤ pos k)) }
{
    match value_of(store, term) {
        Some(number) => place_alone(number, base),
        None => word_of(store, term, base),
    }
}

/// The place of a number, counted from a base on.
fn place_alone(number: i32, base: i32) -> u64
    ensures { AreOnes result (λ k. (base +ℤ pos k) ≡ number) }
{
    match place_of(number, base) {
        Some(place) => with_bit(0, place),
        None => 0,
    }
}
