//! The rows of each number of a column as words of one width, where that takes hardly more room than their chunks.
ghost use Rattle.std.specs.Prelude.{◌≡◌, ◌≤◌, ◌≤ℤ◌, ◌+◌, ◌↔◌, ◌⊎◌, ℕ, ℤ, [], length, IfOk, OnOk, IfSome, IsTrue};
ghost use Rattle.fz_sets.specs.Sets.{IsInSet};
ghost use Rattle.fz_bits.specs.Members.{HasMember};
ghost use Rattle.fz_bits.specs.Windows.{IsBit};
ghost use Rattle.fz_column.specs.Packed.{words_of, HasRow, IsWhole, ArePacked};
ghost use Rattle.fz_column.specs.Supports.{AreInOrder, AreSized};

use crate::row_set::{clear, join_all, meeting};
use crate::spans::Spans;
use crate::supports::Support;
use crate::walk::join_to;
use fz_bits::Window;
use fz_dom::Dom;
use std::alloc::{AllocError, Global};

/// A number with the place of the first word of its rows.
#[derive(Clone, Copy, Drop)]
pub struct Numbered {
    pub number: i32,
    pub first: usize,
}

/// The numbers of a column, and for each that many words of rows.
#[derive(Drop)]
pub struct Packed {
    pub numbers: Vec<Numbered>,
    pub words: Vec<u64>,
    pub width: usize,
}

/// A chunk may take that many words, at most.
const WORDS_A_CHUNK: usize = 2;

/// The numbers and rows of supports, where the rows take more than one word and most words have some.
///
/// # Errors
/// `AllocError` where there is no memory.
pub fn packed_of(alloc: Global, supports: &[Support]) -> Result<Option<Packed>, AllocError>
    requires { AreInOrder supports.now }
    ensures { IfOk result (λ o. IfSome o (λ p. ArePacked supports.now p)) }
{
    let Some(width) = width_of(supports) else {
        return Ok(None);
    };
    if width < 2 {
        return Ok(None);
    }
    let mut rows = Vec::from_elem(alloc, 0, width)?;
    let mut packed = Packed {
        numbers: Vec::new(alloc),
        words: Vec::new(alloc),
        width,
    };
    if packed.fill(supports, &mut rows)? {
        Ok(Some(packed))
    } else {
        Ok(None)
    }
}

/// How many words the rows of supports take; `None` where no set of rows has that many.
fn width_of(supports: &[Support]) -> Option<usize>
    ensures sized { IfSome result (λ w. AreSized supports.now w) }
    ensures least { IfSome result (λ w. (size : ℕ) → AreSized supports.now size → w ≤ size) }
{
    let mut width = 0;
    for support in supports {
        if support.rows.word < width {
            continue;
        }
        let Some(more) = support.rows.word.checked_add(1) else {
            return None;
        };
        width = more;
    }
    Some(width)
}

impl Packed {
    /// Adds a number with its rows.
    fn push(&mut self, number: i32, rows: &[u64]) -> Result<(), AllocError>
        requires whole { IsWhole self.old }
        requires rows { length rows.now ≡ self.old.width }
        ensures whole { OnOk result (IsWhole self.new) }
        ensures width { self.new.width ≡ self.old.width }
        ensures rows { OnOk result ((n : ℤ) (i : ℕ) → HasRow self.new n i
            ↔ (HasRow self.old n i ⊎ ((n ≡ number) × HasMember rows.now i))) }
    {
        let first = self.words.len();
        self.numbers.push(Numbered { number, first })?;
        self.words.extend_from_slice(rows)?;
        Ok(())
    }

    /// Adds the numbers and rows of supports, and says whether they take few words. What the set has is lost.
    fn fill(&mut self, supports: &[Support], rows: &mut [u64]) -> Result<bool, AllocError>
        requires order { AreInOrder supports.now }
        requires none { self.old.numbers.items ≡ [] }
        requires sized { AreSized supports.now self.old.width }
        requires least { (size : ℕ) → AreSized supports.now size → self.old.width ≤ size }
        requires rows { length rows.old ≡ self.old.width }
        ensures { IfOk result (λ b. IsTrue b → ArePacked supports.now self.new) }
    {
        let mut place = 0;
        while place < supports.len() {
            if self.words.len() / WORDS_A_CHUNK > supports.len() {
                return Ok(false);
            }
            let number = supports[place].number;
            clear(rows);
            place = join_to(supports, place, number, rows);
            self.push(number, rows)?;
        }
        self.numbers.shrink_to_fit();
        self.words.shrink_to_fit();
        Ok(true)
    }

    /// The words of a number.
    fn words_of(&self, numbered: Numbered) -> &[u64]
        requires { numbered.first + self.now.width ≤ length self.now.words.items }
        ensures words { result.now ≡ words_of self.now numbered }
        ensures size { length result.now ≡ self.now.width }
    {
        &self.words[numbered.first..numbered.first + self.width]
    }

    /// Puts the rows that have a number of a window into a set.
    pub fn join_window(&self, window: Window, rows: &mut [u64])
        requires whole { IsWhole self.now }
        requires width { self.now.width ≤ length rows.old }
        ensures rows { (i : ℕ) → HasMember rows.new i ↔ (HasMember rows.old i
            ⊎ ((n : ℤ) × HasRow self.now n i × IsBit window.base window.bits n)) }
        ensures size { length rows.new ≡ length rows.old }
    {
        for numbered in &self.numbers {
            if !window.has(numbered.number) {
                continue;
            }
            join_all(rows, self.words_of(*numbered));
        }
    }

    /// The numbers of a window that some rows have.
    pub fn numbers_within(&self, window: Window, rows: &[u64]) -> Window
        requires whole { IsWhole self.now }
        requires width { self.now.width ≤ length rows.now }
        ensures base { result.base ≡ window.base }
        ensures numbers { (n : ℤ) → IsBit window.base result.bits n
            ↔ (IsBit window.base window.bits n × (i : ℕ) × HasRow self.now n i × HasMember rows.now i) }
    {
        let mut numbers = Window::none(window.base);
        let mut near = 0;
        for numbered in &self.numbers {
            if !window.has(numbered.number) {
                continue;
            }
            let Some(word) = meeting(rows, self.words_of(*numbered), near) else {
                continue;
            };
            numbers = numbers.with(numbered.number);
            near = word;
        }
        numbers
    }

    /// Whether some rows have each number from a low to a high; it may say no where they do.
    pub fn has_all(&self, low: i32, high: i32, rows: &[u64]) -> bool
        requires whole { IsWhole self.now }
        requires width { self.now.width ≤ length rows.now }
        requires order { low ≤ℤ high }
        ensures { IsTrue result → (n : ℤ) → low ≤ℤ n → n ≤ℤ high
            → (i : ℕ) × HasRow self.now n i × HasMember rows.now i }
    {
        let mut next = low;
        let mut near = 0;
        for numbered in &self.numbers {
            if numbered.number < next {
                continue;
            }
            if numbered.number != next {
                return false;
            }
            let Some(word) = meeting(rows, self.words_of(*numbered), near) else {
                return false;
            };
            if next >= high {
                return true;
            }
            next += 1;
            near = word;
        }
        false
    }

    /// The numbers of a domain that some rows have.
    ///
    /// # Errors
    /// `AllocError` where there is no memory.
    pub fn numbers_in(&self, alloc: Global, dom: &Dom, rows: &[u64]) -> Result<Spans, AllocError>
        requires whole { IsWhole self.now }
        requires width { self.now.width ≤ length rows.now }
        ensures { IfOk result (λ s. (n : ℤ) → IsInSet s n
            ↔ (IsInSet dom.now n × (i : ℕ) × HasRow self.now n i × HasMember rows.now i)) }
    {
        let mut numbers = Spans::new(alloc);
        let mut near = 0;
        for numbered in &self.numbers {
            if !dom.contains(numbered.number) {
                continue;
            }
            let Some(word) = meeting(rows, self.words_of(*numbered), near) else {
                continue;
            };
            numbers.add(numbered.number)?;
            near = word;
        }
        Ok(numbers)
    }
}
