//! Numbers with the rows that have them in a column of a table.
ghost use Rattle.std.specs.Prelude.{◌≡◌, ◌≤◌, ◌≤ℤ◌, ◌<ℤ◌, ◌/◌, ◌↔◌, ◌⊎◌, ℕ, ℤ, length, IfOk, OnOk, IsTrue};
ghost use Rattle.std.specs.List.{AllWithin};
ghost use Rattle.fz_bits.specs.Members.{IsOneOf};
ghost use Rattle.fz_column.specs.Supports.{IsIn, AreInOrder, IsRising, HasNumber, IsPlaced, IsAdded};

use fz_bits::Chunk;
use std::alloc::{AllocError, Global};

/// Room for that many supports is taken at once, at most.
const AT_ONCE: usize = 16;

/// A number and some rows that have it.
#[derive(Clone, Copy, Drop)]
pub struct Support {
    pub number: i32,
    pub rows: Chunk,
}

impl Support {
    /// A number and one row.
    fn one(number: i32, row: usize) -> Support
        ensures number { result.number ≡ number }
        ensures word { result.rows.word ≡ row / 64 }
        ensures rows { (i : ℕ) → IsOneOf result.rows i ↔ (i ≡ row) }
    {
        Support {
            number,
            rows: Chunk::one(row),
        }
    }

    /// Whether it is the number's, and its rows are in one word with a row.
    fn takes(self, number: i32, row: usize) -> bool
        ensures { IsTrue result ↔ ((self.number ≡ number) × (self.rows.word ≡ row / 64)) }
    {
        self.number == number && self.rows.word == row / 64
    }

    /// Its number, and another row with its own.
    fn with(self, row: usize) -> Support
        requires { self.rows.word ≡ row / 64 }
        ensures number { result.number ≡ self.number }
        ensures word { result.rows.word ≡ self.rows.word }
        ensures rows { (i : ℕ) → IsOneOf result.rows i ↔ (IsOneOf self.rows i ⊎ (i ≡ row)) }
    {
        Support {
            number: self.number,
            rows: self.rows.with(row),
        }
    }
}

/// The supports of numbers and rows that have them, which come in the order of the numbers.
///
/// # Errors
/// `AllocError` where there is no memory.
pub fn supports_of(alloc: Global, places: &[(i32, usize)]) -> Result<Vec<Support>, AllocError>
    requires order { IsRising (λ p. p.0) places.now }
    ensures order { IfOk result (λ v. AreInOrder v.items) }
    ensures rows { IfOk result
        (λ v. (n : ℤ) (i : ℕ) → HasNumber v.items n i ↔ IsPlaced places.now n i) }
    ensures words { IfOk result (λ v. (s : Support) → IsIn s v.items
        → (n : ℤ) × (i : ℕ) × IsPlaced places.now n i × (s.rows.word ≡ i / 64)) }
{
    let mut supports = Vec::with_capacity(alloc, places.len().min(AT_ONCE))?;
    for place in places {
        add(&mut supports, place.0, place.1)?;
    }
    supports.shrink_to_fit();
    Ok(supports)
}

/// Adds a row that has a number which is no lower than those before it.
fn add(supports: &mut Vec<Support>, number: i32, row: usize) -> Result<(), AllocError>
    requires order { AreInOrder supports.old.items }
    requires bound { (s : Support) → IsIn s supports.old.items → s.number ≤ℤ number }
    ensures { OnOk result (IsAdded supports.old.items supports.new.items number row) }
{
    let Some(last) = supports.pop() else {
        supports.push(Support::one(number, row))?;
        return Ok(());
    };
    if last.takes(number, row) {
        supports.push(last.with(row))?;
        return Ok(());
    }
    supports.push(last)?;
    supports.push(Support::one(number, row))?;
    Ok(())
}

/// How many supports have a number below a value.
pub fn count_below(supports: &[Support], value: i32) -> usize
    requires { AreInOrder supports.now }
    ensures bound { result ≤ length supports.now }
    ensures below { AllWithin (λ s. s.number <ℤ value) supports.now 0 result }
    ensures above { AllWithin (λ s. value ≤ℤ s.number) supports.now result (length supports.now) }
{
    supports.partition_point(|support| support.number < value)
}

/// How many supports have a number at or below a value.
pub fn count_to(supports: &[Support], value: i32) -> usize
    requires { AreInOrder supports.now }
    ensures bound { result ≤ length supports.now }
    ensures to { AllWithin (λ s. s.number ≤ℤ value) supports.now 0 result }
    ensures above { AllWithin (λ s. value <ℤ s.number) supports.now result (length supports.now) }
{
    supports.partition_point(|support| support.number <= value)
}
