//! The columns of a table.
ghost use Rattle.std.specs.Prelude.{◌<◌, ◌/◌, ◌↔◌, ℕ, ℤ, IfOk};
ghost use Rattle.fz_column.specs.Supports.{IsRising, IsPlaced, IsNumberAt, IsColumnOf, AreColumnsOf};

use fz_column::Column;
use fz_column::supports::supports_of;
use std::alloc::{AllocError, Global};

/// The columns of a table whose rows have a width.
///
/// # Errors
/// `AllocError` where there is no memory.
pub fn columns_of(alloc: Global, table: &[i32], width: usize) -> Result<Vec<Column>, AllocError>
    ensures { IfOk result (λ v. AreColumnsOf table.now width v.items) }
{
    let mut columns = Vec::with_capacity(alloc, width)?;
    for place in 0..width {
        let column = column_of(alloc, table, width, place)?;
        columns.push(column)?;
    }
    Ok(columns)
}

/// The column at a place.
fn column_of(alloc: Global, table: &[i32], width: usize, place: usize) -> Result<Column, AllocError>
    requires { place < width }
    ensures { IfOk result (λ c. IsColumnOf table.now width place c) }
{
    let places = places_in_order(alloc, table, width, place)?;
    let supports = supports_of(alloc, &places)?;
    Column::new(alloc, supports, places.len())
}

/// The number of each row at a place, with the row, in the order of the numbers.
fn places_in_order(
    alloc: Global,
    table: &[i32],
    width: usize,
    place: usize,
) -> Result<Vec<(i32, usize)>, AllocError>
    requires { place < width }
    ensures order { IfOk result (λ v. IsRising (λ p. p.0) v.items) }
    ensures places { IfOk result
        (λ v. (n : ℤ) (i : ℕ) → IsPlaced v.items n i ↔ IsNumberAt table.now width place i n) }
{
    let mut places = places_of(alloc, table, width, place)?;
    places.sort_unstable();
    Ok(places)
}

/// The number of each row at a place, with the row.
fn places_of(
    alloc: Global,
    table: &[i32],
    width: usize,
    place: usize,
) -> Result<Vec<(i32, usize)>, AllocError>
    requires { place < width }
    ensures { IfOk result
        (λ v. (n : ℤ) (i : ℕ) → IsPlaced v.items n i ↔ IsNumberAt table.now width place i n) }
{
    let count = table.len() / width;
    let mut places = Vec::with_capacity(alloc, count)?;
    for row in 0..count {
        places.push((table[row * width + place], row))?;
    }
    Ok(places)
}
