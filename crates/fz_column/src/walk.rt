//! Going over the supports of a column, from a place on and up to a number.
ghost use Rattle.std.specs.Prelude.{◌≡◌, ◌<◌, ◌≤◌, ◌↔◌, ◌⊎◌, ℕ, ℤ, length, IfOk};
ghost use Rattle.fz_sets.specs.Sets.{IsInSet};
ghost use Rattle.fz_bits.specs.Members.{HasMember};
ghost use Rattle.fz_column.specs.Supports.{AreInOrder, AreSized, IsNext, AreEnds, IsFirst, IsEnd, HasOneBetween, StandsBetween};

use crate::row_set::{join, meets};
use crate::spans::Spans;
use crate::supports::{Support, count_below, count_to};
use std::alloc::{AllocError, Global};

/// How many numbers are looked at one after the other before one is found by halves.
const NEAR: usize = 4;

/// For each support where the next number begins.
///
/// # Errors
/// `AllocError` where there is no memory.
pub fn ends_of(alloc: Global, supports: &[Support]) -> Result<Vec<usize>, AllocError>
    requires { AreInOrder supports.now }
    ensures { IfOk result (λ v. AreEnds supports.now v.items) }
{
    let mut ends = Vec::with_capacity(alloc, supports.len())?;
    for place in 0..supports.len() {
        ends.push(count_to(supports, supports[place].number))?;
    }
    Ok(ends)
}

/// Where the next number begins, as far as that is listed, and else the next place.
pub fn next_of(supports: &[Support], ends: &[usize], place: usize) -> usize
    requires ends { AreEnds supports.now ends.now }
    requires place { place < length supports.now }
    ensures { IsNext supports.now place result }
{
    let _ = supports;
    match ends.get(place) {
        Some(end) => *end,
        None => place + 1,
    }
}

/// The place of the first support from a place on whose number is at or above a value.
pub fn first_from(supports: &[Support], ends: &[usize], place: usize, value: i32) -> usize
    requires order { AreInOrder supports.now }
    requires ends { AreEnds supports.now ends.now }
    requires place { place ≤ length supports.now }
    ensures { IsFirst supports.now place value result }
{
    let mut first = place;
    for _ in 0..NEAR {
        if first >= supports.len() {
            return first;
        }
        if supports[first].number >= value {
            return first;
        }
        first = next_of(supports, ends, first);
    }
    let far = count_below(supports, value);
    if far < first {
        return first;
    }
    far
}

/// Puts the rows of the supports from a place up to a number into a set, and gives the place after them.
pub fn join_to(supports: &[Support], place: usize, high: i32, rows: &mut [u64]) -> usize
    requires order { AreInOrder supports.now }
    requires sized { AreSized supports.now (length rows.old) }
    requires place { place ≤ length supports.now }
    ensures end { IsEnd supports.now place high result }
    ensures rows { (i : ℕ) → HasMember rows.new i
        ↔ (HasMember rows.old i ⊎ HasOneBetween supports.now place result i) }
    ensures size { length rows.new ≡ length rows.old }
{
    for end in place..supports.len() {
        if supports[end].number > high {
            return end;
        }
        join(rows, supports[end].rows);
    }
    supports.len()
}

/// Adds the numbers of the supports from a place up to a number that have some rows, and gives the place after them.
///
/// # Errors
/// `AllocError` where there is no memory.
pub fn add_numbers(
    supports: &[Support],
    ends: &[usize],
    place: usize,
    high: i32,
    rows: &[u64],
    numbers: &mut Spans,
) -> Result<usize, AllocError>
    requires order { AreInOrder supports.now }
    requires ends { AreEnds supports.now ends.now }
    requires sized { AreSized supports.now (length rows.now) }
    requires place { place ≤ length supports.now }
    ensures end { IfOk result (λ end. IsEnd supports.now place high end) }
    ensures numbers { IfOk result (λ end. (n : ℤ) → IsInSet numbers.new n
        ↔ (IsInSet numbers.old n ⊎ StandsBetween supports.now rows.now place end n)) }
{
    let mut end = place;
    while end < supports.len() {
        let support = supports[end];
        if support.number > high {
            return Ok(end);
        }
        if meets(rows, support.rows) {
            numbers.add(support.number)?;
            end = next_of(supports, ends, end);
        } else {
            end += 1;
        }
    }
    Ok(end)
}
