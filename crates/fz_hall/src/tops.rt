//! How far an interval reaches that is full and has the number of a place.
ghost use Rattle.std.specs.Prelude.{◌≡◌, ◌<◌, length, get_or, IfOk, IsTrue, pos};
ghost use Rattle.fz_hall.specs.Seats.{AreSeated, AreTops, ArePassed, IsPassed, IsTop, nobody};

use crate::seats::Seat;
use std::alloc::{AllocError, Global};

/// A number that each full interval with the number of a place has, and the first place whose number is between the two.
#[derive(Clone, Copy)]
pub struct Top {
    pub number: i32,
    first: usize,
}

/// The tops of places by falling numbers.
///
/// # Errors
/// `AllocError` where there is no memory.
pub fn tops_of(alloc: Global, seats: &[Seat]) -> Result<Vec<Top>, AllocError>
    requires { AreSeated seats.now }
    ensures { IfOk result (λ v. AreTops seats.now v.items) }
{
    let mut tops = Vec::with_capacity(alloc, seats.len())?;
    for place in 0..seats.len() {
        let top = top_at(seats, &tops, place);
        tops.push(top)?;
    }
    Ok(tops)
}

/// The top of a place, by those of the places before it.
fn top_at(seats: &[Seat], tops: &[Top], place: usize) -> Top
    requires seated { AreSeated seats.now }
    requires tops { AreTops seats.now tops.now }
    requires place { place < length seats.now }
    ensures { IsTop seats.now (get_or seats.now place nobody) result.number }
{
    let seat = seats[place];
    let mut number = seat.left.high;
    let mut first = place;
    for _step in 0..place {
        let Some(next) = first.checked_sub(1) else {
            break;
        };
        let (Some(other), Some(top)) = (seats.get(next), tops.get(next)) else {
            break;
        };
        if other.number < seat.number || number < other.number {
            break;
        }
        number = number.max(top.number);
        first = top.first;
    }
    Top { number, first }
}

/// Whether no interval is full that has the least number of a place, unless all that is left of it is there.
pub fn are_passed(seats: &[Seat], tops: &[Top]) -> bool
    requires seated { AreSeated seats.now }
    requires tops { AreTops seats.now tops.now }
    ensures { IsTrue result → ArePassed seats.now }
{
    for place in 0..seats.len() {
        if !is_passed(seats, tops, place) {
            return false;
        }
    }
    true
}

/// The same of one place.
fn is_passed(seats: &[Seat], tops: &[Top], place: usize) -> bool
    requires seated { AreSeated seats.now }
    requires tops { AreTops seats.now tops.now }
    requires place { place < length seats.now }
    ensures { IsTrue result → IsPassed seats.now (get_or seats.now place nobody) }
{
    let seat = seats[place];
    let low = place.saturating_add(seat.number.abs_diff(seat.left.low) as usize);
    match (seats.get(low), tops.get(low)) {
        (Some(other), Some(top)) => { other.number == seat.left.low && seat.number <= top.number }
        _ => false,
    }
}
