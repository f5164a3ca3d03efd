//! Places that have a number of their own each: one to which others are led from their least number on.
ghost use Rattle.std.specs.Prelude.{◌≡◌, map, IfOk, IsTrue};
ghost use Rattle.std.specs.List.Sorted.{IsPermutation};
ghost use Rattle.fz_hall.specs.Lefts.{turn};
ghost use Rattle.fz_hall.specs.Seats.{left, AreSeated};

use crate::interval::Interval;
use crate::lefts::{opposite, turn};
use crate::room::Room;
use std::alloc::{AllocError, Global};

/// What is left of a place, and a number.
#[derive(Clone, Copy)]
pub struct Seat {
    pub left: Interval,
    pub number: i32,
}

/// A number for each place, by falling numbers: that with the least greatest number first, each gets the first number from its least
/// one on that none had before.
///
/// # Errors
/// `AllocError` where there is no memory.
pub fn seats_of(alloc: Global, lefts: &[Interval]) -> Result<Vec<Seat>, AllocError>
    ensures { IfOk result (λ v. IsPermutation lefts.now (map left v.items)) }
{
    let mut rising = Vec::from_slice(alloc, lefts)?;
    rising.sort_unstable_by(|one: &Interval, other: &Interval| one.high.cmp(&other.high));
    let mut seats = numbered(alloc, &rising)?;
    seats.sort_unstable_by(|one: &Seat, other: &Seat| other.number.cmp(&one.number));
    Ok(seats)
}

/// A number for each of these, in their order.
fn numbered(alloc: Global, lefts: &[Interval]) -> Result<Vec<Seat>, AllocError>
    ensures { IfOk result (λ v. map left v.items ≡ lefts.now) }
{
    let mut room = Room::of(alloc, lefts)?;
    let mut seats = Vec::with_capacity(alloc, lefts.len())?;
    for left in lefts {
        let number = room.take(left.low);
        seats.push(Seat {
            left: *left,
            number,
        })?;
    }
    Ok(seats)
}

/// The same of the opposite numbers.
///
/// # Errors
/// `AllocError` where there is no memory.
pub fn turned_seats(alloc: Global, seats: &[Seat]) -> Result<Vec<Seat>, AllocError>
    ensures { IfOk result (λ v. IsPermutation (map turn (map left seats.now)) (map left v.items)) }
{
    let mut turned = Vec::with_capacity(alloc, seats.len())?;
    for seat in seats {
        turned.push(Seat {
            left: turn(seat.left),
            number: opposite(seat.number),
        })?;
    }
    turned.reverse();
    Ok(turned)
}

/// Whether the number of each place is left of it, and no two have the same.
pub fn are_seated(seats: &[Seat]) -> bool
    ensures { IsTrue result → AreSeated seats.now }
{
    let mut before = i64::MAX;
    for seat in seats {
        let number = i64::from(seat.number);
        if before <= number || seat.number < seat.left.low || seat.left.high < seat.number {
            return false;
        }
        before = number;
    }
    true
}
