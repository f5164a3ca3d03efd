//! Intervals that places fill, in which the least number of another place lies.
ghost use Rattle.std.specs.Prelude.{◌≡◌, true, map, IfOk, IsNone};
ghost use Rattle.fz_hall.specs.Lefts.{turn};
ghost use Rattle.fz_hall.specs.Seats.{AreClearBelow, left};

use crate::interval::Interval;
use crate::lefts::turned;
use crate::seats::{Seat, are_seated, seats_of, turned_seats};
use crate::tops::{Top, are_passed, tops_of};
use std::alloc::{AllocError, Global};

/// Intervals that are full where the least or the greatest number of another place lies, or that too many are confined to; `None` where
/// there is none of these. Which they are is a hint.
///
/// # Errors
/// `AllocError` where there is no memory.
pub fn crossed_intervals(
    alloc: Global,
    lefts: &[Interval],
) -> Result<Option<Vec<Interval>>, AllocError>
    ensures below { IfOk result (λ o. IsNone o → AreClearBelow lefts.now) }
    ensures above { IfOk result (λ o. IsNone o → AreClearBelow (map turn lefts.now)) }
{
    let seats = seats_of(alloc, lefts)?;
    if let Some(found) = crossed_below(alloc, &seats)? {
        return Ok(Some(found));
    }
    let opposites = turned_seats(alloc, &seats)?;
    if are_clear(alloc, &opposites)? {
        return Ok(None);
    }
    crossed_above(alloc, lefts)
}

/// The same by the greatest numbers alone.
fn crossed_above(alloc: Global, lefts: &[Interval]) -> Result<Option<Vec<Interval>>, AllocError>
    ensures { IfOk result (λ o. IsNone o → AreClearBelow (map turn lefts.now)) }
{
    let opposites = turned(alloc, lefts)?;
    let seats = seats_of(alloc, &opposites)?;
    match crossed_below(alloc, &seats)? {
        Some(found) => Ok(Some(turned(alloc, &found)?)),
        None => Ok(None),
    }
}

/// The same by the least numbers alone.
fn crossed_below(alloc: Global, seats: &[Seat]) -> Result<Option<Vec<Interval>>, AllocError>
    ensures { IfOk result (λ o. IsNone o → AreClearBelow (map left seats.now)) }
{
    if !are_seated(seats) {
        return Ok(Some(crowded(alloc, seats)?));
    }
    let tops = tops_of(alloc, seats)?;
    if are_passed(seats, &tops) {
        return Ok(None);
    }
    Ok(Some(filled(alloc, seats, &tops)?))
}

/// Whether numbers of their own show that there is none, by the least numbers.
fn are_clear(alloc: Global, seats: &[Seat]) -> Result<bool, AllocError>
    ensures { IfOk result (λ b. b ≡ true → AreClearBelow (map left seats.now)) }
{
    if !are_seated(seats) {
        return Ok(false);
    }
    let tops = tops_of(alloc, seats)?;
    Ok(are_passed(seats, &tops))
}

/// An interval that too many are confined to, where one has no number that is left of it.
fn crowded(alloc: Global, seats: &[Seat]) -> Result<Vec<Interval>, AllocError> {
    let mut found = Vec::new(alloc);
    for (place, seat) in seats.iter().enumerate() {
        if seat.left.high < seat.number {
            found.push(Interval {
                low: low_from(seats, place.saturating_add(1), seat.left.low),
                high: seat.left.high,
            })?;
            break;
        }
    }
    Ok(found)
}

/// Full intervals, one for each place that crosses one, but none twice in a row.
fn filled(alloc: Global, seats: &[Seat], tops: &[Top]) -> Result<Vec<Interval>, AllocError> {
    let mut found = Vec::new(alloc);
    let mut before = None;
    for (place, seat) in seats.iter().enumerate() {
        let low = place.saturating_add(seat.number.abs_diff(seat.left.low) as usize);
        let Some(top) = tops.get(low) else {
            continue;
        };
        if seat.number <= top.number || before == Some(top.number) {
            continue;
        }
        before = Some(top.number);
        let start = place.saturating_add(seat.number.abs_diff(top.number) as usize);
        found.push(Interval {
            low: low_from(seats, start, seat.left.low),
            high: top.number,
        })?;
    }
    Ok(found)
}

/// From a place on, the least number that is left of one whose number isn't below those so far.
fn low_from(seats: &[Seat], start: usize, from: i32) -> i32 {
    let mut low = from;
    for seat in seats.iter().skip(start) {
        if seat.number < low {
            break;
        }
        low = low.min(seat.left.low);
    }
    low
}
