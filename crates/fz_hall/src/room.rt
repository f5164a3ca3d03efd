//! Which numbers are free. What is told here is a hint: who uses it looks whether it is right.

use crate::interval::Interval;
use std::alloc::{AllocError, Global};

/// Free numbers from a base up to the next base.
#[derive(Clone, Copy)]
struct Stretch {
    free: i64,
    /// The stretch itself, or one further on, where none of it is free.
    next: usize,
}

/// The numbers from each base on that are free.
#[derive(Drop)]
pub struct Room {
    bases: Vec<i32>,
    stretches: Vec<Stretch>,
}

impl Room {
    /// All numbers, from the least ones of these on.
    ///
    /// # Errors
    /// `AllocError` where there is no memory.
    pub fn of(alloc: Global, lefts: &[Interval]) -> Result<Room, AllocError> {
        let bases = least_numbers(alloc, lefts)?;
        let mut stretches = Vec::with_capacity(alloc, bases.len())?;
        for (place, base) in bases.iter().enumerate() {
            stretches.push(Stretch {
                free: i64::from(*base),
                next: place,
            })?;
        }
        Ok(Room { bases, stretches })
    }

    /// The first free number from one of these on is taken.
    pub fn take(&mut self, from: i32) -> i32 {
        let Ok(start) = self.bases.binary_search(&from) else {
            return from;
        };
        let place = self.open_from(start);
        let behind = place.saturating_add(1);
        let end = match self.bases.get(behind) {
            Some(base) => i64::from(*base),
            None => i64::MAX,
        };
        let Some(stretch) = self.stretches.get_mut(place) else {
            return from;
        };
        let number = stretch.free;
        stretch.free = number.saturating_add(1);
        if stretch.free == end {
            stretch.next = behind;
        }
        number.clamp(i64::from(i32::MIN), i64::from(i32::MAX)) as i32
    }

    /// The first stretch from a place on of which a number is free. All on the way lead there at once.
    fn open_from(&mut self, start: usize) -> usize {
        let mut end = start;
        for _step in 0..self.stretches.len() {
            match self.stretches.get(end) {
                Some(stretch) if stretch.next > end => end = stretch.next,
                _ => break,
            }
        }
        let mut place = start;
        for _step in 0..self.stretches.len() {
            if place >= end {
                break;
            }
            if let Some(stretch) = self.stretches.get_mut(place) {
                place = stretch.next;
                stretch.next = end;
            }
        }
        end
    }
}

/// The least numbers, each once, by rising numbers.
fn least_numbers(alloc: Global, lefts: &[Interval]) -> Result<Vec<i32>, AllocError> {
    let mut all = Vec::with_capacity(alloc, lefts.len())?;
    for left in lefts {
        all.push(left.low)?;
    }
    all.sort_unstable();
    let mut lows = Vec::with_capacity(alloc, all.len())?;
    let mut before = None;
    for low in &all {
        if before != Some(*low) {
            lows.push(*low)?;
        }
        before = Some(*low);
    }
    Ok(lows)
}
