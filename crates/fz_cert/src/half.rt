//! The halves of a set.
ghost use Rattle.std.specs.Prelude.{◌≡◌, ◌<ℤ◌, IfOk};
ghost use Rattle.fz_dom.specs.Changes.{IsChange};
ghost use Rattle.fz_dom.specs.Shape.{IsDomain};
ghost use Rattle.fz_refutes.specs.Boxes.{up_to, above};

use fz_dom::{Change, Dom};
use std::alloc::{AllocError, Global};

/// The numbers of a set up to a number.
pub fn low_part(alloc: Global, set: &Dom, number: i32) -> Result<Dom, AllocError>
    ensures part { IfOk result (λ d. d ≡ up_to number set.now) }
    ensures domain { IsDomain set.now }
{
    let mut part = set.copy()?;
    match part.keep_to(number) {
        Change::Wiped => {
            let empty = Dom::from_ranges(alloc, &[])?;
            Ok(empty)
        }
        Change::Same | Change::Changed => Ok(part),
    }
}

/// The numbers of a set above a number.
pub fn high_part(alloc: Global, set: &Dom, number: i32) -> Result<Dom, AllocError>
    ensures part { IfOk result (λ d. d ≡ above number set.now) }
    ensures domain { IsDomain set.now }
{
    let mut part = set.copy()?;
    match keep_above(&mut part, number) {
        Change::Wiped => {
            let empty = Dom::from_ranges(alloc, &[])?;
            Ok(empty)
        }
        Change::Same | Change::Changed => Ok(part),
    }
}

/// Keeps the numbers above a number.
fn keep_above(set: &mut Dom, number: i32) -> Change
    ensures change { IsChange result (λ x. number <ℤ x) set.old set.new }
    ensures domain { IsDomain set.new }
    ensures old_domain { IsDomain set.old }
{
    if number == i32::MAX {
        let _ = set.is_empty();
        return Change::Wiped;
    }
    set.keep_range(number + 1, i32::MAX)
}
