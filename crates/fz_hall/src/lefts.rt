//! What is left of terms, as intervals, and the same of the opposite numbers.
ghost use Rattle.std.specs.Prelude.{◌≡◌, length, map, negsuc, ◌-ℤ◌, IfOk};
ghost use Rattle.std.specs.List.{AllByRecursion};
ghost use Rattle.fz_strength.specs.Domains.{IsTermOf};
ghost use Rattle.fz_hall.specs.Lefts.{left_of, turn};

use crate::interval::{Interval, ends_of};
use fz_prop::Store;
use fz_spec::term::Term;
use std::alloc::{AllocError, Global};

/// What is left of each term, by its ends.
///
/// # Errors
/// `AllocError` where there is no memory.
pub fn lefts_of(alloc: Global, store: &Store, terms: &[Term]) -> Result<Vec<Interval>, AllocError>
    requires { AllByRecursion (IsTermOf (length store.now.doms)) terms.now }
    ensures { IfOk result (λ v. v.items ≡ map (left_of store.now.doms) terms.now) }
{
    let mut lefts = Vec::with_capacity(alloc, terms.len())?;
    for term in terms {
        lefts.push(ends_of(store, *term))?;
    }
    Ok(lefts)
}

/// The intervals of the opposite numbers.
///
/// # Errors
/// `AllocError` where there is no memory.
pub fn turned(alloc: Global, lefts: &[Interval]) -> Result<Vec<Interval>, AllocError>
    ensures { IfOk result (λ v. v.items ≡ map turn lefts.now) }
{
    let mut turned = Vec::with_capacity(alloc, lefts.len())?;
    for left in lefts {
        turned.push(turn(*left))?;
    }
    Ok(turned)
}

/// The interval of the opposite numbers.
pub fn turn(left: Interval) -> Interval
    ensures { result ≡ turn left }
{
    Interval {
        low: opposite(left.high),
        high: opposite(left.low),
    }
}

/// As far from -1 as a number from 0, on the other side.
pub fn opposite(number: i32) -> i32
    ensures { result ≡ negsuc 0 -ℤ number }
{
    -1 - number
}
