//! What is in rising ranges and in others that are shifted.
ghost use Rattle.std.specs.Prelude.{◌≡◌, ◌++◌, ◌≤ℤ◌, ◌+ℤ◌, ◌-ℤ◌, ◌↔◌, ℤ, pos, IfOk, OnOk};
ghost use Rattle.std.specs.Int.{int_max, int_min};
ghost use Rattle.fz_sets.specs.Sets.{AreRanges, AreWithinLimits, IsInSet, IsWithinLimits, LEAST, GREATEST, interval};
ghost use Rattle.fz_dom.specs.Wide.{IsPart};

use crate::head::HIGHEST_BASE;
use smallvec::SmallVec;
use std::alloc::{AllocError, Global};

/// The least number within the limits.
pub const LOWEST: i32 = -2147483646;

/// A bound moved by a shift, and stopped at the end of its type where it would pass it: it bounds the same numbers.
pub fn moved(value: i32, shift: i32) -> i32
    ensures low { (x : ℤ) → IsWithinLimits x → (result ≤ℤ x) ↔ ((value +ℤ shift) ≤ℤ x) }
    ensures high { (x : ℤ) → IsWithinLimits x → (x ≤ℤ result) ↔ (x ≤ℤ (value +ℤ shift)) }
{
    let sum = i64::from(value) + i64::from(shift);
    sum.clamp(i64::from(i32::MIN), i64::from(i32::MAX)) as i32
}

/// The base of a word that holds 64 numbers from a moved one on, as far as they are within the limits.
pub fn base_of(value: i32, shift: i32) -> i32
    ensures floor { LEAST ≤ℤ result }
    ensures ceiling { (result +ℤ pos 63) ≤ℤ GREATEST }
    ensures window { (x : ℤ) → IsWithinLimits x → (value +ℤ shift) ≤ℤ x
        → x ≤ℤ ((value +ℤ shift) +ℤ pos 63) → (result ≤ℤ x) × (x ≤ℤ (result +ℤ pos 63)) }
{
    let sum = i64::from(value) + i64::from(shift);
    sum.clamp(i64::from(LOWEST), i64::from(HIGHEST_BASE)) as i32
}

/// The ranges of the numbers that are in the first and, moved down by the shift, in the second.
pub fn shared(
    alloc: Global,
    mine: &[(i32, i32)],
    theirs: &[(i32, i32)],
    shift: i32,
) -> Result<SmallVec<(i32, i32), 2>, AllocError>
    requires mine { AreRanges mine.now }
    requires within { AreWithinLimits mine.now }
    requires theirs { AreRanges theirs.now }
    ensures { IfOk result (λ v. IsPart (λ x. IsInSet theirs.now (x -ℤ shift)) mine.now v.items) }
{
    let mut kept = SmallVec::new(alloc);
    let mut i = 0;
    let mut j = 0;
    'merge: while i < mine.len() {
        if j >= theirs.len() {
            return Ok(kept);
        }
        let range = mine[i];
        let other = (moved(theirs[j].0, shift), moved(theirs[j].1, shift));
        push_overlap(&mut kept, range, other)?;
        if range.1 <= other.1 {
            i += 1;
        } else {
            j += 1;
        }
    }
    Ok(kept)
}

/// Appends what two ranges share, if there is something.
fn push_overlap(
    kept: &mut SmallVec<(i32, i32), 2>,
    range: (i32, i32),
    other: (i32, i32),
) -> Result<(), AllocError>
    ensures { OnOk result
        (kept.new.items
        ≡ kept.old.items ++ interval (int_max range.0 other.0) (int_min range.1 other.1)) }
{
    let low = range.0.max(other.0);
    let high = range.1.min(other.1);
    if low > high {
        return Ok(());
    }
    kept.push((low, high))?;
    Ok(())
}
