//! The union of a list of ranges.
ghost use Rattle.std.specs.Prelude.{◌≡◌, ℕ, ℤ, List, [], ◌∷◌, length, IfOk, All, filter, int_le};
ghost use Rattle.fz_sets.specs.Sets.{AreRanges, AreWithinLimits, AreOneSet, IsInSet};
ghost use Rattle.fz_dom.specs.Union.{IsProper, AreInOrder};

use std::alloc::{AllocError, Global};

/// The union of ranges within the limits, as rising ranges; a range whose low is above its high is empty.
pub fn union_of(alloc: Global, ranges: &[(i32, i32)]) -> Result<Vec<(i32, i32)>, AllocError>
    requires { AreWithinLimits ranges.now }
    ensures ranges { IfOk result (λ v. AreRanges v.items) }
    ensures within { IfOk result (λ v. AreWithinLimits v.items) }
    ensures one_set { IfOk result (λ v. AreOneSet v.items ranges.now) }
{
    let ordered = in_order(alloc, ranges)?;
    merged(alloc, &ordered)
}

/// The ranges that aren't empty, in the order of their lows.
fn in_order(alloc: Global, ranges: &[(i32, i32)]) -> Result<Vec<(i32, i32)>, AllocError>
    requires { AreWithinLimits ranges.now }
    ensures proper { IfOk result (λ v. All IsProper v.items) }
    ensures order { IfOk result (λ v. AreInOrder v.items) }
    ensures one_set { IfOk result (λ v. AreOneSet v.items ranges.now) }
{
    let mut kept = not_empty(alloc, ranges)?;
    kept.sort_unstable();
    Ok(kept)
}

/// The ranges that aren't empty.
fn not_empty(alloc: Global, ranges: &[(i32, i32)]) -> Result<Vec<(i32, i32)>, AllocError>
    ensures { IfOk result (λ v. v.items ≡ filter (λ r. int_le r.0 r.1) ranges.now) }
{
    ranges.iter().filter(|r| r.0 <= r.1).copied().collect(alloc)
}

/// Ranges in the order of their lows, with those that overlap or touch made one.
fn merged(alloc: Global, ordered: &[(i32, i32)]) -> Result<Vec<(i32, i32)>, AllocError>
    requires proper { All IsProper ordered.now }
    requires order { AreInOrder ordered.now }
    ensures ranges { IfOk result (λ v. AreRanges v.items) }
    ensures within { IfOk result (λ v. AreWithinLimits v.items) }
    ensures one_set { IfOk result (λ v. AreOneSet v.items ordered.now) }
{
    let mut done = Vec::new(alloc);
    let Some((first, others)) = ordered.split_first() else {
        return Ok(done);
    };
    let mut last = *first;
    for next in others {
        if next.0 <= last.1 + 1 {
            last.1 = last.1.max(next.1);
        } else {
            done.push(last)?;
            last = *next;
        }
    }
    done.push(last)?;
    Ok(done)
}
