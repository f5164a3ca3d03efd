//! The numbers outside a set.
ghost use Rattle.std.specs.Prelude.{◌≡◌, ◌++◌, ◌<ℤ◌, ◌≤ℤ◌, List, IfOk, OnOk};
ghost use Rattle.fz_rel.specs.Reified.{AreOthers, gap};

use fz_dom::Dom;
use std::alloc::{AllocError, Global};

/// The numbers within the limits that aren't in a set.
///
/// # Errors
/// `AllocError` where there is no memory.
pub fn others_of(alloc: Global, set: &Dom) -> Result<Dom, AllocError>
    ensures { IfOk result (λ d. AreOthers set.now d) }
{
    let mut gaps = Vec::new(alloc);
    let mut from = -2_147_483_646;
    for i in 0..set.range_count() {
        let (low, high) = set.range_at(i);
        push_gap(&mut gaps, from, low)?;
        from = high + 1;
    }
    push_gap(&mut gaps, from, 2_147_483_647)?;
    Dom::from_ranges(alloc, &gaps)
}

/// Adds the numbers from one to the last before another, if there are any.
fn push_gap(gaps: &mut Vec<(i32, i32)>, from: i32, end: i32) -> Result<(), AllocError>
    ensures { OnOk result (gaps.new.items ≡ gaps.old.items ++ gap from end) }
{
    if from < end {
        gaps.push((from, end - 1))?;
    }
    Ok(())
}
