//! Parts whose variables rise, so that those before the first open variable are found without a look at each.
ghost use Rattle.std.specs.Prelude.{◌≡◌, ◌≤◌, true, length, IfOk};
ghost use Rattle.fz_branch.specs.Picks.{AreClosed, IsPassed};
ghost use Rattle.fz_branch.specs.Plans.{AreRising, IsRising};

use fz_dom::Dom;
use fz_model::SearchPart;
use std::alloc::{AllocError, Global};

/// Of each part whether its variables rise.
///
/// # Errors
/// `AllocError` where there is no memory.
pub fn rises_of(alloc: Global, parts: &[SearchPart]) -> Result<Vec<bool>, AllocError>
    ensures { IfOk result (λ v. AreRising v.items parts.now) }
{
    let mut rises = Vec::with_capacity(alloc, parts.len())?;
    for part in parts {
        rises.push(is_rising(part.variables()))?;
    }
    Ok(rises)
}

/// Whether each variable is at least the one before it.
fn is_rising(variables: &[u32]) -> bool
    ensures { result ≡ true → IsRising variables.now }
{
    for place in 1..variables.len() {
        if variables[place] < variables[place - 1] {
            return false;
        }
    }
    true
}

/// From which place on a part is looked at: where its variables rise, those before `closed` are passed.
pub fn start_of(variables: &[u32], rises: bool, doms: &[Dom], closed: usize) -> usize
    requires rising { rises ≡ true → IsRising variables.now }
    requires closed { AreClosed closed doms.now }
    ensures start { result ≤ length variables.now }
    ensures passed { IsPassed result doms.now variables.now }
{
    let _ = doms;
    if !rises {
        return 0;
    }
    let count = variables.partition_point(|variable| (*variable as usize) < closed);
    if count == 0 || variables[count - 1] as usize >= closed {
        return 0;
    }
    count
}
