//! The space that a task carries.
ghost use Rattle.std.specs.Prelude.{◌≡◌, None, Some, IfOk, IfSome};
ghost use Rattle.fz_trail.specs.Places.{deepest_to, depths_of};
ghost use Rattle.fz_trail.specs.Trails.{AreBeside, IsKept};
ghost use Rattle.fz_path.specs.Tasks.{depth_of_near, IsNearAt};

use crate::expand::tell;
use crate::task::Near;
use fz_account::Account;
use fz_model::Assignment;
use fz_search_space::SearchSpace;
use fz_trail::{Kept, Trail};
use std::alloc::AllocError;

/// A copy of the nearest of the copies that stand at a node or above it, with what is known. None where none stands there.
///
/// # Errors
/// `AllocError` where there is no memory.
pub fn near_of<S: SearchSpace>(
    account: &Account,
    trail: &Trail<S>,
    node: usize,
) -> Result<Option<Near<S>>, AllocError>
    requires trail { AreBeside S.spaced account.now trail.now }
    ensures depth { IfOk result (λ o. depth_of_near o
        ≡ deepest_to (depths_of trail.now.copies.items) node) }
    ensures near { IfOk result (λ o. IfSome o (IsNearAt account.now)) }
{
    match trail.copy_above(node)? {
        Some(kept) => Ok(Some(told(account, kept)?)),
        None => Ok(None),
    }
}

/// Tells a space what is known.
fn told<S: SearchSpace>(account: &Account, kept: Kept<S>) -> Result<Near<S>, AllocError>
    requires kept { IsKept S.spaced
        account.now.model account.now.witness account.now.after.edges kept }
    ensures depth { IfOk result (λ n. n.depth ≡ kept.depth) }
    ensures near { IfOk result (IsNearAt account.now) }
{
    let Kept { depth, mut space } = kept;
    tell(account, &mut space)?;
    let known = known_of(account)?;
    Ok(Near {
        space,
        depth,
        known,
    })
}

/// A copy of what an account knows.
fn known_of(account: &Account) -> Result<Option<Assignment>, AllocError>
    ensures { IfOk result (λ known. known ≡ account.now.witness) }
{
    match account.witness() {
        Some(known) => Ok(Some(known.copy()?)),
        None => Ok(None),
    }
}
