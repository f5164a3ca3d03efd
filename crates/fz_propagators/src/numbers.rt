//! What is left of variables.
ghost use Rattle.std.specs.Prelude.{IfOk};
ghost use Rattle.fz_strength.specs.Domains.{Within};

use fz_prop::Store;
use std::alloc::{AllocError, Global};

/// An assignment within the domains: the least number of each.
pub fn least_numbers(alloc: Global, store: &Store) -> Result<Vec<i32>, AllocError>
    ensures { IfOk result (λ v. Within store.now.doms v.items) }
{
    let doms = store.doms();
    let mut numbers = Vec::with_capacity(alloc, doms.len())?;
    for dom in doms {
        numbers.push(dom.min())?;
    }
    Ok(numbers)
}
