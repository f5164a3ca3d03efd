//! The assignment that domains leave.
ghost use Rattle.std.specs.Prelude.{◌≡◌, ◌≤◌, length, map, take, IfOk};
ghost use Rattle.fz_dom.specs.Shape.{least};
ghost use Rattle.fz_model.specs.Kept.{AreNumbers};
ghost use Rattle.fz_search_space.specs.Spaces.{AreDomains};

use fz_dom::Dom;
use fz_model::Assignment;
use std::alloc::{AllocError, Global};

/// The least number of each domain, where those of the first are known.
pub fn least_of(alloc: Global, known: &[i32], doms: &[Dom]) -> Result<Assignment, AllocError>
    requires domains { AreDomains doms.now }
    requires within { length known.now ≤ length doms.now }
    requires known { known.now ≡ map least (take (length known.now) doms.now) }
    ensures { IfOk result (λ a. a ≡ map least doms.now) }
{
    let numbers = least_numbers(alloc, known, doms)?;
    Assignment::new(alloc, &numbers)
}

fn least_numbers(alloc: Global, known: &[i32], doms: &[Dom]) -> Result<Vec<i32>, AllocError>
    requires domains { AreDomains doms.now }
    requires within { length known.now ≤ length doms.now }
    requires known { known.now ≡ map least (take (length known.now) doms.now) }
    ensures least { IfOk result (λ v. v.items ≡ map least doms.now) }
    ensures numbers { IfOk result (λ v. AreNumbers v.items) }
{
    let mut numbers = Vec::with_capacity(alloc, doms.len())?;
    numbers.extend_from_slice(known)?;
    'places: for place in known.len()..doms.len() {
        numbers.push(doms[place].min())?;
    }
    Ok(numbers)
}
