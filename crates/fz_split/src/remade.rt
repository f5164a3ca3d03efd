//! The space of a node, made anew from the root's.
ghost use Rattle.std.specs.Prelude.{◌≡◌, ◌++◌, ◌∷◌, [], List, IfOk, OnOk, None};
ghost use Rattle.fz_tree.specs.declared.decision.Decision.{Decision};
ghost use Rattle.fz_search_space.specs.Spaces.{Covers};

use fz_part::Part;
use fz_region::{Choice, Decision};
use fz_search_space::SearchSpace;
use std::alloc::{AllocError, Global};

/// The space of a part's node.
pub fn remade<S: SearchSpace>(alloc: Global, root: &S, part: &Part) -> Result<S, AllocError>
    requires { Covers None [] (S.spaced root.now) }
    ensures model { IfOk result (λ s. (S.spaced s).model ≡ (S.spaced root.now).model) }
    ensures covers { IfOk result (λ s. Covers None part.now (S.spaced s)) }
{
    let mut space = root.copy()?;
    let taken = part.decisions();
    'places: for place in 0..taken.len() {
        decide(alloc, &mut space, taken[place])?;
    }
    Ok(space)
}

/// Takes a decision.
fn decide<S: SearchSpace>(
    alloc: Global,
    space: &mut S,
    decision: Decision,
) -> Result<(), AllocError>
    ensures model { (S.spaced space.new).model ≡ (S.spaced space.old).model }
    ensures covers { OnOk result ((ds : List Decision) → Covers None ds (S.spaced space.old)
        → Covers None (ds ++ decision ∷ []) (S.spaced space.new)) }
{
    let choice = Choice::two(alloc, decision);
    space.commit(&choice, 0)
}
