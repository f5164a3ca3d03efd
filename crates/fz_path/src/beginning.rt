//! What a path begins with.
ghost use Rattle.std.specs.Prelude.{◌≡◌, ◌≤◌, None, [], IfOk};
ghost use Rattle.std.specs.Arc.{arc_value};
ghost use Rattle.fz_trail.specs.Nodes.{IsAt};
ghost use Rattle.fz_trail.specs.Trails.{IsTrail};

use crate::plans::Plans;
use fz_search_space::SearchSpace;
use fz_trail::Trail;
use std::alloc::{AllocError, Global};
use std::sync::Arc;

/// The plans of a path, and the space of a model's root alone.
#[derive(Drop)]
pub struct Beginning<S: SearchSpace> {
    pub plans: Arc<Plans>,
    pub trail: Trail<S>,
}

/// The beginning of a model's path that keeps copies at these distances.
///
/// # Errors
/// `AllocError` where there is no memory.
pub fn beginning_of<S: SearchSpace>(
    alloc: Global,
    model: &Arc<fz_model::Model>,
    plans: Plans,
    commit_distance: u32,
    adaptive_distance: u32,
) -> Result<Beginning<S>, AllocError>
    requires accepts { S.accepts (arc_value model.now) }
    requires distances { (1 ≤ commit_distance) × (1 ≤ adaptive_distance) }
    ensures plans { IfOk result (λ b. arc_value b.plans ≡ plans) }
    ensures distances { IfOk result (λ b. (b.trail.distance ≡ commit_distance)
        × (b.trail.adaptive ≡ adaptive_distance)) }
    ensures begun { IfOk result (λ b. (b.trail.copies.items ≡ []) × (b.trail.current ≡ None)
        × (b.trail.sparse ≡ 0) × (b.trail.longest ≡ 0)) }
    ensures spaces { IfOk result (λ b.
        IsTrail S.spaced (arc_value model.now) None [] b.trail) }
{
    let plans = shared_plans(alloc, plans)?;
    let root = shared_root::<S>(alloc, model)?;
    Ok(Beginning {
        plans,
        trail: Trail::new(alloc, root, commit_distance, adaptive_distance),
    })
}

/// The plans of a path, to be shared.
fn shared_plans(alloc: Global, plans: Plans) -> Result<Arc<Plans>, AllocError>
    ensures { IfOk result (λ p. arc_value p ≡ plans) }
{
    match Arc::new(alloc, plans) {
        Ok(plans) => Ok(plans),
        Err(_) => Err(AllocError),
    }
}

/// The space of a model's root, to be shared.
fn shared_root<S: SearchSpace>(
    alloc: Global,
    model: &Arc<fz_model::Model>,
) -> Result<Arc<S>, AllocError>
    requires { S.accepts (arc_value model.now) }
    ensures { IfOk result (λ r. IsAt (arc_value model.now) None [] (S.spaced (arc_value r))) }
{
    let root = S::root(alloc, model.clone()?)?;
    match Arc::new(alloc, root) {
        Ok(root) => Ok(root),
        Err(_) => Err(AllocError),
    }
}
