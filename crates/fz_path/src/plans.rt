//! The plans of a path.
ghost use Rattle.std.specs.Prelude.{◌≡◌, IfOk};
ghost use Rattle.fz_branch.specs.Plans.{plan_for};
ghost use Rattle.fz_path.specs.Paths.{ArePlans};

use fz_account::Mode;
use fz_branch::Plan;
use std::alloc::{AllocError, Global};

/// The plan by which nodes are divided, and where rows are sought that of the search below a node whose output is fixed.
#[derive(Drop)]
pub struct Plans {
    pub nodes: Plan,
    pub below: Option<Plan>,
}

impl Plans {
    /// The plans of a model by what is sought.
    ///
    /// # Errors
    /// `AllocError` where there is no memory.
    pub fn of(alloc: Global, model: &fz_model::Model, mode: Mode) -> Result<Plans, AllocError>
        ensures nodes { IfOk result (λ p. p.nodes ≡ plan_for mode model.now) }
        ensures plans { IfOk result (ArePlans mode model.now) }
    {
        let whole = Plan::of(alloc, model)?;
        match mode {
            Mode::Rows => Ok(Plans {
                nodes: Plan::of_rows(alloc, model)?,
                below: Some(whole),
            }),
            Mode::All | Mode::Best => Ok(Plans {
                nodes: whole,
                below: None,
            }),
        }
    }
}
