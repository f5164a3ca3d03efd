//! The order of assignments.
ghost use Rattle.std.specs.Prelude.{◌↔◌, IsTrue};
ghost use Rattle.fz_spec.specs.Instance.{IsBetter};

use fz_model::{Assignment, Goal, Model, value_of};

/// Whether the first is better: both have one number for each variable, and the first has the lesser score. Where the goal is to
/// satisfy, none is.
pub fn better(model: &Model, this: &Assignment, other: &Assignment) -> bool
    ensures { IsTrue result ↔ IsBetter model.now this.now other.now }
{
    let count = model.variables().len();
    let these = this.values();
    let others = other.values();
    if these.len() != count || others.len() != count {
        return false;
    }
    match model.goal() {
        Goal::Satisfy => false,
        Goal::Minimize(term) => value_of(*term, these) < value_of(*term, others),
        Goal::Maximize(term) => value_of(*term, these) > value_of(*term, others),
    }
}
