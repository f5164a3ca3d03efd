//! Models and their assignments.
ghost use Rattle.std.specs.Prelude.{◌↔◌, IsTrue};
ghost use Rattle.std.specs.List.{AllByRecursion};
ghost use Rattle.fz_spec.specs.Constraints.{IsTrueOf};
ghost use Rattle.fz_spec.specs.Instance.{AreDeclared, Satisfies};

use crate::constraint::is_true_at;
use fz_model::assignment::Assignment;
use fz_model::constraints::Constraints;
use fz_model::model::Model;
use fz_model::variable::Variable;

/// Whether an assignment satisfies a model: it has one number for each variable, each in its declared set, and makes each
/// constraint true. It takes no memory.
pub fn holds(model: &Model, assignment: &Assignment) -> bool
    ensures { IsTrue result ↔ Satisfies model.now assignment.now }
{
    let values = assignment.values();
    are_declared(model.variables(), values) && are_true(model.constraints(), values)
}

/// Whether there is one number for each variable, each in its declared set.
fn are_declared(variables: &[Variable], values: &[i32]) -> bool
    ensures { IsTrue result ↔ AreDeclared variables.now values.now }
{
    if variables.len() != values.len() {
        return false;
    }
    for (i, variable) in variables.iter().enumerate() {
        if !variable.set().contains(values[i]) {
            return false;
        }
    }
    true
}

/// Whether each constraint is true.
fn are_true(constraints: &Constraints, values: &[i32]) -> bool
    ensures { IsTrue result ↔ AllByRecursion (IsTrueOf values.now) constraints.now }
{
    for number in 0..constraints.len() {
        if !is_true_at(constraints.at(number), values) {
            return false;
        }
    }
    true
}
