//! What a machine searches.
ghost use Rattle.std.specs.Prelude.{◌≡◌, ◌++◌, ◌∷◌, ◌<◌, [], false, length, map, IfOk, IfSome, IfNone, OnOk};
ghost use Rattle.std.specs.List.{AllByRecursion};
ghost use Rattle.fz_sets.specs.Sets.{IsWithinLimits};
ghost use Rattle.fz_spec.specs.declared.limits.TheConstants.{CONSTRAINT_LIMIT};
ghost use Rattle.fz_spec.specs.Constraints.{One};
ghost use Rattle.fz_part.specs.Parts.{IsDecisionOf, IsPartOf};
ghost use Rattle.fz_part.specs.Parts.{name_of, constraint_of, bounds_of, task_of};

use crate::part::Part;
use fz_model::{Argument, Constraint, Constraints, Goal, Kind, Model, Term, Variable};
use fz_spec::builtin::Builtin;
use fz_spec::limits::CONSTRAINT_LIMIT;
use fz_tree::decision::{Comparison, Decision};
use std::alloc::{AllocError, Global};

/// The task of a machine: the model, with the decisions of a part as constraints behind its own, and where there is a bound with
/// the one that the goal's term has a better value. `None` exactly where these are more constraints than a model may have.
///
/// # Errors
/// `AllocError` where there is no memory.
pub fn task_of(
    alloc: Global,
    model: &Model,
    part: &Part,
    bound: Option<i32>,
) -> Result<Option<Model>, AllocError>
    requires of_model { IsPartOf model.now part.now }
    requires within { IfSome bound IsWithinLimits }
    ensures task { IfOk result (λ made. IfSome made (λ m. m ≡ task_of model.now part.now bound)) }
    ensures many { IfOk result (λ made. IfNone made
        (CONSTRAINT_LIMIT < length (task_of model.now part.now bound).constraints)) }
{
    let constraints = constraints_of(alloc, model, part.decisions(), bound)?;
    if CONSTRAINT_LIMIT < constraints.len() {
        return Ok(None);
    }
    let variables = copies(alloc, model.variables())?;
    let outputs = copies(alloc, model.outputs())?;
    let search = copies(alloc, model.search())?;
    let goal = *model.goal();
    Ok(Some(Model::new(variables, constraints, goal, outputs, search)))
}

/// Its constraints.
fn constraints_of(
    alloc: Global,
    model: &Model,
    decisions: &[Decision],
    bound: Option<i32>,
) -> Result<Constraints, AllocError>
    requires { IsPartOf model.now decisions.now }
    ensures { IfOk result (λ cs. cs ≡ (task_of model.now decisions.now bound).constraints) }
{
    let mut constraints = fz_model::Part::copy(model.constraints())?;
    push_decisions(alloc, &mut constraints, model.variables(), decisions)?;
    push_bound(alloc, &mut constraints, model.goal(), bound)?;
    Ok(constraints)
}

/// Adds what these decisions say.
fn push_decisions(
    alloc: Global,
    constraints: &mut Constraints,
    variables: &[Variable],
    decisions: &[Decision],
) -> Result<(), AllocError>
    requires { AllByRecursion (IsDecisionOf variables.now) decisions.now }
    ensures { OnOk result (constraints.new
        ≡ constraints.old ++ map (constraint_of variables.now) decisions.now) }
{
    for decision in decisions {
        constraints.push(constraint_of(alloc, variables, *decision)?)?;
    }
    Ok(())
}

/// What a decision says.
fn constraint_of(
    alloc: Global,
    variables: &[Variable],
    decision: Decision,
) -> Result<Constraint, AllocError>
    requires { IsDecisionOf variables.now decision }
    ensures { IfOk result (λ c. c ≡ constraint_of variables.now decision) }
{
    let name = name_of(
        variables[decision.variable as usize].kind(),
        decision.comparison,
    );
    let variable = Term::Var(decision.variable);
    let number = Term::Num(decision.value);
    match decision.comparison {
        Comparison::Above => compared(alloc, name, number, variable),
        _ => compared(alloc, name, variable, number),
    }
}

/// The constraint that compares a variable of this kind with a number. That it is above the number says that this is below it.
fn name_of(kind: Kind, comparison: Comparison) -> Builtin
    ensures { result ≡ name_of kind comparison }
{
    match (kind, comparison) {
        (Kind::Bool, Comparison::Equal) => Builtin::BoolEq,
        (Kind::Bool, Comparison::NotEqual) => Builtin::BoolNot,
        (Kind::Bool, Comparison::AtMost) => Builtin::BoolLe,
        (Kind::Bool, Comparison::Above) => Builtin::BoolLt,
        (Kind::Int, Comparison::Equal) => Builtin::IntEq,
        (Kind::Int, Comparison::NotEqual) => Builtin::IntNe,
        (Kind::Int, Comparison::AtMost) => Builtin::IntLe,
        (Kind::Int, Comparison::Above) => Builtin::IntLt,
    }
}

/// Adds that the goal's term has a better value than the bound, if there is one.
fn push_bound(
    alloc: Global,
    constraints: &mut Constraints,
    goal: &Goal,
    bound: Option<i32>,
) -> Result<(), AllocError>
    ensures { OnOk result (constraints.new ≡ constraints.old ++ bounds_of goal.now bound) }
{
    let Some(bound) = bound else {
        return Ok(());
    };
    let bound = Term::Num(bound);
    match goal {
        Goal::Satisfy => Ok(()),
        Goal::Minimize(term) => { constraints.push(compared(alloc, Builtin::IntLt, *term, bound)?) }
        Goal::Maximize(term) => { constraints.push(compared(alloc, Builtin::IntLt, bound, *term)?) }
    }
}

/// A constraint of two terms.
fn compared(
    alloc: Global,
    name: Builtin,
    first: Term,
    second: Term,
) -> Result<Constraint, AllocError>
    ensures { IfOk result (λ c. c ≡ record {
      name = name;
      arguments = One first ∷ One second ∷ [];
      whole = false;
    }) }
{
    let mut arguments = Vec::with_capacity(alloc, 2)?;
    arguments.push(Argument::One(first))?;
    arguments.push(Argument::One(second))?;
    Ok(Constraint::new(name, arguments))
}

/// Copies of variables, of output items or of parts of the search, in order.
fn copies<T: fz_model::Part>(alloc: Global, items: &[T]) -> Result<Vec<T>, AllocError>
    ensures { IfOk result (λ copies. copies.items ≡ items.now) }
{
    let mut copies = Vec::with_capacity(alloc, items.len())?;
    for item in items {
        copies.push(item.copy()?)?;
    }
    Ok(copies)
}
