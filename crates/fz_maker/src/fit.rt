//! The first line of a tree that fits a box.
ghost use Rattle.std.specs.Prelude.{◌≡◌, ◌↔◌, ◌<◌, ◌≤◌, ℕ, length, IfOk, IsTrue, MatchOption};
ghost use Rattle.fz_refutes.specs.Boxes.{AreSets, HasEmpty, IsWord};
ghost use Rattle.fz_refutes.specs.Refuted.{IsWorse};
ghost use Rattle.fz_refutes.specs.Texts.{IsHead};
ghost use Rattle.fz_refutes.specs.Trees.{IsFirstFailing, IsFirstOpen, IsOpen, IsPicked, NoneFails, goal_variable, middle};
ghost use Rattle.fz_refutes.specs.Makers.{HasNoBetter, IsFirstFit, IsPartOf};
ghost use Rattle.fz_cert.specs.Steps.{line_of};

use fz_cert::area::Area;
use fz_cert::ends::is_worse;
use fz_cert::refute::refutes;
use fz_cert::step::Step;
use fz_cert::variables::size_at;
use fz_dom::Dom;
use fz_model::{Assignment, Goal, Model, Term};
use std::alloc::{AllocError, Global};

/// The line of the first form of a tree that fits a box. The values are room for an assignment, whatever stands in it.
pub fn first_fit(
    alloc: Global,
    model: &Model,
    head: &Option<Assignment>,
    area: &Area,
    values: &mut Vec<i32>,
) -> Result<Step, AllocError>
    requires is_head { IsHead model.now head.now }
    requires best { HasNoBetter model.now head.now }
    requires part { IsPartOf model.now.variables area.now }
    requires room { length values.old.items ≡ length area.now }
    ensures fits { IfOk result (λ step. IsFirstFit model.now head.now area.now (line_of step)) }
    ensures sets { AreSets area.now }
    ensures room { length values.new.items ≡ length area.now }
{
    let _ = area.sets();
    if area.has_empty() {
        return Ok(Step::Empty);
    }
    if let Some(constraint) = first_failing(alloc, model, area, values)? {
        return Ok(Step::Failing(constraint));
    }
    if is_worse(model, area, head) {
        return Ok(Step::Worse);
    }
    Ok(split_of(model, head, area))
}

/// The first constraint that is refuted.
fn first_failing(
    alloc: Global,
    model: &Model,
    area: &Area,
    values: &mut Vec<i32>,
) -> Result<Option<u32>, AllocError>
    requires room { length values.old.items ≡ length area.now }
    ensures first { IfOk result (λ o. MatchOption o (NoneFails model.now area.now)
        (λ c. IsFirstFailing model.now area.now c)) }
    ensures room { length values.new.items ≡ length area.now }
{
    let count = model.constraints().len() as u32;
    for constraint in 0..count {
        if refutes(alloc, model, constraint, area, values)? {
            return Ok(Some(constraint));
        }
    }
    Ok(None)
}

/// Where a box is split: at the middle of the goal's variable where several numbers are left of it, else of the first such variable.
fn split_of(model: &Model, head: &Option<Assignment>, area: &Area) -> Step
    requires is_head { IsHead model.now head.now }
    requires best { HasNoBetter model.now head.now }
    requires part { IsPartOf model.now.variables area.now }
    requires full { HasEmpty area.now → ⊥ }
    requires unrefuted { NoneFails model.now area.now }
    requires hope { IsWorse model.now.goal area.now head.now → ⊥ }
    ensures { IsFirstFit model.now head.now area.now (line_of result) }
{
    let _ = area.sets();
    let variable = picked(model, area);
    let number = middle(&area.sets()[variable as usize]);
    Step::Split(variable, number)
}

/// The goal's variable where several numbers are left of it, else the first such variable.
fn picked(model: &Model, area: &Area) -> u32
    requires length { length area.now ≡ length model.now.variables }
    requires some { ((v : ℕ) → IsOpen area.now v → ⊥) → ⊥ }
    ensures picked { IsPicked (goal_variable model.now.goal) area.now result }
    ensures several { IsOpen area.now result }
    ensures within { result < length area.now }
{
    if let Some(variable) = goal_variable(model) {
        if is_open(area, variable) {
            return variable;
        }
    }
    first_open(model, area)
}

fn goal_variable(model: &Model) -> Option<u32>
    ensures { result ≡ goal_variable model.now.goal }
{
    match model.goal() {
        Goal::Minimize(Term::Var(variable)) | Goal::Maximize(Term::Var(variable)) => {
            Some(*variable)
        }
        _ => None,
    }
}

/// The first variable of which several numbers are left.
fn first_open(model: &Model, area: &Area) -> u32
    requires length { length area.now ≡ length model.now.variables }
    requires some { ((v : ℕ) → IsOpen area.now v → ⊥) → ⊥ }
    ensures { IsFirstOpen area.now result }
{
    let count = model.variables().len() as u32;
    for variable in 0..count {
        if is_open(area, variable) {
            return variable;
        }
    }
    unreachable!()
}

/// Whether several numbers are left of a variable.
fn is_open(area: &Area, variable: u32) -> bool
    ensures { IsTrue result ↔ IsOpen area.now variable }
{
    size_at(area, variable) >= 2
}

/// The middle of the hull, rounded down.
fn middle(set: &Dom) -> i32
    requires { 0 < length set.now }
    ensures middle { result ≡ middle set.now }
    ensures word { IsWord result }
{
    let (low, high) = (set.min(), set.max());
    low + (high.abs_diff(low) / 2) as i32
}
