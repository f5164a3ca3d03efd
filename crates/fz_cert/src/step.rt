//! One line of a tree after another.
ghost use Rattle.std.specs.Prelude.{◌≡◌, ◌↔◌, ◌∷◌, ◌<◌, List, length, slice_get, IfOk, IsTrue, cond};
ghost use Rattle.fz_cert.specs.Steps.{IsTaken, IsSplitTaken, HaveLength, ClosesBox};
ghost use Rattle.fz_refutes.specs.Refuted.{RefutesIfThere};
ghost use Rattle.fz_refutes.specs.Trees.{IsSplitOf};

use crate::area::Area;
use crate::ends::is_worse;
use crate::refute::refutes;
use crate::walk::Walk;
use fz_model::{Assignment, Model};
use std::alloc::{AllocError, Global};

/// A line of a tree.
#[derive(Clone, Copy)]
pub enum Step {
    Empty,
    Failing(u32),
    Worse,
    Split(u32, i32),
}

/// Takes a line of a tree: whether it refutes or splits the box that is next.
pub fn take(
    alloc: Global,
    model: &Model,
    head: &Option<Assignment>,
    walk: &mut Walk,
    step: Step,
    values: &mut Vec<i32>,
) -> Result<bool, AllocError>
    requires boxes { HaveLength (length model.now.variables) walk.old }
    requires room { length values.old.items ≡ length model.now.variables }
    ensures taken { IfOk result (λ yes. IsTaken model.now head.now step yes walk.old walk.new) }
    ensures length { IfOk result (λ yes. HaveLength (length model.now.variables) walk.new) }
    ensures room { length values.new.items ≡ length model.now.variables }
{
    if walk.is_done() {
        return Ok(false);
    }
    match step {
        Step::Split(variable, number) => split(alloc, model, walk, variable, number),
        leaf => {
            if !closes(alloc, model, head, walk.area(), leaf, values)? {
                return Ok(false);
            }
            walk.close(alloc)?;
            Ok(true)
        }
    }
}

/// Splits the box that is next, if the model has the variable.
fn split(
    alloc: Global,
    model: &Model,
    walk: &mut Walk,
    variable: u32,
    number: i32,
) -> Result<bool, AllocError>
    requires some { 0 < length walk.old }
    requires length { HaveLength (length model.now.variables) walk.old }
    ensures taken { IfOk result (λ yes. IsSplitTaken model.now variable number yes walk.old walk.new) }
    ensures length { IfOk result (λ yes. HaveLength (length model.now.variables) walk.new) }
{
    if !is_split(model, variable, number) {
        return Ok(false);
    }
    walk.split(alloc, variable, number)?;
    Ok(true)
}

/// Whether the model has the variable.
fn is_split(model: &Model, variable: u32, _number: i32) -> bool
    ensures { IsTrue result ↔ IsSplitOf model.now variable _number }
{
    (variable as usize) < model.variables().len()
}

/// Whether a line that splits nothing refutes a box.
fn closes(
    alloc: Global,
    model: &Model,
    head: &Option<Assignment>,
    area: &Area,
    step: Step,
    values: &mut Vec<i32>,
) -> Result<bool, AllocError>
    requires length { length area.now ≡ length model.now.variables }
    requires room { length values.old.items ≡ length model.now.variables }
    ensures room { length values.new.items ≡ length model.now.variables }
    ensures closes { IfOk result (λ yes. IsTrue yes ↔ ClosesBox model.now head.now step area.now) }
{
    match step {
        Step::Empty => Ok(area.has_empty()),
        Step::Failing(constraint) => fails(alloc, model, area, constraint, values),
        Step::Worse => Ok(is_worse(model, area, head)),
        Step::Split(_, _) => Ok(false),
    }
}

/// Whether the constraint of this number is refuted.
fn fails(
    alloc: Global,
    model: &Model,
    area: &Area,
    constraint: u32,
    values: &mut Vec<i32>,
) -> Result<bool, AllocError>
    requires length { length area.now ≡ length model.now.variables }
    requires room { length values.old.items ≡ length model.now.variables }
    ensures room { length values.new.items ≡ length model.now.variables }
    ensures fails { IfOk result (λ yes. IsTrue yes ↔ RefutesIfThere (slice_get model.now.constraints constraint) area.now) }
{
    if constraint as usize >= model.constraints().len() {
        return Ok(false);
    }
    refutes(alloc, model, constraint, area, values)
}
