//! One line of a tree after another.
ghost use Rattle.std.specs.Prelude.{◌≡◌, ◌<◌, length, IfOk, OnOk};
ghost use Rattle.fz_refutes.specs.Texts.{IsHead};
ghost use Rattle.fz_refutes.specs.Makers.{HasNoBetter};
ghost use Rattle.fz_cert.specs.Steps.{line_of};
ghost use Rattle.fz_maker.specs.Making.{AreBoxes, CanGoOn, IsGoneOn, IsMade};

use crate::fit::first_fit;
use fz_cert::step::Step;
use fz_cert::walk::Walk;
use fz_model::{Assignment, Model};
use std::alloc::{AllocError, Global};

/// The line of the box that is next. The walk goes on after it.
pub fn make(
    alloc: Global,
    model: &Model,
    head: &Option<Assignment>,
    walk: &mut Walk,
    values: &mut Vec<i32>,
) -> Result<Step, AllocError>
    requires is_head { IsHead model.now head.now }
    requires best { HasNoBetter model.now head.now }
    requires some { 0 < length walk.old }
    requires boxes { AreBoxes model.now.variables walk.old }
    requires room { length values.old.items ≡ length model.now.variables }
    ensures made { IfOk result (λ step. IsMade model.now head.now (line_of step) walk.old walk.new) }
    ensures room { length values.new.items ≡ length model.now.variables }
{
    let step = first_fit(alloc, model, head, walk.area(), values)?;
    go_on(alloc, walk, step)?;
    Ok(step)
}

/// Goes on after a line of the box that is next.
fn go_on(alloc: Global, walk: &mut Walk, step: Step) -> Result<(), AllocError>
    requires some { 0 < length walk.old }
    requires place { CanGoOn (line_of step) walk.old }
    ensures { OnOk result (IsGoneOn (line_of step) walk.old walk.new) }
{
    match step {
        Step::Split(variable, number) => walk.split(alloc, variable, number),
        Step::Empty | Step::Failing(_) | Step::Worse => walk.close(alloc),
    }
}
