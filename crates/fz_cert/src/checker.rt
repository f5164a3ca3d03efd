//! The checker of certificates.
ghost use Rattle.std.specs.Prelude.{◌≡◌, ◌≢◌, ◌↔◌, ◌++◌, List, ℕ, length, IfOk, OnOk, IsTrue, codes};
ghost use Rattle.fz_spec.specs.Run.{block};
ghost use Rattle.fz_spec.specs.declared.goal.Goal.TheVariants.{Satisfy};
ghost use Rattle.fz_spec.specs.Instance.{AreDeclared};
ghost use Rattle.fz_refutes.specs.Laws.{Shows};
ghost use Rattle.fz_refutes.specs.Texts.{comment, head_text, front_text, lines_text, cert_text, IsHead, Proves, ProvesHead};

use crate::area::Area;
use crate::guess;
use crate::text::{behind, push_head};
use crate::tree::is_tree;
use crate::walk::Walk;
use fz_model::{Assignment, Goal, Model};
use fz_print::block::block;
use fz_truth::holds;
use std::alloc::{AllocError, Global};

/// Whether an output proves its last block best, or that no assignment satisfies.
pub fn check(alloc: Global, model: &Model, output: &[u8]) -> Result<bool, AllocError>
    ensures proves { IfOk result (λ yes. IsTrue yes ↔ Proves model.now output.now) }
    ensures shows { IfOk result (λ yes. IsTrue yes → Shows model.now output.now) }
{
    let _ = model.goal();
    let head = guess::head(alloc, model, output)?;
    if !may_head(model, &head) {
        return Ok(false);
    }
    let proved = proves(alloc, model, &head, output)?;
    Ok(proved)
}

/// Whether an assignment satisfies, and the goal is one to optimise; or there is no assignment.
fn may_head(model: &Model, head: &Option<Assignment>) -> bool
    ensures { IsTrue result ↔ IsHead model.now head.now }
{
    match head {
        None => true,
        Some(best) => holds(model, best) && is_optimised(model),
    }
}

fn is_optimised(model: &Model) -> bool
    ensures { IsTrue result ↔ (model.now.goal ≢ Satisfy) }
{
    match model.goal() {
        Goal::Satisfy => false,
        Goal::Minimize(_) | Goal::Maximize(_) => true,
    }
}

/// Whether an output proves with this head.
fn proves(
    alloc: Global,
    model: &Model,
    head: &Option<Assignment>,
    output: &[u8],
) -> Result<bool, AllocError>
    requires { IsHead model.now head.now }
    ensures { IfOk result (λ yes. IsTrue yes ↔ ProvesHead model.now head.now output.now) }
{
    let mut front = Vec::new(alloc);
    push_front(&mut front, model, head)?;
    let Some(lines) = behind(output, &front) else {
        return Ok(false);
    };
    let area = Area::declared(alloc, model)?;
    let mut walk = Walk::new(alloc, area);
    let found = is_tree(alloc, model, head, &mut walk, lines)?;
    Ok(found)
}

/// Appends what stands before the lines of the tree.
fn push_front(
    text: &mut Vec<u8>,
    model: &Model,
    head: &Option<Assignment>,
) -> Result<(), AllocError>
    requires { IsHead model.now head.now }
    ensures { OnOk result (text.new.items ≡ text.old.items
        ++ (front_text model.now head.now ++ (comment (codes "fzcert 1") ++ comment (head_text head.now)))) }
{
    push_solution_or_none(text, model, head)?;
    text.extend_from_slice(b"%c fzcert 1\n")?;
    push_head(text, head)?;
    Ok(())
}

fn push_solution_or_none(
    text: &mut Vec<u8>,
    model: &Model,
    head: &Option<Assignment>,
) -> Result<(), AllocError>
    requires { IsHead model.now head.now }
    ensures { OnOk result (text.new.items ≡ text.old.items ++ front_text model.now head.now) }
{
    match head {
        None => text.extend_from_slice(b"=====UNSATISFIABLE=====\n"),
        Some(best) => push_solution(text, model, best),
    }
}

fn push_solution(text: &mut Vec<u8>, model: &Model, best: &Assignment) -> Result<(), AllocError>
    requires { AreDeclared model.now.variables best.now }
    ensures { OnOk result (text.new.items ≡ text.old.items
        ++ (block model.now best.now ++ codes "==========\n")) }
{
    let solution = block(*text.allocator(), model, best)?;
    text.extend_from_slice(&solution)?;
    text.extend_from_slice(b"==========\n")?;
    Ok(())
}
