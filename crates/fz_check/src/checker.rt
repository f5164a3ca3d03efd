//! From a program to a model.
ghost use Rattle.std.specs.Prelude.{◌≡◌, [], IfOk};
ghost use Rattle.fz_language.specs.Models as models;
ghost use Rattle.fz_language.specs.Trees as lang;
ghost use Rattle.fz_language.specs.Within.{ProgramFits};
ghost use Rattle.fz_syntax.specs.Trees as trees;
ghost use Rattle.fz_check.specs.Checked.{IsCheckOf};
ghost use Rattle.fz_check.specs.Drafts.{IsOf};

use crate::draft::Draft;
use crate::goal::{goal, solve_fault};
use fz_model::Model;
use fz_resolve::Fault;
use fz_solve::search::search;
use fz_syntax::{Program, SolveItem};
use std::alloc::{AllocError, Global};

/// The model of a program, or the first rule that its first item breaks.
///
/// # Errors
/// `AllocError` where there is no memory.
pub fn check(alloc: Global, program: Program<'_>) -> Result<Result<Model, Fault>, AllocError>
    requires { ProgramFits (trees.program_of program) }
    ensures { IfOk result (IsCheckOf (trees.program_of program.entry)) }
{
    let Program { items, solve } = program;
    let mut draft = Draft::new(alloc);
    for item in items {
        if let Some(fault) = draft.take(alloc, item)? {
            return Ok(Err(fault));
        }
    }
    match solve_fault(&draft.names, &solve) {
        Some(fault) => Ok(Err(fault)),
        None => Ok(Ok(model_of(alloc, draft, &solve)?)),
    }
}

/// The model of a program that breaks no rule, whose items the draft is of, and whose solve item this is.
fn model_of<'a>(alloc: Global, draft: Draft<'a>, solve: &SolveItem<'a>) -> Result<Model, AllocError>
    requires { (p : lang.Program) × IsOf p draft (trees.solve_item_of solve.now) }
    ensures { (p : lang.Program) → IsOf p draft.entry (trees.solve_item_of solve.now)
        → IfOk result (λ m. m ≡ models.model_of p) }
{
    let parts = search(alloc, &draft.names, &solve.annotations)?;
    let goal = goal(&draft.names, solve);
    let Draft {
        names: _names,
        variables,
        constraints,
        outputs,
        ..
    } = draft;
    Ok(Model::new(variables, constraints, goal, outputs, parts))
}
