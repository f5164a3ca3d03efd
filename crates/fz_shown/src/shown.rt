//! Whether each variable is shown.
ghost use Rattle.std.specs.Prelude.{◌≡◌, ◌↔◌, true, IfOk, IsTrue};
ghost use Rattle.fz_shown.specs.Guesses.{outputs_told, terms_told};
ghost use Rattle.fz_shown.specs.Shown.{ShowsAll};

use crate::told::tell;
use fz_model::{Model, Output, Term};
use std::alloc::{AllocError, Global};

/// Whether each variable of a model is a term of an output item, so that a block tells the whole assignment.
///
/// # Errors
/// `AllocError` where there is no memory.
pub fn shows_all(alloc: Global, model: &Model) -> Result<bool, AllocError>
    ensures { IfOk result (λ all. IsTrue all ↔ ShowsAll model.now) }
{
    let mut marks = Vec::from_elem(alloc, false, model.variables().len())?;
    mark_outputs(&mut marks, model.outputs());
    Ok(!marks.contains(&false))
}

/// Marks the variables among the terms of output items.
fn mark_outputs(marks: &mut [bool], outputs: &[Output])
    ensures { marks.new ≡ outputs_told (λ term. true) outputs.now marks.old }
{
    for output in outputs {
        mark_terms(marks, output.terms());
    }
}

/// Marks the variables among terms.
fn mark_terms(marks: &mut [bool], terms: &[Term])
    ensures { marks.new ≡ terms_told (λ term. true) terms.now marks.old }
{
    for term in terms {
        tell(marks, *term, true);
    }
}
