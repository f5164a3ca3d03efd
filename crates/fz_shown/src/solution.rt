//! Whether a block is of a solution.
ghost use Rattle.std.specs.Prelude.{◌↔◌, IfOk, IsTrue};
ghost use Rattle.fz_shown.specs.Shown.{IsSolutionText, ShowsAll};

use crate::guess::guess;
use fz_model::Model;
use fz_print::block::block;
use fz_truth::holds;
use std::alloc::{AllocError, Global};

/// Whether a text is the block of an assignment that satisfies a model of which each variable is shown.
///
/// # Errors
/// `AllocError` where there is no memory.
pub fn is_solution(alloc: Global, model: &Model, text: &[u8]) -> Result<bool, AllocError>
    requires { ShowsAll model.now }
    ensures { IfOk result (λ is. IsTrue is ↔ IsSolutionText model.now text.now) }
{
    let guessed = guess(alloc, model, text)?;
    if !holds(model, &guessed) {
        return Ok(false);
    }
    let printed = block(alloc, model, &guessed)?;
    Ok(printed.as_slice() == text)
}
