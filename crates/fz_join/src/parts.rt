//! The text of parts.
ghost use Rattle.std.specs.Prelude.{◌≡◌, suc, length, IfOk, IfErr};
ghost use Rattle.std.specs.List.{AllByRecursion};
ghost use Rattle.fz_part.specs.Parts.{IsPartOf};
ghost use Rattle.fz_join.specs.Joins.{parts_text};
ghost use Rattle.fz_join.specs.Parting.{HasReason, IsMisplaced};

use crate::words::next_line;
use fz_model::Model;
use fz_part::{Part, Refusal};
use std::alloc::{AllocError, Global};

/// Which line of a text is of no part, and why.
#[derive(Clone, Copy, Debug, PartialEq, Eq)]
pub struct Misplaced {
    /// The line, counted from 1.
    pub line: usize,
    /// Why, where the line is ended. The last line may lack its end.
    pub refusal: Option<Refusal>,
}

/// The parts of a model that a text lists, a line each, as `fzn --split` prints them.
///
/// # Errors
/// `AllocError` where there is no memory; within it the first line that is of no part.
pub fn parts_of(
    alloc: Global,
    model: &Model,
    text: &[u8],
) -> Result<Result<Vec<Part>, Misplaced>, AllocError>
    ensures text { IfOk result (λ read. IfOk read (λ ps. parts_text ps.items ≡ text.now)) }
    ensures of_model { IfOk result (λ read. IfOk read (λ ps.
        AllByRecursion (IsPartOf model.now) ps.items)) }
    ensures refused { IfOk result (λ read. IfErr read (λ misplaced.
        IsMisplaced model.now text.now misplaced.line)) }
    ensures why { IfOk result (λ read. IfErr read (λ misplaced.
        HasReason misplaced.refusal model.now text.now misplaced.line)) }
{
    let mut parts = Vec::new(alloc);
    let mut left = text;
    'lines: while let Some((line, later)) = next_line(left) {
        match Part::parse(alloc, model, line)? {
            Ok(part) => parts.push(part)?,
            Err(refusal) => return Ok(Err(behind(&parts, Some(refusal)))),
        }
        left = later;
    }
    if left.is_empty() {
        Ok(Ok(parts))
    } else {
        Ok(Err(behind(&parts, None)))
    }
}

/// The line behind these parts.
fn behind(parts: &[Part], refusal: Option<Refusal>) -> Misplaced
    ensures line { result.line ≡ suc (length parts.now) }
    ensures refusal { result.refusal ≡ refusal }
{
    Misplaced {
        line: parts.len() + 1,
        refusal,
    }
}
