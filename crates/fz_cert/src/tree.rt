//! The lines of a tree.
ghost use Rattle.std.specs.Prelude.{◌≡◌, ◌↔◌, ◌++◌, List, length, IfOk, IsTrue, codes};
ghost use Rattle.fz_refutes.specs.Trees.{Line, AreRefutedBy};
ghost use Rattle.fz_refutes.specs.Texts.{comment, lines_text};
ghost use Rattle.fz_cert.specs.Steps.{HaveLength};

use crate::guess;
use crate::step::take;
use crate::text::{behind, push_step};
use crate::walk::Walk;
use fz_model::{Assignment, Model};
use std::alloc::{AllocError, Global};

/// Whether a text is the lines of trees that refute the boxes of a walk, and the line of the end.
pub fn is_tree(
    alloc: Global,
    model: &Model,
    head: &Option<Assignment>,
    walk: &mut Walk,
    text: &[u8],
) -> Result<bool, AllocError>
    requires { HaveLength (length model.now.variables) walk.old }
    ensures { IfOk result (λ yes. IsTrue yes ↔ (lines : List Line)
        × AreRefutedBy model.now head.now walk.old lines
        × (text.now ≡ lines_text lines ++ comment (codes "end"))) }
{
    let mut rest = text;
    let mut piece = Vec::new(alloc);
    let mut values = Vec::from_elem(alloc, 0, model.variables().len())?;
    'lines: while !walk.is_done() {
        let Some(step) = guess::step(rest) else {
            return Ok(false);
        };
        piece.clear();
        push_step(&mut piece, step)?;
        let Some(later) = behind(rest, &piece) else {
            return Ok(false);
        };
        if !take(alloc, model, head, walk, step, &mut values)? {
            return Ok(false);
        }
        rest = later;
    }
    Ok(rest == b"%c end\n".as_slice())
}
