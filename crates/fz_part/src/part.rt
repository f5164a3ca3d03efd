//! Parts.
ghost use Rattle.std.specs.Prelude.{◌≡◌, ◌++◌, ◌∷◌, [], List, IfOk, IfErr, IsOkAnd, OnOk};
ghost use Rattle.fz_tree.specs.declared.decision.Decision.{Decision};
ghost use Rattle.fz_part.specs.Parts.{IsPartOf};
ghost use Rattle.fz_part.specs.Texts.{part_text, Refuses};

use crate::print::{has_text, push_part};
use crate::read::decisions_of;
use crate::refusal::{Refusal, refusal_in};
use fz_tree::decision::Decision;
use std::alloc::{AllocError, Global};
use std::marker::Model;

/// A part of a model: the assignments that meet each of its decisions. Contracts see it as the list of these.
#[derive(Drop)]
pub struct Part {
    decisions: Vec<Decision>,
}

impl Model for Part {
    ghost use Rattle.std.specs.Prelude.{List};
    ghost use Rattle.fz_tree.specs.declared.decision.Decision.{Decision};

    ghost Value = { List Decision };

    ghost view = { λ p. p.decisions.items };
}

impl Part {
    /// The part without a decision, which is the whole model. It takes no memory.
    pub fn whole(alloc: Global) -> Part
        ensures { result ≡ [] }
    {
        Part {
            decisions: Vec::new(alloc),
        }
    }

    /// The decisions, in order.
    pub fn decisions(&self) -> &[Decision]
        ensures { result.now ≡ self.now }
    {
        &self.decisions
    }

    /// What of it meets one more decision.
    ///
    /// # Errors
    /// `AllocError` where there is no memory.
    pub fn with_decision(&self, decision: Decision) -> Result<Part, AllocError>
        ensures { IfOk result (λ p. p ≡ self.now ++ decision ∷ []) }
    {
        let mut decisions = Vec::with_capacity(
            *self.decisions.allocator(),
            self.decisions.len() + 1,
        )?;
        decisions.extend_from_slice(&self.decisions)?;
        decisions.push(decision)?;
        Ok(Part { decisions })
    }

    /// The part that a text is of, as `0=3,5!=2`. One that is printed is read as what it was.
    ///
    /// # Errors
    /// `AllocError` where there is no memory; within it a `Refusal` exactly where no part of the model has the text.
    pub fn parse(
        alloc: Global,
        model: &fz_model::Model,
        text: &[u8],
    ) -> Result<Result<Part, Refusal>, AllocError>
        ensures text { IfOk result (λ read. IfOk read (λ p. part_text p ≡ text.now)) }
        ensures of_model { IfOk result (λ read. IfOk read (IsPartOf model.now)) }
        ensures exact { IfOk result (λ read. (p : List Decision) → IsPartOf model.now p
            → part_text p ≡ text.now → IsOkAnd read (λ q. q ≡ p)) }
        ensures refused { IfOk result (λ read. IfErr read (λ refusal.
            Refuses refusal model.now text.now)) }
    {
        let variables = model.variables();
        let Some(decisions) = decisions_of(alloc, text)? else {
            return Ok(Err(Refusal::NotAPart));
        };
        let read = decisions.as_slice();
        let is_text = has_text(alloc, read, text)?;
        if !is_text {
            return Ok(Err(Refusal::NotAPart));
        }
        match refusal_in(variables, read) {
            Some(refusal) => Ok(Err(refusal)),
            None => Ok(Ok(Part { decisions })),
        }
    }

    /// Appends its text.
    ///
    /// # Errors
    /// `AllocError` where there is no memory.
    pub fn print(&self, text: &mut Vec<u8>) -> Result<(), AllocError>
        ensures { OnOk result (text.new.items ≡ text.old.items ++ part_text self.now) }
    {
        push_part(text, &self.decisions)
    }
}
