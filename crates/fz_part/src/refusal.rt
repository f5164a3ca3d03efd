//! Refusals.
ghost use Rattle.std.specs.Prelude.{◌↔◌, IsTrue, IfSome, IfNone};
ghost use Rattle.std.specs.List.{AllByRecursion};
ghost use Rattle.fz_spec.specs.Truth.{SomeByRecursion};
ghost use Rattle.fz_model.specs.Kept.{IsNumberOf};
ghost use Rattle.fz_part.specs.Parts.{IsDecisionOf};
ghost use Rattle.fz_part.specs.Texts.{IsWrong};

use fz_model::{Kind, Variable};
use fz_tree::decision::Decision;

/// Why a text is of no part of a model.
#[derive(Clone, Copy, Debug, PartialEq, Eq)]
pub enum Refusal {
    /// It isn't decisions with commas between them, with numbers of 32 bits.
    NotAPart,
    /// A decision is on a variable that the model lacks.
    NoVariable,
    /// A variable can't have the number that it is compared with: it isn't 0 or 1 where the variable is a Boolean, or not within
    /// the limits.
    OutOfRange,
}

/// Why decisions are no part of a model of these variables, by the first that is wrong.
pub(crate) fn refusal_in(variables: &[Variable], decisions: &[Decision]) -> Option<Refusal>
    ensures none { IfNone result (AllByRecursion (IsDecisionOf variables.now) decisions.now) }
    ensures some { IfSome result (λ refusal.
        SomeByRecursion (IsWrong refusal variables.now) decisions.now) }
{
    for decision in decisions {
        if let Some(refusal) = refusal_of(variables, *decision) {
            return Some(refusal);
        }
    }
    None
}

/// Why a decision isn't one of a model of these variables.
fn refusal_of(variables: &[Variable], decision: Decision) -> Option<Refusal>
    ensures none { IfNone result (IsDecisionOf variables.now decision) }
    ensures some { IfSome result (λ refusal. IsWrong refusal variables.now decision) }
{
    let Some(variable) = variables.get(decision.variable as usize) else {
        return Some(Refusal::NoVariable);
    };
    if is_number_of(variable.kind(), decision.value) {
        None
    } else {
        Some(Refusal::OutOfRange)
    }
}

/// Whether a variable of a kind may have a number.
fn is_number_of(kind: Kind, number: i32) -> bool
    ensures { IsTrue result ↔ IsNumberOf kind number }
{
    match kind {
        Kind::Bool => 0 <= number && number <= 1,
        Kind::Int => -2_147_483_646 <= number && number <= 2_147_483_646,
    }
}
