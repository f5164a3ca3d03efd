//! The least and the greatest of many terms, without those at both ends that are neither.
ghost use Rattle.std.specs.Prelude.{◌≡◌, ◌↔◌, ◌<◌, ◌≤◌, ◌-◌, drop, length, min, take, IfOk, IsTrue};
ghost use Rattle.std.specs.List.{AllByRecursion};
ghost use Rattle.fz_strength.specs.Operations.{equation, EquationTruth, IsEquationLine};
ghost use Rattle.fz_prop.specs.Told.{AreDoneBehind, AreDoneBelow, IsBeaten};
ghost use Rattle.fz_prop.specs.Answers.{IsAnswerOf, IsCorrectOf};
ghost use Rattle.fz_strength.specs.Domains.{IsTermOf};
ghost use Rattle.fz_prop.specs.Stores.{Shrinks};
ghost use Rattle.fz_arith.specs.Extremes.{AreEndsBeaten, IsExtreme};

use crate::narrow::keep_equation;
use fz_prop::terms::{greatest_of, least_of};
use fz_prop::{Answer, Kept, Store, count_of};
use fz_spec::shape::Operation;
use fz_spec::term::Term;
use std::alloc::AllocError;

/// Whether there are so many operands that it serves to keep something of them.
pub fn is_long(operands: &[Term]) -> bool
    ensures { IsTrue result ↔ (4 < length operands.now) }
{
    operands.len() > 4
}

/// Narrows a store as `keep_equation` does, where of that many operands at each end none is the least, or the greatest; more of these are
/// found first.
pub fn keep_between_ends(
    store: &mut Store,
    operation: Operation,
    operands: &[Term],
    value: Term,
    kept: &mut Kept,
) -> Result<Answer, AllocError>
    requires value { IsTermOf (length store.old.doms) value }
    requires operands { AllByRecursion (IsTermOf (length store.old.doms)) operands.now }
    requires told { AreEndsBeaten operation operands.now value kept.old.front kept.old.back
        store.old.doms }
    ensures told { AreEndsBeaten operation operands.now value kept.new.front kept.new.back
        store.new.doms }
    ensures shrinks { Shrinks store.old store.new }
    ensures correct { IsCorrectOf (EquationTruth (equation operation operands.now value))
        store.old.doms store.new.doms }
    ensures answer { IfOk result
        (λ r. IsAnswerOf r (EquationTruth (equation operation operands.now value))
        (IsEquationLine (equation operation operands.now value))
        store.old.doms store.new.doms) }
{
    if !has_ends(operation, operands) {
        return keep_equation(store, operation, operands, value);
    }
    let front = front_from(store, operation, operands, value, kept.front);
    let back = back_from(store, operation, operands, value, kept.back);
    kept.front = front;
    kept.back = back;
    keep_part(
        store,
        operation,
        operands,
        value,
        front as usize,
        back as usize,
    )
}

/// Whether an operation makes the least or the greatest of many terms.
fn has_ends(operation: Operation, operands: &[Term]) -> bool
    ensures { IsTrue result → IsExtreme operation }
{
    match operation {
        Operation::Min | Operation::Max => is_long(operands),
        _ => false,
    }
}

/// Narrows a store as `keep_equation` does, without that many operands at each end of which none is the least, or the greatest.
fn keep_part(
    store: &mut Store,
    operation: Operation,
    operands: &[Term],
    value: Term,
    front: usize,
    back: usize,
) -> Result<Answer, AllocError>
    requires extreme { IsExtreme operation }
    requires value { IsTermOf (length store.old.doms) value }
    requires operands { AllByRecursion (IsTermOf (length store.old.doms)) operands.now }
    requires told { AreEndsBeaten operation operands.now value front back store.old.doms }
    ensures shrinks { Shrinks store.old store.new }
    ensures correct { IsCorrectOf (EquationTruth (equation operation operands.now value))
        store.old.doms store.new.doms }
    ensures answer { IfOk result
        (λ r. IsAnswerOf r (EquationTruth (equation operation operands.now value))
        (IsEquationLine (equation operation operands.now value))
        store.old.doms store.new.doms) }
{
    let end = operands.len().saturating_sub(back);
    let part = part_of(operands, front.min(end), end);
    let answer = keep_equation(store, operation, part, value);
    let _ = store.doms();
    answer
}

/// The operands from a place to another.
fn part_of(operands: &[Term], start: usize, end: usize) -> &[Term]
    requires start { start ≤ end }
    requires end { end ≤ length operands.now }
    ensures { result.now ≡ take (end - start) (drop start operands.now) }
{
    &operands[start..end]
}

/// Whether an operand has only numbers that aren't the least, or the greatest.
fn is_beaten(store: &Store, operation: Operation, operand: Term, value: Term) -> bool
    requires operand { IsTermOf (length store.now.doms) operand }
    requires value { IsTermOf (length store.now.doms) value }
    ensures { IsTrue result → IsBeaten operation store.now.doms value operand }
{
    match operation {
        Operation::Min => greatest_of(store, value) < least_of(store, operand),
        Operation::Max => greatest_of(store, operand) < least_of(store, value),
        _ => false,
    }
}

/// Of how many operands at the front none is the least, or the greatest, where it is none of that many.
fn front_from(
    store: &Store,
    operation: Operation,
    operands: &[Term],
    value: Term,
    front: u32,
) -> u32
    requires value { IsTermOf (length store.now.doms) value }
    requires operands { AllByRecursion (IsTermOf (length store.now.doms)) operands.now }
    requires told { AreDoneBelow (λ i t. IsBeaten operation store.now.doms value t)
        operands.now front }
    ensures { AreDoneBelow (λ i t. IsBeaten operation store.now.doms value t)
        operands.now result }
{
    let count = count_of(operands);
    for place in front..count {
        if !is_beaten(store, operation, operands[place as usize], value) {
            return place;
        }
    }
    front.max(count)
}

/// Of how many operands at the back none is the least, or the greatest, where it is none of that many.
fn back_from(store: &Store, operation: Operation, operands: &[Term], value: Term, back: u32) -> u32
    requires value { IsTermOf (length store.now.doms) value }
    requires operands { AllByRecursion (IsTermOf (length store.now.doms)) operands.now }
    requires told { AreDoneBehind (λ i t. IsBeaten operation store.now.doms value t)
        operands.now back }
    ensures { AreDoneBehind (λ i t. IsBeaten operation store.now.doms value t)
        operands.now result }
{
    let count = count_of(operands);
    for passed in back..count {
        let place = operands.len() - 1 - passed as usize;
        if !is_beaten(store, operation, operands[place], value) {
            return passed;
        }
    }
    back.max(count)
}
