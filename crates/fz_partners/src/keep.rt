//! Keeping the numbers that have partners.
ghost use Rattle.std.specs.Prelude.{◌≡◌, ◌≤◌, length};
ghost use Rattle.std.specs.List.{AllByRecursion};
ghost use Rattle.fz_sets.specs.Sets.{set_size};
ghost use Rattle.fz_strength.specs.Domains.{term_set, IsTermOf};
ghost use Rattle.fz_prop.specs.Answers.{Narrows};
ghost use Rattle.fz_partners.specs.Equations.{AllCount, EquationLine, EquationTruth, terms_of};

use crate::equation::{Equation, are_few, counting, widest_last};
use crate::found::keep_found;
use crate::solutions::solutions;
use fz_prop::{Answer, Store};
use std::alloc::{AllocError, Global};

/// Narrows a store so that three terms make a sum: where two of them have few pairs of numbers, each keeps the numbers that have partners
/// in the other two.
pub fn keep_partners(
    alloc: Global,
    store: &mut Store,
    equation: Equation,
) -> Result<Answer, AllocError>
    requires { AllByRecursion (IsTermOf (length store.old.doms)) (terms_of equation) }
    ensures { Narrows (EquationTruth equation) (EquationLine equation) result
        store.old store.new }
{
    let counting = counting(equation);
    let turned = widest_last(store, counting);
    let answer = keep_turned(alloc, store, turned);
    let _ = store.doms();
    answer
}

/// The same, where no term has more numbers than the last.
fn keep_turned(alloc: Global, store: &mut Store, equation: Equation) -> Result<Answer, AllocError>
    requires inside { AllByRecursion (IsTermOf (length store.old.doms)) (terms_of equation) }
    requires counts { AllCount equation }
    requires first { set_size (term_set store.old.doms equation.first.term)
        ≤ set_size (term_set store.old.doms equation.third.term) }
    requires second { set_size (term_set store.old.doms equation.second.term)
        ≤ set_size (term_set store.old.doms equation.third.term) }
    ensures { Narrows (EquationTruth equation) (EquationLine equation) result
        store.old store.new }
{
    if !are_few(store, equation) {
        return Ok(Answer::Fix);
    }
    let found = solutions(alloc, store, equation)?;
    keep_found(alloc, store, equation, &found)
}
