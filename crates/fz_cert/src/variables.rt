//! The variables of a constraint, and those of which a box leaves several numbers.
ghost use Rattle.std.specs.Prelude.{◌≡◌, ◌↔◌, ◌++◌, ◌≤◌, ◌<◌, ◌*◌, ℕ, [], IfOk, IfSome, IfNone, OnOk, IsTrue, flat_map, length, map};
ghost use Rattle.std.specs.List.{AllByRecursion};
ghost use Rattle.fz_sets.specs.Sets.{set_size};
ghost use Rattle.fz_model.specs.Arguments.{argument_of};
ghost use Rattle.fz_refutes.specs.Boxes.{set_at};
ghost use Rattle.fz_spec.specs.Constraints.{terms_of};
ghost use Rattle.fz_refutes.specs.Refuted.{IsEmptyAmong, choices_of, open_after, variable_of, variables_of, with_open};
ghost use Rattle.fz_refutes.specs.Smalls.{HasFixed};

use crate::area::Area;
use crate::ends::is_none_of;
use fz_model::constraint::Argument;
use fz_model::{Constraint, Term};
use std::alloc::{AllocError, Global};

/// The variables of a constraint, in the order of its arguments.
pub fn variables_of(alloc: Global, constraint: &Constraint) -> Result<Vec<u32>, AllocError>
    ensures { IfOk result (λ v. v.items ≡ variables_of constraint.now.arguments) }
{
    let terms = terms_of(alloc, constraint.arguments())?;
    let variables = variables_among(alloc, &terms)?;
    Ok(variables)
}

fn terms_of(alloc: Global, arguments: &[Argument]) -> Result<Vec<Term>, AllocError>
    ensures { IfOk result
        (λ v. v.items ≡ flat_map (λ a. terms_of (argument_of a)) arguments.now) }
{
    let mut terms = Vec::new(alloc);
    for argument in arguments {
        push_terms(&mut terms, argument)?;
    }
    Ok(terms)
}

fn push_terms(terms: &mut Vec<Term>, argument: &Argument) -> Result<(), AllocError>
    ensures { OnOk result (terms.new.items ≡ terms.old.items ++ terms_of (argument_of argument.now)) }
{
    match argument {
        Argument::One(term) => terms.push(*term)?,
        Argument::Terms(more) => terms.extend_from_slice(more.as_slice())?,
        Argument::Numbers(_) | Argument::Set(_) => {}
    }
    Ok(())
}

fn variables_among(alloc: Global, terms: &[Term]) -> Result<Vec<u32>, AllocError>
    ensures { IfOk result (λ v. v.items ≡ flat_map variable_of terms.now) }
{
    let mut variables = Vec::new(alloc);
    for term in terms {
        push_variable(&mut variables, *term)?;
    }
    Ok(variables)
}

fn push_variable(variables: &mut Vec<u32>, term: Term) -> Result<(), AllocError>
    ensures { OnOk result (variables.new.items ≡ variables.old.items ++ variable_of term) }
{
    match term {
        Term::Num(_) => {}
        Term::Var(variable) => variables.push(variable)?,
    }
    Ok(())
}

/// Whether the set of one of these variables is empty.
pub fn is_empty_among(area: &Area, variables: &[u32]) -> bool
    ensures { IsTrue result ↔ IsEmptyAmong area.now variables.now }
{
    for variable in variables {
        if is_none_of(area, *variable) {
            return true;
        }
    }
    false
}

/// The variables among these of which more than one number is left, each once, where they have at most 256 choices.
pub fn few_open(
    alloc: Global,
    area: &Area,
    variables: &[u32],
) -> Result<Option<Vec<u32>>, AllocError>
    ensures some { IfOk result (λ o. IfSome o (λ v.
        (v.items ≡ open_after area.now [] variables.now) × (choices_of area.now v.items ≤ 256))) }
    ensures none { IfOk result (λ o. IfNone o
        (choices_of area.now (open_after area.now [] variables.now) ≤ 256 → ⊥)) }
{
    let mut several = Vec::new(alloc);
    let mut choices = 1;
    for variable in variables {
        choices = add_open(area, &mut several, choices, *variable)?;
        if choices > 256 {
            return Ok(None);
        }
    }
    Ok(Some(several))
}

/// Adds a variable of which more than one number is left, if it isn't there, and answers how many choices there are then.
fn add_open(
    area: &Area,
    several: &mut Vec<u32>,
    choices: u64,
    variable: u32,
) -> Result<u64, AllocError>
    requires choices { choices ≡ choices_of area.now several.old.items }
    requires few { choices ≤ 256 }
    ensures several { OnOk result (several.new.items ≡ with_open area.now several.old.items variable) }
    ensures choices { IfOk result (λ n. n ≡ choices_of area.now several.new.items) }
{
    let size = size_at(area, variable);
    if size <= 1 || several.contains(&variable) {
        return Ok(choices);
    }
    several.push(variable)?;
    Ok(choices * size)
}

/// How many numbers are left of a variable.
pub fn size_at(area: &Area, variable: u32) -> u64
    ensures size { result ≡ set_size (set_at area.now variable) }
    ensures bound { result ≤ 4294967293 }
{
    let sets = area.sets();
    let place = variable as usize;
    if place >= sets.len() {
        return 1;
    }
    sets[place].size()
}

/// Writes the number of each of these variables of which one is left.
pub fn fix(area: &Area, variables: &[u32], values: &mut Vec<i32>)
    requires { length values.old.items ≡ length area.now }
    ensures length { length values.new.items ≡ length area.now }
    ensures fixed { AllByRecursion (HasFixed area.now values.new.items) variables.now }
{
    for variable in variables {
        fix_one(area, *variable, values);
    }
}

fn fix_one(area: &Area, variable: u32, values: &mut Vec<i32>)
    requires { length values.old.items ≡ length area.now }
    ensures length { length values.new.items ≡ length area.now }
    ensures fixed { HasFixed area.now values.new.items variable }
    ensures others { (v : ℕ) → HasFixed area.now values.old.items v
        → HasFixed area.now values.new.items v }
{
    let place = variable as usize;
    let sets = area.sets();
    if place >= sets.len() {
        return;
    }
    if sets[place].is_fixed() {
        values[place] = sets[place].min();
    }
}
