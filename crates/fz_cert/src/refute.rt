//! Which constraints a box refutes.
ghost use Rattle.std.specs.Prelude.{◌≡◌, ◌↔◌, ◌⊎◌, ◌<◌, ◌∷◌, [], negsuc, ◌+ℤ◌, ◌*ℤ◌, ◌^◌, ◌≤◌, unsigned_abs, length, slice_get, IfOk, IsTrue};
ghost use Rattle.fz_spec.specs.Signatures.{shape_of};
ghost use Rattle.fz_model.specs.Groups.{within};
ghost use Rattle.fz_refutes.specs.Refuted.{IsEmptyAmong, IsRefutedSmall, IsRefutedSum, IsSumOut, Refutes, RefutesIfThere, choices_of, open_after, greatest_sum, least_sum, variables_of};

use crate::area::Area;
use crate::ends::{sum_ends, term_ends};
use crate::small::none_holds;
use crate::variables::{few_open, fix, is_empty_among, variables_of};
use fz_dom::Dom;
use fz_model::constraint::Argument;
use fz_model::{Constraint, ConstraintAt, Model, Term};
use fz_spec::builtin::Builtin;
use fz_spec::shape::{Relation, Shape};
use std::alloc::{AllocError, Global};
use std::sync::Arc;

/// Whether a box refutes the constraint of this number. The values are room for an assignment, whatever stands in it.
///
/// # Errors
/// `AllocError` where there is no memory.
pub fn refutes(
    alloc: Global,
    model: &Model,
    constraint: u32,
    area: &Area,
    values: &mut Vec<i32>,
) -> Result<bool, AllocError>
    requires place { constraint < length model.now.constraints }
    requires room { length values.old.items ≡ length area.now }
    ensures refutes { IfOk result (λ yes. IsTrue yes
        ↔ RefutesIfThere (slice_get model.now.constraints constraint) area.now) }
    ensures room { length values.new.items ≡ length area.now }
{
    match model.constraints().at(constraint as usize) {
        ConstraintAt::Written(constraint) => is_refuted(alloc, constraint, area, values),
        ConstraintAt::Element(term, set) => {
            let constraint = element(alloc, term, set)?;
            is_refuted(alloc, &constraint, area, values)
        }
    }
}

/// The constraint that an element of an array lies in a set.
fn element(alloc: Global, term: Term, set: &Arc<Dom>) -> Result<Constraint, AllocError>
    ensures { IfOk result (λ c. c ≡ within set.now.value term) }
{
    let arguments = Vec::from_array(alloc, [Argument::One(term), Argument::Set(set.clone()?)])?;
    Ok(Constraint::new(Builtin::SetIn, arguments))
}

fn is_refuted(
    alloc: Global,
    constraint: &Constraint,
    area: &Area,
    values: &mut Vec<i32>,
) -> Result<bool, AllocError>
    requires room { length values.old.items ≡ length area.now }
    ensures refutes { IfOk result (λ yes. IsTrue yes ↔ Refutes constraint.now area.now) }
    ensures room { length values.new.items ≡ length area.now }
{
    if is_refuted_sum(constraint, area) {
        return Ok(true);
    }
    is_refuted_small(alloc, constraint, area, values)
}

/// Whether the constraint compares a sum that is out of reach.
fn is_refuted_sum(constraint: &Constraint, area: &Area) -> bool
    ensures { IsTrue result ↔ IsRefutedSum (shape_of constraint.now.name) constraint.now.arguments area.now }
{
    match constraint.arguments() {
        [
            Argument::Numbers(factors),
            Argument::Terms(terms),
            Argument::One(bound),
        ] => is_sum_out(
            constraint.name().shape(),
            area,
            factors.as_slice(),
            terms.as_slice(),
            *bound,
        ),
        _ => false,
    }
}

fn is_sum_out(shape: Shape, area: &Area, factors: &[i32], terms: &[Term], bound: Term) -> bool
    ensures { IsTrue result ↔ IsSumOut shape
        (least_sum area.now (negsuc 0 ∷ factors.now) (bound ∷ terms.now))
        (greatest_sum area.now (negsuc 0 ∷ factors.now) (bound ∷ terms.now)) }
{
    let (low, high) = sum_ends(area, factors, terms);
    let (least, greatest) = term_ends(area, bound);
    is_out(shape, lessened(low, greatest), lessened(high, least))
}

/// A sum less a number.
fn lessened(sum: i128, number: i32) -> i128
    requires { unsigned_abs sum ≤ 2 ^ 126 }
    ensures { result ≡ (negsuc 0 *ℤ number) +ℤ sum }
{
    sum - i128::from(number)
}

fn is_out(shape: Shape, low: i128, high: i128) -> bool
    ensures { IsTrue result ↔ IsSumOut shape low high }
{
    match shape {
        Shape::Linear(Relation::AtMost) => 0 < low,
        Shape::Linear(Relation::Equal) => 0 < low || high < 0,
        _ => false,
    }
}

/// Whether its variables have no choice of values, or few, none of which makes the constraint true.
fn is_refuted_small(
    alloc: Global,
    constraint: &Constraint,
    area: &Area,
    values: &mut Vec<i32>,
) -> Result<bool, AllocError>
    requires room { length values.old.items ≡ length area.now }
    ensures refutes { IfOk result (λ yes. IsTrue yes
        ↔ (IsEmptyAmong area.now (variables_of constraint.now.arguments) ⊎ IsRefutedSmall constraint.now area.now)) }
    ensures room { length values.new.items ≡ length area.now }
{
    let variables = variables_of(alloc, constraint)?;
    if is_empty_among(area, &variables) {
        return Ok(true);
    }
    let Some(several) = few_open(alloc, area, &variables)? else {
        return Ok(false);
    };
    Ok(is_never(constraint, area, &variables, &several, values))
}

/// Whether no values of those variables of which several numbers are left make the constraint true.
fn is_never(
    constraint: &Constraint,
    area: &Area,
    variables: &[u32],
    several: &[u32],
    values: &mut Vec<i32>,
) -> bool
    requires full { IsEmptyAmong area.now (variables_of constraint.now.arguments) → ⊥ }
    requires variables { variables.now ≡ variables_of constraint.now.arguments }
    requires several { several.now ≡ open_after area.now [] (variables_of constraint.now.arguments) }
    requires few { choices_of area.now several.now ≤ 256 }
    requires room { length values.old.items ≡ length area.now }
    ensures never { IsTrue result ↔ IsRefutedSmall constraint.now area.now }
    ensures room { length values.new.items ≡ length area.now }
{
    let _ = area.sets();
    fix(area, variables, values);
    none_holds(constraint, area, several, values)
}
