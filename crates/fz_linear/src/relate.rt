//! How a sum relates to a number, and the relation that is true exactly where that one is false.
ghost use Rattle.std.specs.Prelude.{◌≡◌, ◌≢◌, ◌+◌, ◌≤◌, List, length, IfOk};
ghost use Rattle.std.specs.List.{AllByRecursion};
ghost use Rattle.fz_spec.specs.declared.limits.TheConstants.{ELEMENT_LIMIT};
ghost use Rattle.fz_spec.specs.declared.shape.Relation.TheVariants.{Equal, Below};
ghost use Rattle.fz_strength.specs.Domains.{AreDomains};
ghost use Rattle.fz_strength.specs.Events.{AllFixed};
ghost use Rattle.fz_prop.specs.Told.{IsToldSum};
ghost use Rattle.fz_prop.specs.declared.answer.Answer.TheVariants.{Fix, NoFix};
ghost use Rattle.fz_prop.specs.Answers.{IsCorrectOf};
ghost use Rattle.fz_prop.specs.Stores.{Shrinks, FitsTerm};
ghost use Rattle.fz_shift.specs.Planes.{IsPlaneIn};
ghost use Rattle.fz_linear.specs.Shapes.{IsShapeIn, IsPruned};
ghost use Rattle.fz_linear.specs.Terms.{AreTermsOf};
ghost use Rattle.fz_linear.specs.Precisions.{IsWeighted};
ghost use Rattle.fz_linear.specs.Sums.{SumTruth, SumFalse, IsAnswerSum, IsAnswerAgainst};

use crate::apart::keep_apart;
use crate::bounded::{keep_above, keep_at_most, keep_equal};
use crate::front::relate_rest;
use crate::narrow::Weighted;
use crate::shape::Shape;
use fz_prop::{Answer, Kept, Store};
use fz_shift::{Plane, keep_above_by, keep_apart_by, keep_plane};
use fz_spec::shape::Relation;
use fz_spec::term::Term;
use std::alloc::AllocError;

/// Narrows a store by how a sum relates to a number. The sum is added up in as many bits as is said.
///
/// # Errors
/// `AllocError` where there is no memory for a domain; the store is then narrower, and no assignment is lost.
#[inline(always)]
pub fn relate(
    store: &mut Store,
    sum: &Weighted<'_>,
    relation: Relation,
    number: i32,
) -> Result<Answer, AllocError>
    requires bounded { relation ≢ Below }
    requires law { IsWeighted sum.now }
    requires inside { AreTermsOf (length store.old.doms) sum.now.terms.now }
    requires fits { AllByRecursion FitsTerm sum.now.terms.now }
    ensures shrinks { Shrinks store.old store.new }
    ensures correct { IsCorrectOf (SumTruth relation sum.now.factors.now sum.now.terms.now number)
        store.old.doms store.new.doms }
    ensures answer { IfOk result
        (λ r. IsAnswerSum relation sum.now.factors.now sum.now.terms.now number r store.old.doms store.new.doms) }
    ensures still { IfOk result (λ r. r ≡ Fix → store.new ≡ store.old) }
{
    match relation {
        Relation::Equal => keep_equal(store, sum, number),
        Relation::NotEqual => keep_apart(store, sum, number),
        _ => keep_at_most(store, sum, number),
    }
}

/// Narrows a store by how a sum relates to a number, as `relate` does, again and again until that changes nothing more.
#[inline(always)]
pub fn relate_to_rest(
    store: &mut Store,
    sum: &Weighted<'_>,
    relation: Relation,
    number: i32,
) -> Result<Answer, AllocError>
    requires bounded { relation ≢ Below }
    requires law { IsWeighted sum.now }
    requires inside { AreTermsOf (length store.old.doms) sum.now.terms.now }
    requires fits { AllByRecursion FitsTerm sum.now.terms.now }
    ensures shrinks { Shrinks store.old store.new }
    ensures correct { IsCorrectOf (SumTruth relation sum.now.factors.now sum.now.terms.now number)
        store.old.doms store.new.doms }
    ensures answer { IfOk result
        (λ r. IsAnswerSum relation sum.now.factors.now sum.now.terms.now number r store.old.doms store.new.doms) }
    ensures rests { IfOk result (λ r. r ≢ NoFix) }
{
    'runs: loop {
        match relate(store, sum, relation, number)? {
            Answer::NoFix => {}
            Answer::Fix => return Ok(Answer::Fix),
            Answer::Subsumed => return Ok(Answer::Subsumed),
            Answer::Failed => return Ok(Answer::Failed),
        }
    }
}

/// Narrows a store by how a sum relates to a number until it rests: on whole domains where it is the difference of two variables, which
/// is to be the number or isn't, or one of three that are to lie on a plane and aren't too wide. Of a long sum the terms at the front
/// that are fixed are kept, and passed by.
///
/// # Errors
/// As `relate`.
#[inline(always)]
pub fn relate_whole(
    store: &mut Store,
    shape: Shape,
    sum: &Weighted<'_>,
    relation: Relation,
    number: i32,
    kept: &mut Kept,
) -> Result<Answer, AllocError>
    requires bounded { relation ≢ Below }
    requires law { IsWeighted sum.now }
    requires inside { AreTermsOf (length store.old.doms) sum.now.terms.now }
    requires fits { AllByRecursion FitsTerm sum.now.terms.now }
    requires shaped { IsShapeIn shape sum.now.factors.now sum.now.terms.now number }
    requires told { IsToldSum sum.now.factors.now sum.now.terms.now kept.old.front kept.old.number
        store.old.doms }
    ensures told { AreDomains store.new.doms
        → IsToldSum sum.now.factors.now sum.now.terms.now kept.new.front kept.new.number store.new.doms }
    ensures shrinks { Shrinks store.old store.new }
    ensures correct { IsCorrectOf (SumTruth relation sum.now.factors.now sum.now.terms.now number)
        store.old.doms store.new.doms }
    ensures answer { IfOk result
        (λ r. IsAnswerSum relation sum.now.factors.now sum.now.terms.now number r store.old.doms store.new.doms) }
    ensures pruned { IfOk result (λ r. IsPruned relation shape r store.new.doms) }
{
    match (relation, shape) {
        (Relation::Equal, Shape::Two(difference)) => keep_above_by(store, difference),
        (Relation::NotEqual, Shape::Two(difference)) => keep_apart_by(store, difference),
        (Relation::Equal, Shape::Three(plane)) => relate_on(store, plane, sum, number, kept),
        _ => relate_rest(store, sum, relation, number, kept),
    }
}

/// Narrows a store so that a sum is a number, which makes its variables lie on a plane: on whole domains, unless these are too wide.
fn relate_on(
    store: &mut Store,
    plane: Plane,
    sum: &Weighted<'_>,
    number: i32,
    kept: &mut Kept,
) -> Result<Answer, AllocError>
    requires lies { IsPlaneIn plane sum.now.factors.now sum.now.terms.now number }
    requires law { IsWeighted sum.now }
    requires inside { AreTermsOf (length store.old.doms) sum.now.terms.now }
    requires fits { AllByRecursion FitsTerm sum.now.terms.now }
    requires told { IsToldSum sum.now.factors.now sum.now.terms.now kept.old.front kept.old.number
        store.old.doms }
    ensures told { AreDomains store.new.doms
        → IsToldSum sum.now.factors.now sum.now.terms.now kept.new.front kept.new.number store.new.doms }
    ensures shrinks { Shrinks store.old store.new }
    ensures correct { IsCorrectOf (SumTruth Equal sum.now.factors.now sum.now.terms.now number)
        store.old.doms store.new.doms }
    ensures answer { IfOk result
        (λ r. IsAnswerSum Equal sum.now.factors.now sum.now.terms.now number r store.old.doms store.new.doms) }
{
    let answer = keep_plane(store, plane)?;
    let _ = store.doms();
    match answer {
        Some(answer) => Ok(answer),
        None => relate_rest(store, sum, Relation::Equal, number, kept),
    }
}

/// Narrows a store so that a sum doesn't so relate to a number.
///
/// # Errors
/// As `relate`.
#[inline(always)]
pub fn relate_against(
    store: &mut Store,
    sum: &Weighted<'_>,
    relation: Relation,
    number: i32,
) -> Result<Answer, AllocError>
    requires bounded { relation ≢ Below }
    requires law { IsWeighted sum.now }
    requires inside { AreTermsOf (length store.old.doms) sum.now.terms.now }
    requires fits { AllByRecursion FitsTerm sum.now.terms.now }
    ensures shrinks { Shrinks store.old store.new }
    ensures correct { IsCorrectOf (SumFalse relation sum.now.factors.now sum.now.terms.now number)
        store.old.doms store.new.doms }
    ensures answer { IfOk result (λ r.
        IsAnswerAgainst relation sum.now.factors.now sum.now.terms.now number r store.old.doms store.new.doms) }
    ensures still { IfOk result (λ r. r ≡ Fix → store.new ≡ store.old) }
{
    match relation {
        Relation::Equal => keep_apart(store, sum, number),
        Relation::NotEqual => keep_equal(store, sum, number),
        _ => keep_above(store, sum, number),
    }
}
