//! A sum and a Boolean, where the first terms of the sum are fixed.
ghost use Rattle.std.specs.Prelude.{◌≡◌, ◌≢◌, length, IfOk};
ghost use Rattle.std.specs.List.{AllByRecursion};
ghost use Rattle.fz_spec.specs.declared.shape.Relation.TheVariants.{Below};
ghost use Rattle.fz_strength.specs.Domains.{AreDomains, IsTermOf};
ghost use Rattle.fz_strength.specs.Promises.{IsTruth};
ghost use Rattle.fz_prop.specs.Told.{IsToldSum};
ghost use Rattle.fz_prop.specs.Answers.{IsAnswerOf, IsCorrectOf};
ghost use Rattle.fz_prop.specs.Stores.{Shrinks, FitsTerm};
ghost use Rattle.fz_prop.specs.Truths.{TruthWith, LineWith};
ghost use Rattle.fz_linear.specs.Precisions.{IsWeighted};
ghost use Rattle.fz_linear.specs.Terms.{AreTermsOf};
ghost use Rattle.fz_linear.specs.Sums.{SumTruth};
ghost use Rattle.fz_linreif.specs.ReifiedLinears.{sum_sides};

use crate::follow::keep_reified;
use fz_linear::front::{factors_behind, is_long, left_of, pass_fixed, terms_behind};
use fz_linear::narrow::Weighted;
use fz_prop::{Answer, Kept, Store};
use fz_spec::shape::Relation;
use fz_spec::term::Term;
use std::alloc::AllocError;

/// Narrows a store so that a Boolean says whether a sum stands in this relation to a number, as `keep_reified` does, where the sum is
/// long without the terms at the front that are fixed.
#[inline(always)]
pub fn keep_rest(
    store: &mut Store,
    sum: &Weighted<'_>,
    relation: Relation,
    number: i32,
    r: Term,
    kept: &mut Kept,
) -> Result<Answer, AllocError>
    requires bounded { relation ≢ Below }
    requires law { IsWeighted sum.now }
    requires inside { AreTermsOf (length store.old.doms) sum.now.terms.now }
    requires fits { AllByRecursion FitsTerm sum.now.terms.now }
    requires boolean { IsTermOf (length store.old.doms) r }
    requires truth { IsTruth store.old.doms r }
    requires told { IsToldSum sum.now.factors.now sum.now.terms.now kept.old.front kept.old.number
        store.old.doms }
    ensures told { AreDomains store.new.doms
        → IsToldSum sum.now.factors.now sum.now.terms.now kept.new.front kept.new.number store.new.doms }
    ensures shrinks { Shrinks store.old store.new }
    ensures correct { IsCorrectOf (TruthWith (SumTruth relation sum.now.factors.now sum.now.terms.now number) r)
        store.old.doms store.new.doms }
    ensures answer { IfOk result (λ a. IsAnswerOf a
        (TruthWith (SumTruth relation sum.now.factors.now sum.now.terms.now number) r)
        (LineWith (sum_sides relation sum.now.factors.now sum.now.terms.now number) r)
        store.old.doms store.new.doms) }
{
    if !is_long(sum.terms) {
        return keep_reified(store, sum, relation, number, r);
    }
    pass_fixed(store, sum.factors, sum.terms, kept);
    keep_behind(
        store,
        sum,
        relation,
        number,
        r,
        kept.front as usize,
        kept.number,
    )
}

/// The same, where that many terms at the front of the sum are fixed and add up to a number.
#[inline(never)]
fn keep_behind(
    store: &mut Store,
    sum: &Weighted<'_>,
    relation: Relation,
    number: i32,
    r: Term,
    front: usize,
    passed: i64,
) -> Result<Answer, AllocError>
    requires bounded { relation ≢ Below }
    requires law { IsWeighted sum.now }
    requires inside { AreTermsOf (length store.old.doms) sum.now.terms.now }
    requires fits { AllByRecursion FitsTerm sum.now.terms.now }
    requires boolean { IsTermOf (length store.old.doms) r }
    requires truth { IsTruth store.old.doms r }
    requires told { IsToldSum sum.now.factors.now sum.now.terms.now front passed store.old.doms }
    ensures shrinks { Shrinks store.old store.new }
    ensures correct { IsCorrectOf (TruthWith (SumTruth relation sum.now.factors.now sum.now.terms.now number) r)
        store.old.doms store.new.doms }
    ensures answer { IfOk result (λ a. IsAnswerOf a
        (TruthWith (SumTruth relation sum.now.factors.now sum.now.terms.now number) r)
        (LineWith (sum_sides relation sum.now.factors.now sum.now.terms.now number) r)
        store.old.doms store.new.doms) }
{
    let Some(left) = left_of(number, passed) else {
        return keep_reified(store, sum, relation, number, r);
    };
    let factors = factors_behind(sum.factors, front);
    let terms = terms_behind(sum.terms, front);
    let rest = Weighted {
        factors,
        terms,
        precision: sum.precision,
    };
    let answer = keep_reified(store, &rest, relation, left, r);
    let _ = store.doms();
    answer
}
