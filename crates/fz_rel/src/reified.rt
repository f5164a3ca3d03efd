//! Relations of two terms, and a Boolean that says whether they hold.
ghost use Rattle.std.specs.Prelude.{◌≡◌, List, length, IfOk};
ghost use Rattle.fz_strength.specs.Events.{IsFixedIn};
ghost use Rattle.fz_strength.specs.Promises.{IsTruth};
ghost use Rattle.fz_strength.specs.Sayings.{CompareIf};
ghost use Rattle.fz_prop.specs.Answers.{IsAnswerOf, IsCorrectOf};
ghost use Rattle.fz_strength.specs.Domains.{IsTermOf};
ghost use Rattle.fz_prop.specs.Stores.{Shrinks, FitsTerm};
ghost use Rattle.fz_prop.specs.Truths.{TruthWith};
ghost use Rattle.fz_rel.specs.Truths.{TruthOf};
ghost use Rattle.fz_rel.specs.Reified.{ReifiedLine};

use crate::relate::{relate, relate_against};
use crate::seen::{are_all, are_none};
use fz_prop::terms::{keep_only, value_of};
use fz_prop::{Answer, Propagator, Store};
use fz_spec::shape::Relation;
use fz_spec::term::Term;
use std::alloc::AllocError;
use std::marker::Model;

/// A comparison of two terms, and a Boolean that says whether it is true.
#[derive(Drop)]
pub struct ReifiedComparison {
    relation: Relation,
    x: Term,
    y: Term,
    r: Term,
}

impl Model for ReifiedComparison {
    ghost use Rattle.fz_strength.specs.Sayings.{Saying, CompareIf};
    ghost use Rattle.fz_prop.specs.Stores.{FitsTerm};

    ghost Value = { Saying };

    ghost view = { λ p. CompareIf p.relation p.x p.y p.r };

    ghost invariant = { λ p. FitsTerm p.x × FitsTerm p.y };
}

impl ReifiedComparison {
    /// The propagator of a comparison of two terms and a Boolean.
    pub fn new(relation: Relation, x: Term, y: Term, r: Term) -> ReifiedComparison
        requires fits_x { FitsTerm x }
        requires fits_y { FitsTerm y }
        ensures { result ≡ CompareIf relation x y r }
    {
        ReifiedComparison { relation, x, y, r }
    }
}

/// Narrows a store so that a Boolean says whether a relation of two terms holds.
fn keep_reified(
    store: &mut Store,
    relation: Relation,
    x: Term,
    y: Term,
    r: Term,
) -> Result<Answer, AllocError>
    requires x { IsTermOf (length store.old.doms) x }
    requires y { IsTermOf (length store.old.doms) y }
    requires r { IsTermOf (length store.old.doms) r }
    requires fits_x { FitsTerm x }
    requires fits_y { FitsTerm y }
    requires truth { IsTruth store.old.doms r }
    ensures shrinks { Shrinks store.old store.new }
    ensures correct { IsCorrectOf (TruthWith (TruthOf relation x y) r)
        store.old.doms store.new.doms }
    ensures answer { IfOk result (λ a. IsAnswerOf a (TruthWith (TruthOf relation x y) r)
        (ReifiedLine relation x y r) store.old.doms store.new.doms) }
{
    let answer = match value_of(store, r) {
        Some(1) => relate(store, relation, x, y)?,
        Some(_) => relate_against(store, relation, x, y)?,
        None => decide(store, relation, x, y, r)?,
    };
    let _ = store.doms();
    Ok(answer)
}

/// Where both are left of a Boolean, fixes it if what is left of the terms is seen to decide.
fn decide(
    store: &mut Store,
    relation: Relation,
    x: Term,
    y: Term,
    r: Term,
) -> Result<Answer, AllocError>
    requires x { IsTermOf (length store.old.doms) x }
    requires y { IsTermOf (length store.old.doms) y }
    requires r { IsTermOf (length store.old.doms) r }
    requires fits_x { FitsTerm x }
    requires fits_y { FitsTerm y }
    requires truth { IsTruth store.old.doms r }
    requires unfixed { IsFixedIn store.old.doms r → ⊥ }
    ensures shrinks { Shrinks store.old store.new }
    ensures correct { IsCorrectOf (TruthWith (TruthOf relation x y) r)
        store.old.doms store.new.doms }
    ensures answer { IfOk result (λ a. IsAnswerOf a (TruthWith (TruthOf relation x y) r)
        (ReifiedLine relation x y r) store.old.doms store.new.doms) }
{
    let _ = store.doms();
    if are_all(store, relation, x, y) {
        let change = keep_only(store, r, 1)?;
        return Ok(Answer::settled(change));
    }
    if are_none(store, relation, x, y) {
        let change = keep_only(store, r, 0)?;
        return Ok(Answer::settled(change));
    }
    Ok(Answer::Fix)
}

impl Propagator for ReifiedComparison {
    ghost saying = { λ p. p };

    fn propagate(&self, store: &mut Store) -> Result<Answer, AllocError> {
        keep_reified(store, self.relation, self.x, self.y, self.r)
    }
}
