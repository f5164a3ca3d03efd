//! A relation of two terms, and the relation that is true exactly where it is false.
ghost use Rattle.std.specs.Prelude.{List, length, IfOk};
ghost use Rattle.fz_prop.specs.Answers.{IsAnswerOf, IsCorrectOf};
ghost use Rattle.fz_strength.specs.Domains.{IsTermOf};
ghost use Rattle.fz_prop.specs.Stores.{Shrinks, FitsTerm};
ghost use Rattle.fz_rel.specs.Truths.{TruthOf, FalseOf, AgainstOf, IsAnswerAs};

use crate::apart::keep_apart;
use crate::equal::keep_equal;
use crate::order::keep_order;
use fz_prop::{Answer, Store};
use fz_spec::shape::Relation;
use fz_spec::term::Term;
use std::alloc::AllocError;

/// Narrows a store by a relation of two terms.
pub fn relate(store: &mut Store, relation: Relation, x: Term, y: Term) -> Result<Answer, AllocError>
    requires x { IsTermOf (length store.old.doms) x }
    requires y { IsTermOf (length store.old.doms) y }
    requires fits_x { FitsTerm x }
    requires fits_y { FitsTerm y }
    ensures shrinks { Shrinks store.old store.new }
    ensures correct { IsCorrectOf (TruthOf relation x y) store.old.doms store.new.doms }
    ensures answer { IfOk result (λ r. IsAnswerAs relation x y r store.old.doms store.new.doms) }
{
    match relation {
        Relation::Equal => keep_equal(store, x, y),
        Relation::NotEqual => keep_apart(store, x, y),
        Relation::AtMost => keep_order(store, false, x, y),
        Relation::Below => keep_order(store, true, x, y),
    }
}

/// Narrows a store so that a relation of two terms is false.
pub fn relate_against(
    store: &mut Store,
    relation: Relation,
    x: Term,
    y: Term,
) -> Result<Answer, AllocError>
    requires x { IsTermOf (length store.old.doms) x }
    requires y { IsTermOf (length store.old.doms) y }
    requires fits_x { FitsTerm x }
    requires fits_y { FitsTerm y }
    ensures shrinks { Shrinks store.old store.new }
    ensures correct { IsCorrectOf (FalseOf relation x y) store.old.doms store.new.doms }
    ensures answer { IfOk result
        (λ r. IsAnswerOf r (FalseOf relation x y) (AgainstOf relation x y)
        store.old.doms store.new.doms) }
{
    match relation {
        Relation::Equal => keep_apart(store, x, y),
        Relation::NotEqual => keep_equal(store, x, y),
        Relation::AtMost => keep_order(store, true, y, x),
        Relation::Below => keep_order(store, false, y, x),
    }
}
