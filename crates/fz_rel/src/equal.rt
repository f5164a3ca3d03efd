//! Terms that are equal.
ghost use Rattle.std.specs.Prelude.{◌≡◌, ◌<◌, ℤ, List, length, IfOk, OnErr};
ghost use Rattle.fz_sets.specs.Sets.{IsInSet};
ghost use Rattle.fz_spec.specs.declared.term.Term.TheVariants.{Var};
ghost use Rattle.fz_strength.specs.Domains.{dom_at, term_set, IsTermOf};
ghost use Rattle.fz_strength.specs.Events.{IsOnly, IsFixedIn};
ghost use Rattle.fz_spec.specs.declared.shape.Relation.TheVariants.{Equal};
ghost use Rattle.fz_prop.specs.Answers.{IsCorrectOf};
ghost use Rattle.fz_prop.specs.Stores.{Shrinks, IsStore, IsChangeAt};
ghost use Rattle.fz_rel.specs.Truths.{TruthOf, IsAnswerAs};

use fz_prop::terms::{keep_only, value_of};
use fz_prop::{Answer, Change, Store};
use fz_spec::term::Term;
use std::alloc::AllocError;

/// Narrows a store so that two terms are equal: each keeps the numbers that the other has too.
pub fn keep_equal(store: &mut Store, x: Term, y: Term) -> Result<Answer, AllocError>
    requires x { IsTermOf (length store.old.doms) x }
    requires y { IsTermOf (length store.old.doms) y }
    ensures shrinks { Shrinks store.old store.new }
    ensures correct { IsCorrectOf (TruthOf Equal x y) store.old.doms store.new.doms }
    ensures answer { IfOk result (λ r. IsAnswerAs Equal x y r store.old.doms store.new.doms) }
{
    match (x, y) {
        (Term::Var(v), Term::Var(w)) => keep_variables(store, v, w),
        (Term::Num(number), _) => keep_number(store, x, y, number),
        (_, Term::Num(number)) => keep_number(store, y, x, number),
    }
}

/// Narrows a store so that a term is equal to one that is fixed.
fn keep_number(
    store: &mut Store,
    fixed: Term,
    other: Term,
    value: i32,
) -> Result<Answer, AllocError>
    requires fixed { IsTermOf (length store.old.doms) fixed }
    requires other { IsTermOf (length store.old.doms) other }
    requires only { IsOnly (term_set store.old.doms fixed) value }
    ensures shrinks { Shrinks store.old store.new }
    ensures correct { IsCorrectOf (TruthOf Equal fixed other) store.old.doms store.new.doms }
    ensures answer { IfOk result
        (λ r. IsAnswerAs Equal fixed other r store.old.doms store.new.doms) }
{
    let change = keep_only(store, other, value)?;
    Ok(Answer::settled(change))
}

/// Narrows a store so that two variables are equal: where one of them is fixed, the other keeps its number alone.
fn keep_variables(store: &mut Store, v: u32, w: u32) -> Result<Answer, AllocError>
    requires v { v < length store.old.doms }
    requires w { w < length store.old.doms }
    ensures shrinks { Shrinks store.old store.new }
    ensures correct { IsCorrectOf (TruthOf Equal (Var v) (Var w)) store.old.doms store.new.doms }
    ensures answer { IfOk result
        (λ r. IsAnswerAs Equal (Var v) (Var w) r store.old.doms store.new.doms) }
{
    let (x, y) = (Term::Var(v), Term::Var(w));
    if let Some(value) = value_of(store, x) {
        return keep_number(store, x, y, value);
    }
    if let Some(value) = value_of(store, y) {
        return keep_number(store, y, x, value);
    }
    keep_same(store, v, w)
}

/// Narrows a store so that two variables are equal, by the whole of what is left of each.
fn keep_same(store: &mut Store, x: u32, y: u32) -> Result<Answer, AllocError>
    requires x { x < length store.old.doms }
    requires y { y < length store.old.doms }
    ensures shrinks { Shrinks store.old store.new }
    ensures correct { IsCorrectOf (TruthOf Equal (Var x) (Var y)) store.old.doms store.new.doms }
    ensures answer { IfOk result
        (λ r. IsAnswerAs Equal (Var x) (Var y) r store.old.doms store.new.doms) }
{
    match keep_among(store, x, y)? {
        Change::Wiped => Ok(Answer::Failed),
        _ => keep_rest(store, x, y),
    }
}

/// Narrows a store so that two variables are equal, where all numbers of the first are in the second.
fn keep_rest(store: &mut Store, x: u32, y: u32) -> Result<Answer, AllocError>
    requires x { x < length store.old.doms }
    requires y { y < length store.old.doms }
    requires among { (z : ℤ)
        → IsInSet (dom_at store.old.doms x) z → IsInSet (dom_at store.old.doms y) z }
    ensures shrinks { Shrinks store.old store.new }
    ensures correct { IsCorrectOf (TruthOf Equal (Var x) (Var y)) store.old.doms store.new.doms }
    ensures answer { IfOk result
        (λ r. IsAnswerAs Equal (Var x) (Var y) r store.old.doms store.new.doms) }
    ensures old_store { IsStore store.old }
{
    match keep_among(store, y, x)? {
        Change::Wiped => Ok(Answer::Failed),
        _ => Ok(same_now(store, x, y)),
    }
}

/// Keeps the numbers of a variable that another has too.
fn keep_among(store: &mut Store, variable: u32, other: u32) -> Result<Change, AllocError>
    requires variable { variable < length store.old.doms }
    requires other { other < length store.old.doms }
    ensures shrinks { Shrinks store.old store.new }
    ensures change { IfOk result (λ r.
        IsChangeAt r variable (λ z. IsInSet (dom_at store.old.doms other) z) store.old store.new) }
    ensures err { OnErr result (store.new ≡ store.old) }
    ensures old_store { IsStore store.old }
{
    store.keep_partners(variable, other, 0)
}

/// What is known of two variables with the same numbers.
fn same_now(store: &Store, x: u32, y: u32) -> Answer
    requires x { x < length store.now.doms }
    requires y { y < length store.now.doms }
    requires among { (z : ℤ)
        → IsInSet (dom_at store.now.doms x) z → IsInSet (dom_at store.now.doms y) z }
    requires back { (z : ℤ)
        → IsInSet (dom_at store.now.doms y) z → IsInSet (dom_at store.now.doms x) z }
    ensures answer { IsAnswerAs Equal (Var x) (Var y) result store.now.doms store.now.doms }
    ensures store { IsStore store.now }
{
    let _ = y;
    if store.dom(x).is_fixed() {
        Answer::Subsumed
    } else {
        Answer::Fix
    }
}
