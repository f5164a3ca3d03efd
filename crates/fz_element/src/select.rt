//! Keeping the indices whose number is left, and the numbers at these.
ghost use Rattle.std.specs.Prelude.{◌≡◌, ◌↔◌, ◌⊎◌, length, IfOk, IsTrue};
ghost use Rattle.fz_sets.specs.Sets.{IsInSet};
ghost use Rattle.fz_dom.specs.declared.change.Change.TheVariants as changes;
ghost use Rattle.fz_strength.specs.Domains.{term_set, IsTermOf};
ghost use Rattle.fz_prop.specs.Answers.{IsAnswerOf, IsCorrectOf, Narrows};
ghost use Rattle.fz_prop.specs.Stores.{Shrinks, FitsTerm};
ghost use Rattle.fz_element.specs.Selecting.{ArePairs, IsSelected, SelectionLine, Has, AreWithin};

use crate::numbers::{Pairs, keep};
use crate::pairs::pairs_of;
use fz_prop::terms::are_fixed;
use fz_prop::{Answer, Change, Store};
use fz_spec::term::Term;
use std::alloc::{AllocError, Global};

/// Narrows a store so that a value stands in a list of numbers at an index.
pub fn keep_element(
    alloc: Global,
    store: &mut Store,
    index: Term,
    numbers: &[i32],
    value: Term,
) -> Result<Answer, AllocError>
    requires index { IsTermOf (length store.old.doms) index }
    requires value { IsTermOf (length store.old.doms) value }
    requires fits_index { FitsTerm index }
    requires fits_value { FitsTerm value }
    ensures { Narrows (IsSelected index numbers.now value) (SelectionLine index numbers.now value)
        result store.old store.new }
{
    let pairs = pairs_of(alloc, store, index, numbers, value)?;
    keep_pairs(store, index, numbers, value, &pairs)
}

/// Keeps the indices and the numbers of all pairs that are left.
fn keep_pairs(
    store: &mut Store,
    index: Term,
    numbers: &[i32],
    value: Term,
    pairs: &Pairs,
) -> Result<Answer, AllocError>
    requires index { IsTermOf (length store.old.doms) index }
    requires value { IsTermOf (length store.old.doms) value }
    requires pairs { ArePairs numbers.now (λ k. IsInSet (term_set store.old.doms index) k)
        (λ n. IsInSet (term_set store.old.doms value) n)
        (λ k. Has pairs.now.indices k) (λ n. Has pairs.now.values n) }
    requires indices { AreWithin pairs.now.indices }
    requires values { AreWithin pairs.now.values }
    ensures shrinks { Shrinks store.old store.new }
    ensures correct { IsCorrectOf (IsSelected index numbers.now value)
        store.old.doms store.new.doms }
    ensures answer { IfOk result
        (λ r. IsAnswerOf r (IsSelected index numbers.now value)
        (SelectionLine index numbers.now value) store.old.doms store.new.doms) }
{
    let _ = numbers;
    let first = keep(store, index, &pairs.indices)?;
    if let Change::Wiped = first {
        return Ok(Answer::Failed);
    }
    let second = keep(store, value, &pairs.values)?;
    if let Change::Wiped = second {
        return Ok(Answer::Failed);
    }
    let _ = store.doms();
    if has_changed_both(index, value, first, second) {
        return Ok(Answer::NoFix);
    }
    Ok(Answer::rested(are_fixed(store, &[value])))
}

/// Whether both terms are one variable, and it changed.
fn has_changed_both(index: Term, value: Term, first: Change, second: Change) -> bool
    ensures { IsTrue result ↔ ((index ≡ value)
        × ((first ≡ changes.Changed) ⊎ (second ≡ changes.Changed))) }
{
    index == value && (first == Change::Changed || second == Change::Changed)
}
