//! Keeping the indices and the numbers that have a match, and of the term at the last index what is left of the value.
ghost use Rattle.std.specs.Prelude.{ℤ, length, IfOk};
ghost use Rattle.std.specs.List.{AllByRecursion};
ghost use Rattle.fz_sets.specs.Sets.{IsInSet};
ghost use Rattle.fz_strength.specs.Domains.{term_set, IsTermOf};
ghost use Rattle.fz_strength.specs.VariableElements.{IsVariableElementLine};
ghost use Rattle.fz_prop.specs.Answers.{IsAnswerOf, IsCorrectOf};
ghost use Rattle.fz_prop.specs.Stores.{Shrinks, FitsTerm};
ghost use Rattle.fz_element.specs.Matching.{IsChosen, AreAllMatched, AreMatches, IsNarrowed};
ghost use Rattle.fz_element.specs.Selecting.{Has, AreWithin};

use crate::matches::{Matches, copy_of, matches_of};
use crate::near_matches::near_matches;
use crate::numbers::keep;
use crate::words::{are_all_matched, term_at};
use fz_prop::indices::last_index;
use fz_prop::terms::{are_fixed, keep_in, keep_range, value_of};
use fz_prop::{Answer, Change, Store};
use fz_spec::term::Term;
use std::alloc::{AllocError, Global};

/// Narrows a store so that a value is the term of a list at an index.
pub fn keep_variable_element(
    alloc: Global,
    store: &mut Store,
    index: Term,
    terms: &[Term],
    value: Term,
) -> Result<Answer, AllocError>
    requires index { IsTermOf (length store.old.doms) index }
    requires terms { AllByRecursion (IsTermOf (length store.old.doms)) terms.now }
    requires value { IsTermOf (length store.old.doms) value }
    requires fits_index { FitsTerm index }
    requires fits_terms { AllByRecursion FitsTerm terms.now }
    requires fits_value { FitsTerm value }
    ensures shrinks { Shrinks store.old store.new }
    ensures correct { IsCorrectOf (IsChosen terms.now index value) store.old.doms store.new.doms }
    ensures answer { IfOk result
        (λ r. IsAnswerOf r (IsChosen terms.now index value)
        (IsVariableElementLine terms.now index value) store.old.doms store.new.doms) }
{
    let change = narrow(alloc, store, index, terms, value)?;
    let _ = store.doms();
    match change {
        Change::Wiped => Ok(Answer::Failed),
        Change::Changed => Ok(Answer::NoFix),
        Change::Same => Ok(Answer::rested(are_fixed(store, &[index, value]))),
    }
}

/// Narrows the index to the places of the list, or else all terms.
fn narrow(
    alloc: Global,
    store: &mut Store,
    index: Term,
    terms: &[Term],
    value: Term,
) -> Result<Change, AllocError>
    requires index { IsTermOf (length store.old.doms) index }
    requires terms { AllByRecursion (IsTermOf (length store.old.doms)) terms.now }
    requires value { IsTermOf (length store.old.doms) value }
    requires fits_index { FitsTerm index }
    requires fits_terms { AllByRecursion FitsTerm terms.now }
    requires fits_value { FitsTerm value }
    ensures shrinks { Shrinks store.old store.new }
    ensures correct { IsCorrectOf (IsChosen terms.now index value) store.old.doms store.new.doms }
    ensures narrowed { IfOk result
        (λ r. IsNarrowed r terms.now index value store.old store.new) }
{
    let _ = store.doms();
    match keep_range(store, index, 1, last_index(terms.len()))? {
        Change::Same => keep_matches(alloc, store, index, terms, value),
        change => Ok(change),
    }
}

/// Keeps the indices and the numbers that have a match, or else narrows the term at the last index.
fn keep_matches(
    alloc: Global,
    store: &mut Store,
    index: Term,
    terms: &[Term],
    value: Term,
) -> Result<Change, AllocError>
    requires index { IsTermOf (length store.old.doms) index }
    requires terms { AllByRecursion (IsTermOf (length store.old.doms)) terms.now }
    requires value { IsTermOf (length store.old.doms) value }
    requires fits_index { FitsTerm index }
    requires fits_terms { AllByRecursion FitsTerm terms.now }
    requires fits_value { FitsTerm value }
    ensures shrinks { Shrinks store.old store.new }
    ensures correct { IsCorrectOf (IsChosen terms.now index value) store.old.doms store.new.doms }
    ensures narrowed { IfOk result
        (λ r. IsNarrowed r terms.now index value store.old store.new) }
{
    let _ = store.doms();
    if let Some(matches) = near_matches(store, index, terms, value) {
        return keep_indices(alloc, store, index, terms, value, &matches);
    }
    if are_all_matched(store, index, terms, value) {
        return keep_last(alloc, store, index, terms, value);
    }
    let matches = matches_of(alloc, store, index, terms, value)?;
    keep_indices(alloc, store, index, terms, value, &matches)
}

/// Keeps the indices that have a match, and then the numbers that do.
fn keep_indices(
    alloc: Global,
    store: &mut Store,
    index: Term,
    terms: &[Term],
    value: Term,
    matches: &Matches,
) -> Result<Change, AllocError>
    requires index { IsTermOf (length store.old.doms) index }
    requires terms { AllByRecursion (IsTermOf (length store.old.doms)) terms.now }
    requires value { IsTermOf (length store.old.doms) value }
    requires fits { FitsTerm value }
    requires matches { AreMatches terms.now index value store.old.doms
        (λ i. Has matches.now.indices i) (λ n. Has matches.now.numbers n) }
    requires indices { AreWithin matches.now.indices }
    requires numbers { AreWithin matches.now.numbers }
    ensures shrinks { Shrinks store.old store.new }
    ensures correct { IsCorrectOf (IsChosen terms.now index value) store.old.doms store.new.doms }
    ensures narrowed { IfOk result
        (λ r. IsNarrowed r terms.now index value store.old store.new) }
{
    match keep(store, index, &matches.indices)? {
        Change::Wiped => Ok(Change::Wiped),
        Change::Same => keep_numbers(alloc, store, index, terms, value, matches),
        Change::Changed => match keep(store, value, &matches.numbers)? {
            Change::Wiped => Ok(Change::Wiped),
            Change::Same | Change::Changed => Ok(Change::Changed),
        },
    }
}

/// Keeps the numbers of the value that have a match, where all indices have one, or else narrows the term at the last index.
fn keep_numbers(
    alloc: Global,
    store: &mut Store,
    index: Term,
    terms: &[Term],
    value: Term,
    matches: &Matches,
) -> Result<Change, AllocError>
    requires index { IsTermOf (length store.old.doms) index }
    requires terms { AllByRecursion (IsTermOf (length store.old.doms)) terms.now }
    requires value { IsTermOf (length store.old.doms) value }
    requires fits { FitsTerm value }
    requires matches { AreMatches terms.now index value store.old.doms
        (λ i. Has matches.now.indices i) (λ n. Has matches.now.numbers n) }
    requires indices { AreWithin matches.now.indices }
    requires numbers { AreWithin matches.now.numbers }
    requires all { (i : ℤ) → IsInSet (term_set store.old.doms index) i
        → Has matches.now.indices i }
    ensures shrinks { Shrinks store.old store.new }
    ensures correct { IsCorrectOf (IsChosen terms.now index value) store.old.doms store.new.doms }
    ensures narrowed { IfOk result
        (λ r. IsNarrowed r terms.now index value store.old store.new) }
{
    let _ = store.doms();
    match keep(store, value, &matches.numbers)? {
        Change::Same => keep_last(alloc, store, index, terms, value),
        change => Ok(change),
    }
}

/// Where one index is left, keeps of its term what is left of the value; all indices and numbers have a match.
fn keep_last(
    alloc: Global,
    store: &mut Store,
    index: Term,
    terms: &[Term],
    value: Term,
) -> Result<Change, AllocError>
    requires index { IsTermOf (length store.old.doms) index }
    requires terms { AllByRecursion (IsTermOf (length store.old.doms)) terms.now }
    requires value { IsTermOf (length store.old.doms) value }
    requires fits { FitsTerm value }
    requires matched { AreAllMatched terms.now index value store.old.doms }
    ensures shrinks { Shrinks store.old store.new }
    ensures correct { IsCorrectOf (IsChosen terms.now index value) store.old.doms store.new.doms }
    ensures narrowed { IfOk result
        (λ r. IsNarrowed r terms.now index value store.old store.new) }
{
    let _ = store.doms();
    let Some(place) = value_of(store, index) else {
        return Ok(Change::Same);
    };
    let Some(term) = term_at(terms, place) else {
        return Ok(Change::Same);
    };
    let wanted = copy_of(alloc, store, value)?;
    keep_in(store, term, &wanted)
}
