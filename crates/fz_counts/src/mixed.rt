//! Places of which some values are of a cover, and some aren't.
ghost use Rattle.std.specs.Prelude.{length, IfOk};
ghost use Rattle.std.specs.List.{AllByRecursion};
ghost use Rattle.fz_spec.specs.Constraints.{term_value};
ghost use Rattle.fz_strength.specs.Domains.{IsTermOf};
ghost use Rattle.fz_prop.specs.Answers.{IsCorrectOf};
ghost use Rattle.fz_prop.specs.Outcomes.{IsOutcome};
ghost use Rattle.fz_prop.specs.Stores.{Shrinks};
ghost use Rattle.fz_counts.specs.declared.places.Choice.TheVariants as choices;
ghost use Rattle.fz_counts.specs.Covers.{AllSide, IsCoverOf, Sides, Takes};

use crate::cover::Cover;
use crate::places::Choice;
use crate::standing::{Standing, standing_of};
use fz_prop::terms::{keep_window, remove};
use fz_prop::{Change, Store};
use fz_spec::term::Term;
use std::alloc::AllocError;

/// Lets the places that may have a value of a cover and needn't go without one, or with one.
pub fn settle_mixed(
    store: &mut Store,
    terms: &[Term],
    values: &[i32],
    cover: Cover,
    choice: Choice,
) -> Result<Change, AllocError>
    requires terms { AllByRecursion (IsTermOf (length store.old.doms)) terms.now }
    requires cover { IsCoverOf cover values.now }
    ensures shrinks { Shrinks store.old store.new }
    ensures correct { IsCorrectOf (AllSide choice cover terms.now store.old.doms)
        store.old.doms store.new.doms }
    ensures outcome { IfOk result
        (λ r. IsOutcome r (AllSide choice cover terms.now store.old.doms) store.old store.new) }
{
    let mut has_changed = false;
    for term in terms {
        let _ = store.doms();
        match settle_one(store, *term, values, cover, choice)? {
            Change::Wiped => return Ok(Change::Wiped),
            Change::Changed => has_changed = true,
            Change::Same => {}
        }
    }
    if has_changed {
        Ok(Change::Changed)
    } else {
        Ok(Change::Same)
    }
}

/// Lets one place go without a value of a cover, or with one, if it may have one and needn't.
fn settle_one(
    store: &mut Store,
    term: Term,
    values: &[i32],
    cover: Cover,
    choice: Choice,
) -> Result<Change, AllocError>
    requires term { IsTermOf (length store.old.doms) term }
    requires cover { IsCoverOf cover values.now }
    ensures shrinks { Shrinks store.old store.new }
    ensures correct { IsCorrectOf (λ a. Sides choice cover store.old.doms a term)
        store.old.doms store.new.doms }
    ensures outcome { IfOk result
        (λ r. IsOutcome r (λ a. Sides choice cover store.old.doms a term) store.old store.new) }
{
    let Standing::Mixed = standing_of(store, term, cover) else {
        return Ok(Change::Same);
    };
    match choice {
        Choice::Without => remove_all(store, term, values, cover),
        Choice::With => keep_window(store, term, cover.window),
    }
}

/// Removes the values of a cover from a place.
fn remove_all(
    store: &mut Store,
    term: Term,
    values: &[i32],
    cover: Cover,
) -> Result<Change, AllocError>
    requires term { IsTermOf (length store.old.doms) term }
    requires cover { IsCoverOf cover values.now }
    ensures shrinks { Shrinks store.old store.new }
    ensures correct { IsCorrectOf (λ a. Takes choices.Without cover (term_value a term))
        store.old.doms store.new.doms }
    ensures outcome { IfOk result
        (λ r. IsOutcome r (λ a. Takes choices.Without cover (term_value a term)) store.old store.new) }
{
    let _ = cover;
    let mut has_changed = false;
    for value in values {
        match remove(store, term, *value)? {
            Change::Wiped => return Ok(Change::Wiped),
            Change::Changed => has_changed = true,
            Change::Same => {}
        }
    }
    if has_changed {
        Ok(Change::Changed)
    } else {
        Ok(Change::Same)
    }
}
