//! Keeping terms to the numbers that can point back: those that are places of other terms, where the term's own place is left.
ghost use Rattle.std.specs.Prelude.{◌≡◌, length, IfOk, OnErr};
ghost use Rattle.std.specs.List.{AllByRecursion};
ghost use Rattle.fz_dom.specs.declared.change.Change.TheVariants as changes;
ghost use Rattle.fz_strength.specs.Domains.{IsTermOf};
ghost use Rattle.fz_prop.specs.Answers.{IsCorrectOf};
ghost use Rattle.fz_prop.specs.Outcomes.{IsOutcome};
ghost use Rattle.fz_prop.specs.Stores.{FitsTerm, IsTermChange, Shrinks};
ghost use Rattle.fz_inverse.specs.Pointing.{AllCanPointBack, AreOthers, CanPointBack, IsApartKept, PointBackAt};

use crate::numbers::{bits_left, numbers_left};
use fz_bits::Window;
use fz_prop::terms::{keep_in, keep_window};
use fz_prop::{Change, Store};
use fz_spec::term::Term;
use std::alloc::{AllocError, Global};

/// Keeps each term to the numbers that can point back.
///
/// # Errors
/// `AllocError` where there is no memory; the store is then narrower, and no assignment is lost.
pub fn keep_pointing(
    alloc: Global,
    store: &mut Store,
    terms: &[Term],
    others: &[Term],
) -> Result<Change, AllocError>
    requires terms { AllByRecursion (IsTermOf (length store.old.doms)) terms.now }
    requires others { AllByRecursion (IsTermOf (length store.old.doms)) others.now }
    requires fits { AllByRecursion FitsTerm terms.now }
    requires fits_others { AllByRecursion FitsTerm others.now }
    ensures shrinks { Shrinks store.old store.new }
    ensures correct { IsCorrectOf (PointBackAt terms.now others.now) store.old.doms store.new.doms }
    ensures outcome { IfOk result
        (λ r. IsOutcome r (PointBackAt terms.now others.now) store.old store.new) }
    ensures pointing { IfOk result (λ r. (r ≡ changes.Wiped → ⊥)
        → (r ≡ changes.Changed → AreOthers terms.now others.now)
        → AllCanPointBack terms.now others.now store.new.doms) }
    ensures apart { IfOk result (λ r. (r ≡ changes.Wiped → ⊥)
        → IsApartKept terms.now others.now store.old.doms store.new.doms) }
{
    let mut has_changed = false;
    for (place, term) in terms.iter().enumerate() {
        match keep_back(alloc, store, *term, others, place)? {
            Change::Wiped => return Ok(Change::Wiped),
            Change::Changed => has_changed = true,
            Change::Same => {}
        }
    }
    if has_changed {
        Ok(Change::Changed)
    } else {
        Ok(Change::Same)
    }
}

/// Keeps the term at a place to the numbers that can point back.
fn keep_back(
    alloc: Global,
    store: &mut Store,
    term: Term,
    others: &[Term],
    place: usize,
) -> Result<Change, AllocError>
    requires term { IsTermOf (length store.old.doms) term }
    requires others { AllByRecursion (IsTermOf (length store.old.doms)) others.now }
    requires fits { FitsTerm term }
    requires fits_others { AllByRecursion FitsTerm others.now }
    ensures shrinks { Shrinks store.old store.new }
    ensures err { OnErr result (store.new ≡ store.old) }
    ensures change { IfOk result (λ r. IsTermChange r term
        (CanPointBack others.now store.old.doms place) store.old store.new) }
{
    if others.len() <= 64 {
        let bits = bits_left(store, term, others, place);
        return keep_window(store, term, Window { base: 1, bits });
    }
    let numbers = numbers_left(alloc, store, term, others, place)?;
    keep_in(store, term, &numbers)
}
