//! Places that may have a value and needn't.
ghost use Rattle.std.specs.Prelude.{◌≡◌, true, false, length, IfOk};
ghost use Rattle.std.specs.List.{AllByRecursion};
ghost use Rattle.fz_dom.specs.declared.change.Change.TheVariants as changes;
ghost use Rattle.fz_strength.specs.Counts.{IsDecided};
ghost use Rattle.fz_strength.specs.Domains.{IsTermOf};
ghost use Rattle.fz_prop.specs.Answers.{IsCorrectOf};
ghost use Rattle.fz_prop.specs.Outcomes.{IsOutcome};
ghost use Rattle.fz_prop.specs.Stores.{Shrinks};
ghost use Rattle.fz_counts.specs.Counting.{AllGo, Goes, IsOpen, IsSettled};

use crate::tally::{is_surely, may_be};
use fz_prop::terms::{keep_only, remove};
use fz_prop::{Change, Store};
use fz_spec::term::Term;
use std::alloc::AllocError;

/// Which way the places go that may have a value and needn't.
#[derive(Clone, Copy)]
pub enum Choice {
    /// None of them has it.
    Without,
    /// All of them have it.
    With,
}

/// Lets the places that may have a value and needn't go without it, or with it.
pub fn settle(
    store: &mut Store,
    terms: &[Term],
    value: i32,
    choice: Choice,
) -> Result<Change, AllocError>
    requires { AllByRecursion (IsTermOf (length store.old.doms)) terms.now }
    ensures shrinks { Shrinks store.old store.new }
    ensures correct { IsCorrectOf (AllGo choice value terms.now store.old.doms)
        store.old.doms store.new.doms }
    ensures outcome { IfOk result
        (λ r. IsOutcome r (AllGo choice value terms.now store.old.doms) store.old store.new) }
    ensures decided { IfOk result
        (λ r. r ≡ changes.Same → IsDecided terms.now store.new.doms value) }
{
    let mut has_changed = false;
    for term in terms {
        let _ = store.doms();
        match settle_one(store, *term, value, choice)? {
            Change::Wiped => return Ok(Change::Wiped),
            Change::Changed => has_changed = true,
            Change::Same => {}
        }
    }
    if has_changed {
        Ok(Change::Changed)
    } else {
        Ok(Change::Same)
    }
}

/// Lets one place go without a value, or with it, if it may have it and needn't.
fn settle_one(
    store: &mut Store,
    term: Term,
    value: i32,
    choice: Choice,
) -> Result<Change, AllocError>
    requires { IsTermOf (length store.old.doms) term }
    ensures shrinks { Shrinks store.old store.new }
    ensures correct { IsCorrectOf (λ a. Goes choice value store.old.doms a term)
        store.old.doms store.new.doms }
    ensures outcome { IfOk result
        (λ r. IsOutcome r (λ a. Goes choice value store.old.doms a term) store.old store.new) }
    ensures settled { IfOk result (λ r. r ≡ changes.Same → IsSettled value store.new.doms term) }
{
    let _ = store.doms();
    if !is_open(store, term, value) {
        return Ok(Change::Same);
    }
    match choice {
        Choice::Without => remove(store, term, value),
        Choice::With => keep_only(store, term, value),
    }
}

/// Whether a term may have a value and needn't.
fn is_open(store: &Store, term: Term, value: i32) -> bool
    requires { IsTermOf (length store.now.doms) term }
    ensures unsettled { result ≡ true → IsOpen value store.now.doms term }
    ensures settled { result ≡ false → IsSettled value store.now.doms term }
{
    let _ = store.doms();
    may_be(store, term, value) && !is_surely(store, term, value)
}
