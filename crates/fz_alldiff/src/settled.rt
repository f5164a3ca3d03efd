//! Places that are fixed before a run: their numbers leave all others at once.
ghost use Rattle.std.specs.Prelude.{◌≡◌, ◌↔◌, true, false, ℕ, ℤ, List, length, IfOk, IfSome, IsNone, IsTrue};
ghost use Rattle.std.specs.List.{AllByRecursion};
ghost use Rattle.fz_sets.specs.Sets.{IsInSet};
ghost use Rattle.fz_spec.specs.Constraints.{term_value};
ghost use Rattle.fz_strength.specs.Domains.{term_set, Within, IsTermOf};
ghost use Rattle.fz_prop.specs.Answers.{IsCorrectOf};
ghost use Rattle.fz_prop.specs.Stores.{Shrinks};
ghost use Rattle.fz_alldiff.specs.Differing.{AreCleared, AreNeverDifferent, IsDifferent, IsDone, IsFixedPlace};
ghost use Rattle.fz_alldiff.specs.Settled.{AreEntriesOf, AreRising, IsFreeOf};

use crate::far::remove_from;
use fz_prop::terms::value_of;
use fz_prop::{Change, Store};
use fz_spec::term::Term;
use std::alloc::{AllocError, Global};

/// Which places are done, of those that are fixed: the number of each is at no other. None where a place has no other number. Where two
/// have one number, none is done.
///
/// # Errors
/// `AllocError` where there is no memory; no assignment is lost.
pub fn settle(
    alloc: Global,
    store: &mut Store,
    terms: &[Term],
) -> Result<Option<Vec<bool>>, AllocError>
    requires { AllByRecursion (IsTermOf (length store.old.doms)) terms.now }
    ensures shrinks { Shrinks store.old store.new }
    ensures correct { IsCorrectOf (IsDifferent terms.now) store.old.doms store.new.doms }
    ensures size { IfOk result (λ o. IfSome o (λ v. length v.items ≡ length terms.now)) }
    ensures cleared { IfOk result (λ o. IfSome o
        (λ v. AreCleared terms.now store.new.doms v.items)) }
    ensures failed { IfOk result (λ o. IsNone o → AreNeverDifferent terms.now store.old.doms) }
{
    let _ = store.doms();
    let entries = fixed_entries(alloc, store, terms)?;
    if !are_rising(&entries) {
        let none = Vec::from_elem(alloc, false, terms.len())?;
        return Ok(Some(none));
    }
    let done = fixed_places(alloc, store, terms)?;
    for (place, term) in terms.iter().enumerate() {
        if !done[place] && !keep_free(store, *term, &entries)? {
            return Ok(None);
        }
        let _ = store.doms();
    }
    Ok(Some(done))
}

/// The numbers of the fixed places, in order, with these.
fn fixed_entries(
    alloc: Global,
    store: &Store,
    terms: &[Term],
) -> Result<Vec<(i32, usize)>, AllocError>
    requires { AllByRecursion (IsTermOf (length store.now.doms)) terms.now }
    ensures { IfOk result (λ v. AreEntriesOf terms.now store.now.doms v.items) }
{
    let mut entries = Vec::with_capacity(alloc, terms.len())?;
    for (place, term) in terms.iter().enumerate() {
        if let Some(value) = value_of(store, *term) {
            entries.push((value, place))?;
        }
    }
    entries.sort_unstable();
    Ok(entries)
}

/// Whether each number is above the one before it.
fn are_rising(entries: &[(i32, usize)]) -> bool
    ensures { IsTrue result → AreRising entries.now }
{
    for next in 1..entries.len() {
        if entries[next - 1].0 >= entries[next].0 {
            return false;
        }
    }
    true
}

/// Which places are fixed.
fn fixed_places(alloc: Global, store: &Store, terms: &[Term]) -> Result<Vec<bool>, AllocError>
    requires { AllByRecursion (IsTermOf (length store.now.doms)) terms.now }
    ensures size { IfOk result (λ v. length v.items ≡ length terms.now) }
    ensures fixed { IfOk result (λ v. (i : ℕ) → IsDone v.items i
        ↔ IsFixedPlace terms.now store.now.doms i) }
{
    let mut done = Vec::with_capacity(alloc, terms.len())?;
    for term in terms {
        done.push(value_of(store, *term).is_some())?;
    }
    Ok(done)
}

/// Keeps the numbers of a term that no entry has; false where it has none.
fn keep_free(store: &mut Store, term: Term, entries: &[(i32, usize)]) -> Result<bool, AllocError>
    requires { IsTermOf (length store.old.doms) term }
    ensures shrinks { Shrinks store.old store.new }
    ensures within { (a : List ℤ) → Within store.old.doms a
        → IsFreeOf entries.now (term_value a term) → Within store.new.doms a }
    ensures outside { IfOk result (λ b. b ≡ true → (n : ℤ)
        → IsInSet (term_set store.new.doms term) n → IsFreeOf entries.now n) }
    ensures failed { IfOk result (λ b. b ≡ false → (a : List ℤ) → Within store.old.doms a
        → IsFreeOf entries.now (term_value a term) → ⊥) }
{
    for entry in entries {
        if let Change::Wiped = remove_from(store, term, entry.0)? {
            return Ok(false);
        }
    }
    Ok(true)
}
