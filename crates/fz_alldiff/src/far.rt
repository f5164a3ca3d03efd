//! Terms whose numbers lie far apart: the number of each fixed place leaves the others one by one.
ghost use Rattle.std.specs.Prelude.{◌≡◌, ◌≢◌, ◌<◌, true, false, ℕ, List, length, IfOk, OnErr, IsNone, IfSome, IsTrue};
ghost use Rattle.std.specs.List.{AllByRecursion};
ghost use Rattle.fz_strength.specs.Differences.{AreApart};
ghost use Rattle.fz_prop.specs.Answers.{IsAnswerOf, IsCorrectOf};
ghost use Rattle.fz_strength.specs.Domains.{IsTermOf};
ghost use Rattle.fz_prop.specs.Stores.{Shrinks, IsTermChange};
ghost use Rattle.fz_alldiff.specs.Differing.{IsDifferent, AreNeverDifferent, IsFixedPlace, IsOnlyAt, IsDone, IsCleared, AreCleared, IsOutside};

use crate::settled::settle;
use fz_prop::terms::{has, least_of, remove, value_of};
use fz_prop::{Answer, Change, Store};
use fz_spec::term::Term;
use std::alloc::{AllocError, Global};

/// Narrows a store so that terms are all different: the number of each place that is fixed leaves the others, until no place
/// gets fixed anew.
pub fn keep_each(alloc: Global, store: &mut Store, terms: &[Term]) -> Result<Answer, AllocError>
    requires { AllByRecursion (IsTermOf (length store.old.doms)) terms.now }
    ensures shrinks { Shrinks store.old store.new }
    ensures correct { IsCorrectOf (IsDifferent terms.now) store.old.doms store.new.doms }
    ensures answer { IfOk result
        (λ r. IsAnswerOf r (IsDifferent terms.now) (AreApart terms.now)
        store.old.doms store.new.doms) }
{
    let _ = store.doms();
    match settle(alloc, store, terms)? {
        Some(done) => keep_rest(store, terms, done),
        None => Ok(Answer::Failed),
    }
}

/// Narrows a store so that terms are all different, where some of the places that are fixed are done: the number of each that isn't leaves
/// the others, until no place gets fixed anew.
fn keep_rest(store: &mut Store, terms: &[Term], done: Vec<bool>) -> Result<Answer, AllocError>
    requires terms { AllByRecursion (IsTermOf (length store.old.doms)) terms.now }
    requires size { length done.items ≡ length terms.now }
    requires cleared { AreCleared terms.now store.old.doms done.items }
    ensures shrinks { Shrinks store.old store.new }
    ensures correct { IsCorrectOf (IsDifferent terms.now) store.old.doms store.new.doms }
    ensures answer { IfOk result
        (λ r. IsAnswerOf r (IsDifferent terms.now) (AreApart terms.now)
        store.old.doms store.new.doms) }
{
    let _ = store.doms();
    let mut done = done;
    'places: while let Some(place) = next_fixed(store, terms, &done) {
        if !clear(store, terms, place, &done)? {
            return Ok(Answer::Failed);
        }
        done[place] = true;
        let _ = store.doms();
    }
    Ok(Answer::rested(are_all_done(&done)))
}

/// The first place that is fixed and not done.
fn next_fixed(store: &Store, terms: &[Term], done: &[bool]) -> Option<usize>
    requires terms { AllByRecursion (IsTermOf (length store.now.doms)) terms.now }
    requires size { length done.now ≡ length terms.now }
    ensures none { IsNone result
        → (i : ℕ) → IsFixedPlace terms.now store.now.doms i → IsDone done.now i }
    ensures inside { IfSome result (λ i. i < length terms.now) }
    ensures fixed { IfSome result (λ i. IsFixedPlace terms.now store.now.doms i) }
    ensures undone { IfSome result (λ i. IsDone done.now i → ⊥) }
{
    for (place, term) in terms.iter().enumerate() {
        if !done[place] && value_of(store, *term).is_some() {
            return Some(place);
        }
    }
    None
}

/// Removes the number of a fixed place from all others; false where one of them has no other number. Those that are done have
/// another already.
fn clear(store: &mut Store, terms: &[Term], place: usize, done: &[bool]) -> Result<bool, AllocError>
    requires terms { AllByRecursion (IsTermOf (length store.old.doms)) terms.now }
    requires size { length done.now ≡ length terms.now }
    requires inside { place < length terms.now }
    requires fixed { IsFixedPlace terms.now store.old.doms place }
    requires cleared { AreCleared terms.now store.old.doms done.now }
    ensures shrinks { Shrinks store.old store.new }
    ensures correct { IsCorrectOf (IsDifferent terms.now) store.old.doms store.new.doms }
    ensures cleared { IfOk result (λ b. b ≡ true → IsCleared terms.now store.new.doms place) }
    ensures failed { IfOk result (λ b. b ≡ false → AreNeverDifferent terms.now store.old.doms) }
{
    let value = least_of(store, terms[place]);
    let left = remove_others(store, terms, place, value, done)?;
    let _ = store.doms();
    Ok(left)
}

/// Removes the number of a fixed place from all others that aren't done; false where one of them has no other number.
fn remove_others(
    store: &mut Store,
    terms: &[Term],
    place: usize,
    value: i32,
    done: &[bool],
) -> Result<bool, AllocError>
    requires terms { AllByRecursion (IsTermOf (length store.old.doms)) terms.now }
    requires size { length done.now ≡ length terms.now }
    requires only { IsOnlyAt terms.now store.old.doms place value }
    ensures shrinks { Shrinks store.old store.new }
    ensures correct { IsCorrectOf (IsDifferent terms.now) store.old.doms store.new.doms }
    ensures outside { IfOk result
        (λ b. b ≡ true → IsOutside terms.now store.new.doms done.now value place) }
    ensures failed { IfOk result (λ b. b ≡ false → AreNeverDifferent terms.now store.old.doms) }
{
    for (other, term) in terms.iter().enumerate() {
        if other == place || done[other] {
            continue;
        }
        if let Change::Wiped = remove_from(store, *term, value)? {
            return Ok(false);
        }
    }
    Ok(true)
}

/// Removes a number of a term, if it is left.
pub(crate) fn remove_from(store: &mut Store, term: Term, value: i32) -> Result<Change, AllocError>
    requires { IsTermOf (length store.old.doms) term }
    ensures shrinks { Shrinks store.old store.new }
    ensures err { OnErr result (store.new ≡ store.old) }
    ensures change { IfOk result (λ r. IsTermChange r term (λ x. x ≢ value) store.old store.new) }
{
    if has(store, term, value) {
        remove(store, term, value)
    } else {
        Ok(Change::Same)
    }
}

/// Whether all places are done.
fn are_all_done(done: &[bool]) -> bool
    ensures { IsTrue result → (i : ℕ) → i < length done.now → IsDone done.now i }
{
    done.iter().all(|place| *place)
}
