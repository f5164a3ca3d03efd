//! One value and the number of places that have it.
ghost use Rattle.std.specs.Prelude.{◌≡◌, ◌↔◌, ◌≤◌, ℤ, pos, ◌≤ℤ◌, length, IfOk, IsTrue, OnErr};
ghost use Rattle.std.specs.List.{AllByRecursion};
ghost use Rattle.fz_sets.specs.Sets.{IsInSet};
ghost use Rattle.fz_dom.specs.Changes.{IsFromTo};
ghost use Rattle.fz_dom.specs.Shape.{least, greatest};
ghost use Rattle.fz_dom.specs.declared.change.Change.TheVariants as changes;
ghost use Rattle.fz_strength.specs.Counts as line;
ghost use Rattle.fz_strength.specs.Counts.{IsCountLine, IsDecided};
ghost use Rattle.fz_strength.specs.Domains.{term_set, IsTermOf};
ghost use Rattle.fz_prop.specs.Answers.{IsCorrectOf};
ghost use Rattle.fz_prop.specs.Outcomes.{IsOutcome};
ghost use Rattle.fz_prop.specs.Stores.{Shrinks, IsTermChange};
ghost use Rattle.fz_counts.specs.Counting.{IsCount};

use crate::places::{Choice, settle};
use crate::tally::Tally;
use fz_prop::terms::{greatest_of, keep_range, least_of};
use fz_prop::{Change, Store};
use fz_spec::term::Term;
use std::alloc::AllocError;

/// Narrows a store so that a count is the number of the terms that have a value, by the value's tally.
///
/// # Errors
/// `AllocError` where there is no memory; the store is then narrower, and no assignment is lost.
pub fn keep_count(
    store: &mut Store,
    terms: &[Term],
    value: i32,
    count: Term,
    tally: Tally,
) -> Result<Change, AllocError>
    requires terms { AllByRecursion (IsTermOf (length store.old.doms)) terms.now }
    requires count { IsTermOf (length store.old.doms) count }
    requires fewest { tally.fewest ≡ line.fewest terms.now store.old.doms value }
    requires most { tally.most ≡ line.most terms.now store.old.doms value }
    ensures shrinks { Shrinks store.old store.new }
    ensures correct { IsCorrectOf (IsCount terms.now value count) store.old.doms store.new.doms }
    ensures outcome { IfOk result
        (λ r. IsOutcome r (IsCount terms.now value count) store.old store.new) }
    ensures line { IfOk result
        (λ r. r ≡ changes.Same → IsCountLine terms.now store.new.doms value count) }
    ensures between { IfOk result (λ r. (r ≡ changes.Wiped → ⊥)
        → (x : ℤ) → IsInSet (term_set store.new.doms count) x
        → IsFromTo (pos tally.fewest) (pos tally.most) x) }
{
    let _ = store.doms();
    let change = keep_between(store, count, tally)?;
    if let Change::Wiped = change {
        return Ok(Change::Wiped);
    }
    let _ = store.doms();
    match settle_rest(store, terms, value, count, tally)? {
        Change::Same => Ok(change),
        settled => Ok(settled),
    }
}

/// Keeps a count from the fewest places to the most.
fn keep_between(store: &mut Store, count: Term, tally: Tally) -> Result<Change, AllocError>
    requires { IsTermOf (length store.old.doms) count }
    ensures shrinks { Shrinks store.old store.new }
    ensures err { OnErr result (store.new ≡ store.old) }
    ensures change { IfOk result (λ r.
        IsTermChange r count (λ x. IsFromTo (pos tally.fewest) (pos tally.most) x)
        store.old store.new) }
{
    let greatest = greatest_of(store, count);
    match i32::try_from(tally.fewest) {
        Ok(fewest) => keep_range(store, count, fewest, number_or(tally.most, greatest)),
        Err(_) => Ok(Change::Wiped),
    }
}

/// How many places, or a number that is no more, where 32 bits don't count them.
fn number_or(places: usize, number: i32) -> i32
    ensures { (x : ℤ) → x ≤ℤ number → (x ≤ℤ result) ↔ (x ≤ℤ pos places) }
{
    match i32::try_from(places) {
        Ok(places) => places,
        Err(_) => number,
    }
}

/// Lets the places that may have a value and needn't go without it, where the count is the fewest places at most, or with it, where it
/// is the most at least.
fn settle_rest(
    store: &mut Store,
    terms: &[Term],
    value: i32,
    count: Term,
    tally: Tally,
) -> Result<Change, AllocError>
    requires terms { AllByRecursion (IsTermOf (length store.old.doms)) terms.now }
    requires count { IsTermOf (length store.old.doms) count }
    requires fewest { tally.fewest ≤ line.fewest terms.now store.old.doms value }
    requires most { line.most terms.now store.old.doms value ≤ tally.most }
    ensures shrinks { Shrinks store.old store.new }
    ensures correct { IsCorrectOf (IsCount terms.now value count) store.old.doms store.new.doms }
    ensures outcome { IfOk result
        (λ r. IsOutcome r (IsCount terms.now value count) store.old store.new) }
    ensures full { IfOk result (λ r. r ≡ changes.Same
        → greatest (term_set store.new.doms count) ≡ pos tally.fewest
        → IsDecided terms.now store.new.doms value) }
    ensures needed { IfOk result (λ r. r ≡ changes.Same
        → least (term_set store.new.doms count) ≡ pos tally.most
        → IsDecided terms.now store.new.doms value) }
{
    let _ = store.doms();
    if tally.fewest == tally.most {
        return Ok(Change::Same);
    }
    if is_number(greatest_of(store, count), tally.fewest) {
        return settle(store, terms, value, Choice::Without);
    }
    if is_number(least_of(store, count), tally.most) {
        return settle(store, terms, value, Choice::With);
    }
    Ok(Change::Same)
}

/// Whether a number is that of so many places.
fn is_number(number: i32, places: usize) -> bool
    ensures { IsTrue result ↔ (number ≡ pos places) }
{
    i128::from(number) == places as i128
}
