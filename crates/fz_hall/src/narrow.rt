//! Narrowing a store so that terms are all different, by the intervals that they fill.
ghost use Rattle.std.specs.Prelude.{◌≡◌, length, pos, negsuc, ◌+ℤ◌, ◌-ℤ◌, ◌≤ℤ◌, ◌<ℤ◌, IfOk};
ghost use Rattle.std.specs.List.{AllByRecursion};
ghost use Rattle.fz_strength.specs.Differences.{AreSpread, IsClear, IsSpread};
ghost use Rattle.fz_prop.specs.Answers.{IsAnswerOf, IsCorrectOf};
ghost use Rattle.fz_prop.specs.Outcomes.{IsOutcome};
ghost use Rattle.fz_strength.specs.Domains.{IsTermOf};
ghost use Rattle.fz_prop.specs.Stores.{Shrinks};
ghost use Rattle.fz_alldiff.specs.Differing.{IsDifferent};
ghost use Rattle.fz_hall.specs.Intervals.{IsFull, IsKeptOut};
ghost use Rattle.fz_hall.specs.Lefts.{IfSame};

use crate::close::crossed_interval;
use crate::counts::{is_close, span_of};
use crate::crossed::crossed_intervals;
use crate::interval::{Interval, count_confined, ends_of};
use crate::lefts::lefts_of;
use crate::scan::keep_all;
use fz_prop::terms::{keep_from, keep_to};
use fz_prop::{Answer, Change, Store};
use fz_spec::term::Term;
use std::alloc::{AllocError, Global};

/// Narrows a store so that terms are all different, by the intervals that some of them fill.
///
/// # Errors
/// `AllocError` where there is no memory; the store is then narrower, and no assignment is lost.
pub fn keep_intervals(
    alloc: Global,
    store: &mut Store,
    terms: &[Term],
) -> Result<Answer, AllocError>
    requires { AllByRecursion (IsTermOf (length store.old.doms)) terms.now }
    ensures shrinks { Shrinks store.old store.new }
    ensures correct { IsCorrectOf (IsDifferent terms.now) store.old.doms store.new.doms }
    ensures answer { IfOk result
        (λ r. IsAnswerOf r (IsDifferent terms.now) (AreSpread terms.now)
        store.old.doms store.new.doms) }
{
    match keep_filled(alloc, store, terms)? {
        Change::Same => Ok(Answer::Fix),
        Change::Changed => Ok(Answer::NoFix),
        Change::Wiped => Ok(Answer::Failed),
    }
}

/// Narrows a store by intervals that are found to be filled.
fn keep_filled(alloc: Global, store: &mut Store, terms: &[Term]) -> Result<Change, AllocError>
    requires { AllByRecursion (IsTermOf (length store.old.doms)) terms.now }
    ensures shrinks { Shrinks store.old store.new }
    ensures correct { IsCorrectOf (IsDifferent terms.now) store.old.doms store.new.doms }
    ensures outcome { IfOk result
        (λ r. IsOutcome r (IsDifferent terms.now) store.old store.new) }
    ensures spread { IfOk result (λ r. IfSame r (AreSpread terms.now store.new.doms)) }
{
    let _ = store.doms();
    let span = span_of(store, terms);
    if !is_close(terms, span) {
        return keep_far(alloc, store, terms);
    }
    match crossed_interval(store, terms, span) {
        Some(interval) => keep_found(store, terms, &[interval]),
        None => Ok(Change::Same),
    }
}

/// The same, whatever their numbers are.
fn keep_far(alloc: Global, store: &mut Store, terms: &[Term]) -> Result<Change, AllocError>
    requires { AllByRecursion (IsTermOf (length store.old.doms)) terms.now }
    ensures shrinks { Shrinks store.old store.new }
    ensures correct { IsCorrectOf (IsDifferent terms.now) store.old.doms store.new.doms }
    ensures outcome { IfOk result
        (λ r. IsOutcome r (IsDifferent terms.now) store.old store.new) }
    ensures spread { IfOk result (λ r. IfSame r (AreSpread terms.now store.new.doms)) }
{
    let lefts = lefts_of(alloc, store, terms)?;
    match crossed_intervals(alloc, &lefts)? {
        Some(found) => keep_found(store, terms, &found),
        None => Ok(Change::Same),
    }
}

/// Narrows a store by some intervals. Where none of them narrows it, all are looked at.
fn keep_found(
    store: &mut Store,
    terms: &[Term],
    intervals: &[Interval],
) -> Result<Change, AllocError>
    requires { AllByRecursion (IsTermOf (length store.old.doms)) terms.now }
    ensures shrinks { Shrinks store.old store.new }
    ensures correct { IsCorrectOf (IsDifferent terms.now) store.old.doms store.new.doms }
    ensures outcome { IfOk result
        (λ r. IsOutcome r (IsDifferent terms.now) store.old store.new) }
    ensures spread { IfOk result (λ r. IfSame r (AreSpread terms.now store.new.doms)) }
{
    match keep_each(store, terms, intervals)? {
        Change::Same => keep_all(store, terms),
        change => Ok(change),
    }
}

/// Narrows a store by each of some intervals.
fn keep_each(
    store: &mut Store,
    terms: &[Term],
    intervals: &[Interval],
) -> Result<Change, AllocError>
    requires { AllByRecursion (IsTermOf (length store.old.doms)) terms.now }
    ensures shrinks { Shrinks store.old store.new }
    ensures correct { IsCorrectOf (IsDifferent terms.now) store.old.doms store.new.doms }
    ensures outcome { IfOk result
        (λ r. IsOutcome r (IsDifferent terms.now) store.old store.new) }
{
    let mut has_changed = false;
    for left in intervals {
        let change = keep_interval(store, terms, *left)?;
        if let Change::Wiped = change {
            return Ok(Change::Wiped);
        }
        if let Change::Same = change {
            continue;
        }
        has_changed = true;
    }
    if has_changed {
        Ok(Change::Changed)
    } else {
        Ok(Change::Same)
    }
}

/// Narrows a store by an interval that terms fill, or that too many are confined to; where they are fewer than it has numbers,
/// nothing is told.
pub fn keep_interval(
    store: &mut Store,
    terms: &[Term],
    interval: Interval,
) -> Result<Change, AllocError>
    requires { AllByRecursion (IsTermOf (length store.old.doms)) terms.now }
    ensures shrinks { Shrinks store.old store.new }
    ensures correct { IsCorrectOf (IsDifferent terms.now) store.old.doms store.new.doms }
    ensures outcome { IfOk result
        (λ r. IsOutcome r (IsDifferent terms.now) store.old store.new) }
    ensures spread { interval.low ≤ℤ interval.high → IfOk result (λ r. IfSame r
        (IsSpread terms.now store.new.doms interval.low interval.high)) }
{
    let _ = store.doms();
    let count = count_confined(store, terms, interval);
    let size = interval.size();
    if count == 0 || (count as i128) < size {
        return Ok(Change::Same);
    }
    if count as i128 > size {
        return Ok(Change::Wiped);
    }
    keep_others(store, terms, interval)
}

/// Keeps all terms out of an interval but those that fill it.
fn keep_others(store: &mut Store, terms: &[Term], interval: Interval) -> Result<Change, AllocError>
    requires terms { AllByRecursion (IsTermOf (length store.old.doms)) terms.now }
    requires full { IsFull store.old.doms terms.now interval.low interval.high }
    ensures shrinks { Shrinks store.old store.new }
    ensures correct { IsCorrectOf (IsDifferent terms.now) store.old.doms store.new.doms }
    ensures outcome { IfOk result
        (λ r. IsOutcome r (IsDifferent terms.now) store.old store.new) }
    ensures clear { IfOk result (λ r. IfSame r (AllByRecursion
        (IsClear store.new.doms interval.low interval.high) terms.now)) }
{
    let _ = store.doms();
    let mut has_changed = false;
    for term in terms {
        let _ = store.doms();
        let change = keep_out(store, *term, interval)?;
        if let Change::Wiped = change {
            return Ok(Change::Wiped);
        }
        if let Change::Same = change {
            continue;
        }
        has_changed = true;
    }
    if has_changed {
        Ok(Change::Changed)
    } else {
        Ok(Change::Same)
    }
}

/// The number after a number.
fn next(number: i32) -> i32
    requires { number <ℤ pos 2147483647 }
    ensures { result ≡ number +ℤ pos 1 }
{
    number + 1
}

/// The number before a number.
fn previous(number: i32) -> i32
    requires { negsuc 2147483647 <ℤ number }
    ensures { result ≡ number -ℤ pos 1 }
{
    number - 1
}

/// Keeps the ends of a term out of an interval, unless it is confined to it.
fn keep_out(store: &mut Store, term: Term, interval: Interval) -> Result<Change, AllocError>
    requires { IsTermOf (length store.old.doms) term }
    ensures shrinks { Shrinks store.old store.new }
    ensures correct { IsCorrectOf (IsKeptOut store.old.doms term interval.low interval.high)
        store.old.doms store.new.doms }
    ensures outcome { IfOk result
        (λ r. IsOutcome r (IsKeptOut store.old.doms term interval.low interval.high)
        store.old store.new) }
    ensures clear { IfOk result (λ r. IfSame r
        (IsClear store.new.doms interval.low interval.high term)) }
{
    let _ = store.doms();
    let ends = ends_of(store, term);
    if interval.contains(ends) {
        return Ok(Change::Same);
    }
    if interval.has(ends.low) {
        return keep_from(store, term, next(interval.high));
    }
    if interval.has(ends.high) {
        return keep_to(store, term, previous(interval.low));
    }
    Ok(Change::Same)
}
