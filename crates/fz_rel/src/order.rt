//! Terms in order.
ghost use Rattle.std.specs.Prelude.{◌≡◌, ℤ, pos, ◌+ℤ◌, ◌-ℤ◌, ◌≤ℤ◌, List, length, IfOk};
ghost use Rattle.fz_sets.specs.Sets.{IsInSet, IsWithinLimits};
ghost use Rattle.fz_dom.specs.Shape.{least, greatest};
ghost use Rattle.fz_strength.specs.Domains.{term_set, IsTermOf};
ghost use Rattle.fz_prop.specs.Answers.{IsCorrectOf};
ghost use Rattle.fz_prop.specs.Stores.{Shrinks, FitsTerm, IsStore};
ghost use Rattle.fz_rel.specs.Truths.{TruthOf, IsAnswerAs, order_of, gap_of, IsOrdered};

use fz_prop::terms::{greatest_of, keep_from, keep_to, least_of};
use fz_prop::{Answer, Change, Store};
use fz_spec::term::Term;
use std::alloc::AllocError;

/// Narrows a store so that a term is at most another, or below it.
pub fn keep_order(store: &mut Store, strict: bool, x: Term, y: Term) -> Result<Answer, AllocError>
    requires x { IsTermOf (length store.old.doms) x }
    requires y { IsTermOf (length store.old.doms) y }
    requires fits_x { FitsTerm x }
    requires fits_y { FitsTerm y }
    ensures shrinks { Shrinks store.old store.new }
    ensures correct { IsCorrectOf (TruthOf (order_of strict) x y) store.old.doms store.new.doms }
    ensures answer { IfOk result
        (λ r. IsAnswerAs (order_of strict) x y r store.old.doms store.new.doms) }
{
    let highest = highest_before(store, strict, y);
    match keep_to(store, x, highest)? {
        Change::Wiped => Ok(Answer::Failed),
        Change::Changed => Ok(Answer::NoFix),
        Change::Same => keep_behind(store, strict, x, y),
    }
}

/// Narrows by the order of two terms, where the first one's numbers are in order with the greatest of the second.
fn keep_behind(store: &mut Store, strict: bool, x: Term, y: Term) -> Result<Answer, AllocError>
    requires x { IsTermOf (length store.old.doms) x }
    requires y { IsTermOf (length store.old.doms) y }
    requires fits_x { FitsTerm x }
    requires fits_y { FitsTerm y }
    requires highs { IsOrdered strict
        (greatest (term_set store.old.doms x)) (greatest (term_set store.old.doms y)) }
    ensures shrinks { Shrinks store.old store.new }
    ensures correct { IsCorrectOf (TruthOf (order_of strict) x y) store.old.doms store.new.doms }
    ensures answer { IfOk result
        (λ r. IsAnswerAs (order_of strict) x y r store.old.doms store.new.doms) }
{
    let lowest = lowest_behind(store, strict, x);
    match keep_from(store, y, lowest)? {
        Change::Wiped => Ok(Answer::Failed),
        Change::Changed => Ok(Answer::NoFix),
        Change::Same => Ok(ordered(store, strict, x, y)),
    }
}

/// What is known of two terms whose ends are in order.
fn ordered(store: &Store, strict: bool, x: Term, y: Term) -> Answer
    requires x { IsTermOf (length store.now.doms) x }
    requires y { IsTermOf (length store.now.doms) y }
    requires fits_x { FitsTerm x }
    requires highs { IsOrdered strict
        (greatest (term_set store.now.doms x)) (greatest (term_set store.now.doms y)) }
    requires lows { IsOrdered strict
        (least (term_set store.now.doms x)) (least (term_set store.now.doms y)) }
    ensures { IsAnswerAs (order_of strict) x y result store.now.doms store.now.doms }
{
    if behind(greatest_of(store, x), strict) <= least_of(store, y) {
        Answer::Subsumed
    } else {
        Answer::Fix
    }
}

/// The greatest number in order with some number of a term.
fn highest_before(store: &Store, strict: bool, y: Term) -> i32
    requires y { IsTermOf (length store.now.doms) y }
    requires fits_y { FitsTerm y }
    ensures greatest { result ≡ greatest (term_set store.now.doms y) -ℤ gap_of strict }
    ensures upper_bound { (z : ℤ) → IsInSet (term_set store.now.doms y) z
        → z ≤ℤ greatest (term_set store.now.doms y) }
    ensures store { IsStore store.now }
{
    let _ = store.doms();
    before(greatest_of(store, y), strict)
}

/// The least number in order with some number of a term.
fn lowest_behind(store: &Store, strict: bool, x: Term) -> i32
    requires x { IsTermOf (length store.now.doms) x }
    requires fits_x { FitsTerm x }
    ensures least { result ≡ least (term_set store.now.doms x) +ℤ gap_of strict }
    ensures lower_bound { (z : ℤ) → IsInSet (term_set store.now.doms x) z
        → least (term_set store.now.doms x) ≤ℤ z }
    ensures store { IsStore store.now }
{
    let _ = store.doms();
    behind(least_of(store, x), strict)
}

/// The greatest number in order with one after it.
fn before(value: i32, strict: bool) -> i32
    requires { IsWithinLimits value }
    ensures { result ≡ value -ℤ gap_of strict }
{
    if strict { value - 1 } else { value }
}

/// The least number in order with one before it.
fn behind(value: i32, strict: bool) -> i32
    requires { IsWithinLimits value }
    ensures { result ≡ value +ℤ gap_of strict }
{
    if strict { value + 1 } else { value }
}
