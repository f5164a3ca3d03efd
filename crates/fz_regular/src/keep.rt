//! Keeping each term to the numbers that stand at its place of a list which is accepted.
ghost use Rattle.std.specs.Prelude.{◌≡◌, ◌↔◌, ◌≤◌, ℕ, ℤ, List, drop, length, IfOk, OnErr, IsTrue};
ghost use Rattle.std.specs.List.{AllByRecursion};
ghost use Rattle.fz_sets.specs.Sets.{IsInSet, IsWithinLimits};
ghost use Rattle.fz_strength.specs.Domains.{IsTermOf};
ghost use Rattle.fz_strength.specs.Regular.{IsLeftWord, IsRegularLine};
ghost use Rattle.fz_prop.specs.Answers.{IsAnswerOf, IsCorrectOf};
ghost use Rattle.fz_prop.specs.Stores.{FitsTerm, Shrinks, IsTermChange};
ghost use Rattle.fz_column.specs.Apart.{AreApart};
ghost use Rattle.fz_regular.specs.BitRows.{Has, HasRow};
ghost use Rattle.fz_regular.specs.Layers.{HasRows};
ghost use Rattle.fz_regular.specs.Runs.{AreInWords, IsAcceptedAt, IsInRow, number};

use crate::automaton::Automaton;
use crate::bit_rows::BitRows;
use crate::front::front_of;
use crate::started::Started;
use crate::supports::supports_of;
use fz_bits::Window;
use fz_dom::Dom;
use fz_prop::terms::{are_fixed, keep_in, keep_window};
use fz_prop::{Answer, Change, Store};
use fz_spec::term::Term;
use std::alloc::{AllocError, Global};

/// Narrows a store so that an automaton accepts terms: each keeps the numbers that stand at its place of a list within the domains
/// which is accepted. Terms at the front that are fixed are passed over, by the state behind them.
///
/// # Errors
/// `AllocError` where there is no memory; the store is then narrower, and no assignment is lost.
pub fn keep_accepted(
    alloc: Global,
    store: &mut Store,
    terms: &[Term],
    automaton: &Automaton,
    differ: bool,
) -> Result<Answer, AllocError>
    requires terms { AllByRecursion (IsTermOf (length store.old.doms)) terms.now }
    requires fits { AllByRecursion FitsTerm terms.now }
    requires differ { IsTrue differ → AreApart terms.now }
    ensures shrinks { Shrinks store.old store.new }
    ensures correct { IsCorrectOf (IsAcceptedAt automaton.now terms.now) store.old.doms store.new.doms }
    ensures answer { IfOk result (λ r. IsAnswerOf r (IsAcceptedAt automaton.now terms.now)
        (IsRegularLine automaton.now terms.now) store.old.doms store.new.doms) }
{
    let Some(front) = front_of(store, terms, automaton) else {
        return Ok(Answer::Failed);
    };
    let rest = terms_behind(terms, front.places);
    let started = Started::at(automaton, front.state);
    let answer = keep_rest(alloc, store, rest, &started, differ);
    let _ = store.doms();
    answer
}

/// The terms after that many.
fn terms_behind(terms: &[Term], front: usize) -> &[Term]
    requires { front ≤ length terms.now }
    ensures { result.now ≡ drop front terms.now }
{
    &terms[front..]
}

/// Narrows a store so that an automaton accepts terms, as `keep_accepted` does. Where no variable stands at two places the lists within
/// the domains that are accepted still lie in what is left, and it rests at once.
fn keep_rest(
    alloc: Global,
    store: &mut Store,
    terms: &[Term],
    automaton: &Started<'_>,
    differ: bool,
) -> Result<Answer, AllocError>
    requires terms { AllByRecursion (IsTermOf (length store.old.doms)) terms.now }
    requires fits { AllByRecursion FitsTerm terms.now }
    requires differ { IsTrue differ → AreApart terms.now }
    ensures shrinks { Shrinks store.old store.new }
    ensures correct { IsCorrectOf (IsAcceptedAt automaton.now terms.now) store.old.doms store.new.doms }
    ensures answer { IfOk result (λ r. IsAnswerOf r (IsAcceptedAt automaton.now terms.now)
        (IsRegularLine automaton.now terms.now) store.old.doms store.new.doms) }
{
    let _ = store.doms();
    let Some(supports) = supports_of(alloc, store, terms, automaton)? else {
        return Ok(Answer::Failed);
    };
    if are_fixed(store, terms) {
        return Ok(Answer::Subsumed);
    }
    keep_supported(alloc, store, terms, automaton, &supports, differ)
}

/// Keeps each term to the numbers in the row of its place.
fn keep_supported(
    alloc: Global,
    store: &mut Store,
    terms: &[Term],
    automaton: &Started<'_>,
    supports: &BitRows,
    differ: bool,
) -> Result<Answer, AllocError>
    requires terms { AllByRecursion (IsTermOf (length store.old.doms)) terms.now }
    requires fits { AllByRecursion FitsTerm terms.now }
    requires differ { IsTrue differ → AreApart terms.now }
    requires rows { HasRows supports.now (length terms.now) }
    requires supports { AreInWords automaton.now terms.now store.old.doms supports.now }
    requires some { (word : List ℤ) × IsLeftWord automaton.now terms.now store.old.doms word }
    ensures shrinks { Shrinks store.old store.new }
    ensures correct { IsCorrectOf (IsAcceptedAt automaton.now terms.now) store.old.doms store.new.doms }
    ensures answer { IfOk result (λ r. IsAnswerOf r (IsAcceptedAt automaton.now terms.now)
        (IsRegularLine automaton.now terms.now) store.old.doms store.new.doms) }
{
    let _ = store.doms();
    let _ = automaton;
    let mut has_changed = false;
    for (place, term) in terms.iter().enumerate() {
        match keep_row(alloc, store, *term, supports, place)? {
            Change::Wiped => return Ok(Answer::Failed),
            Change::Changed => has_changed = true,
            Change::Same => {}
        }
    }
    if has_changed && !differ {
        Ok(Answer::NoFix)
    } else {
        Ok(Answer::Fix)
    }
}

/// Keeps a term to the numbers in a row.
fn keep_row(
    alloc: Global,
    store: &mut Store,
    term: Term,
    supports: &BitRows,
    row: usize,
) -> Result<Change, AllocError>
    requires term { IsTermOf (length store.old.doms) term }
    requires row { HasRow supports.now row }
    requires limits { (k : ℕ) → Has supports.now row k → IsWithinLimits (number k) }
    ensures shrinks { Shrinks store.old store.new }
    ensures err { OnErr result (store.new ≡ store.old) }
    ensures change { IfOk result (λ r. IsTermChange r term (IsInRow supports.now row) store.old store.new) }
{
    if supports.width == 1 {
        let bits = supports.word(row, 0);
        return keep_window(store, term, Window { base: 1, bits });
    }
    let numbers = numbers_of(alloc, supports, row)?;
    keep_in(store, term, &numbers)
}

/// The numbers in a row.
///
/// # Errors
/// `AllocError` where there is no memory.
fn numbers_of(alloc: Global, supports: &BitRows, row: usize) -> Result<Dom, AllocError>
    requires row { HasRow supports.now row }
    requires limits { (k : ℕ) → Has supports.now row k → IsWithinLimits (number k) }
    ensures { IfOk result (λ d. (n : ℤ) → IsInSet d n ↔ IsInRow supports.now row n) }
{
    let mut ranges = Vec::new(alloc);
    let mut from = 0;
    'symbols: while let Some(symbol) = supports.next(row, from) {
        let number = number_of(symbol);
        ranges.push((number, number))?;
        from = symbol + 1;
    }
    Dom::from_ranges(alloc, &ranges)
}

/// The number of a symbol.
fn number_of(symbol: usize) -> i32
    requires { IsWithinLimits (number symbol) }
    ensures { result ≡ number symbol }
{
    (symbol + 1) as i32
}
