//! Keeping each term to the numbers that stand at its place of the rows that are left.
ghost use Rattle.std.specs.Prelude.{◌≡◌, ◌<◌, ◌/◌, ℕ, length, IfOk, OnErr, IsTrue};
ghost use Rattle.std.specs.List.{AllByRecursion};
ghost use Rattle.fz_strength.specs.Tables.{AreSupported};
ghost use Rattle.fz_prop.specs.Answers.{IsAnswerOf, IsCorrectOf};
ghost use Rattle.fz_strength.specs.Domains.{IsTermOf};
ghost use Rattle.fz_prop.specs.Stores.{Shrinks, IsChangeAt};
ghost use Rattle.fz_bits.specs.Members.{HasMember, words_for};
ghost use Rattle.fz_column.specs.Supports.{AreSized, StandsIn, AreColumnsOf};
ghost use Rattle.fz_column.specs.Apart.{AreApart};
ghost use Rattle.fz_table.specs.Rows.{IsRowAt, AreLeft};

use crate::rows::find_left;
use fz_column::Column;
use fz_column::row_set::is_empty;
use fz_dom::Dom;
use fz_prop::terms::are_fixed;
use fz_prop::{Answer, Change, Store};
use fz_spec::term::Term;
use std::alloc::{AllocError, Global};

/// Sets of rows of that many words stand on the stack.
const NEAR: usize = 16;

/// Narrows a store so that the values of terms are a row of a table: each term keeps the numbers that stand at its place of a row
/// that lies in the domains. Where no variable stands at two places these rows still lie in what is left, and it rests at once.
pub fn keep_rows(
    alloc: Global,
    store: &mut Store,
    terms: &[Term],
    table: &[i32],
    columns: &[Column],
    differ: bool,
) -> Result<Answer, AllocError>
    requires terms { AllByRecursion (IsTermOf (length store.old.doms)) terms.now }
    requires differ { IsTrue differ → AreApart terms.now }
    requires columns { AreColumnsOf table.now (length terms.now) columns.now }
    ensures shrinks { Shrinks store.old store.new }
    ensures correct { IsCorrectOf (IsRowAt terms.now table.now) store.old.doms store.new.doms }
    ensures answer { IfOk result
        (λ r. IsAnswerOf r (IsRowAt terms.now table.now) (AreSupported terms.now table.now)
        store.old.doms store.new.doms) }
{
    if terms.is_empty() {
        return Ok(Answer::Failed);
    }
    let size = table.len() / terms.len() / 64 + 1;
    if size <= NEAR {
        let mut left = [0; NEAR];
        let mut found = [0; NEAR];
        let left = &mut left[..size];
        let found = &mut found[..size];
        return keep_found(alloc, store, terms, table, columns, differ, left, found);
    }
    let mut left = Vec::from_elem(alloc, 0, size)?;
    let mut found = Vec::from_elem(alloc, 0, size)?;
    keep_found(
        alloc, store, terms, table, columns, differ, &mut left, &mut found,
    )
}

/// Finds the rows that lie in the domains, and keeps each term to the numbers of these.
fn keep_found(
    alloc: Global,
    store: &mut Store,
    terms: &[Term],
    table: &[i32],
    columns: &[Column],
    differ: bool,
    left: &mut [u64],
    found: &mut [u64],
) -> Result<Answer, AllocError>
    requires terms { AllByRecursion (IsTermOf (length store.old.doms)) terms.now }
    requires some { 0 < length terms.now }
    requires columns { AreColumnsOf table.now (length terms.now) columns.now }
    requires differ { IsTrue differ → AreApart terms.now }
    requires size { length left.old ≡ words_for (length table.now / length terms.now) }
    requires found { length found.old ≡ length left.old }
    ensures shrinks { Shrinks store.old store.new }
    ensures correct { IsCorrectOf (IsRowAt terms.now table.now) store.old.doms store.new.doms }
    ensures answer { IfOk result
        (λ r. IsAnswerOf r (IsRowAt terms.now table.now) (AreSupported terms.now table.now)
        store.old.doms store.new.doms) }
{
    find_left(store, terms, table, columns, left, found);
    if is_empty(left) {
        return Ok(Answer::Failed);
    }
    if are_fixed(store, terms) {
        return Ok(Answer::Subsumed);
    }
    keep_columns(alloc, store, terms, table, columns, left, differ)
}

/// Keeps each variable to the numbers that stand at its place of the rows that are left: one that was fixed has its number there.
fn keep_columns(
    alloc: Global,
    store: &mut Store,
    terms: &[Term],
    table: &[i32],
    columns: &[Column],
    rows: &[u64],
    differ: bool,
) -> Result<Answer, AllocError>
    requires terms { AllByRecursion (IsTermOf (length store.old.doms)) terms.now }
    requires columns { AreColumnsOf table.now (length terms.now) columns.now }
    requires differ { IsTrue differ → AreApart terms.now }
    requires rows { AreLeft terms.now table.now store.old.doms rows.now }
    requires size { length rows.now ≡ words_for (length table.now / length terms.now) }
    requires some { (i : ℕ) × HasMember rows.now i }
    ensures shrinks { Shrinks store.old store.new }
    ensures correct { IsCorrectOf (IsRowAt terms.now table.now) store.old.doms store.new.doms }
    ensures answer { IfOk result
        (λ r. IsAnswerOf r (IsRowAt terms.now table.now) (AreSupported terms.now table.now)
        store.old.doms store.new.doms) }
{
    let _ = store.doms();
    let _ = table;
    let mut has_changed = false;
    for (place, term) in terms.iter().enumerate() {
        let Term::Var(variable) = *term else {
            continue;
        };
        if !has_changed && store.dom(variable).is_fixed() {
            continue;
        }
        match keep_column(alloc, store, variable, &columns[place], rows)? {
            Change::Wiped => return Ok(Answer::Failed),
            Change::Changed => has_changed = true,
            Change::Same => {}
        }
    }
    if has_changed && !differ {
        Ok(Answer::NoFix)
    } else {
        Ok(Answer::Fix)
    }
}

/// Keeps a variable to the numbers of a column that some rows have.
fn keep_column(
    alloc: Global,
    store: &mut Store,
    variable: u32,
    column: &Column,
    rows: &[u64],
) -> Result<Change, AllocError>
    requires variable { variable < length store.old.doms }
    requires sized { AreSized column.now (length rows.now) }
    ensures shrinks { Shrinks store.old store.new }
    ensures err { OnErr result (store.new ≡ store.old) }
    ensures change { IfOk result
        (λ r. IsChangeAt r variable (StandsIn column.now rows.now) store.old store.new) }
{
    if let Some(numbers) = column.numbers_left(store, variable, rows) {
        return store.keep_window(variable, numbers);
    }
    let dom = store.dom(variable);
    if column.has_all(dom.min(), dom.max(), rows) {
        return Ok(Change::Same);
    }
    let numbers = column.numbers_in(alloc, store.dom(variable), rows)?;
    if numbers.are(store.dom(variable)) {
        return Ok(Change::Same);
    }
    let numbers = Dom::from_ranges(alloc, numbers.as_slice())?;
    store.keep(variable, &numbers)
}
