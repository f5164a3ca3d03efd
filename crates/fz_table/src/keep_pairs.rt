//! Keeping the numbers of two terms that have a partner in the other.
ghost use Rattle.std.specs.Prelude.{◌≡◌, ◌↔◌, ◌⊎◌, [], ◌∷◌, length, IfOk, IsTrue};
ghost use Rattle.fz_dom.specs.declared.change.Change.TheVariants as changes;
ghost use Rattle.fz_strength.specs.Events.{IsFixedIn};
ghost use Rattle.fz_strength.specs.Tables.{AreSupported};
ghost use Rattle.fz_prop.specs.Answers.{IsAnswerOf, IsCorrectOf};
ghost use Rattle.fz_strength.specs.Domains.{IsTermOf};
ghost use Rattle.fz_prop.specs.Stores.{Shrinks};
ghost use Rattle.fz_table.specs.Partners.{ArePairsOf};
ghost use Rattle.fz_table.specs.Lefts.{AreLeftOf};
ghost use Rattle.fz_table.specs.Rows.{IsRowAt};

use crate::pairs::Pairs;
use fz_bits::Window;
use fz_prop::matching::related;
use fz_prop::terms::{keep_window, value_of, word_of};
use fz_prop::{Answer, Change, Store};
use fz_spec::term::Term;
use std::alloc::AllocError;

/// What is left of two terms, as far as it is near to the numbers of pairs.
#[derive(Clone, Copy)]
pub struct Left {
    pub first: Window,
    pub second: Window,
}

/// What is left of two terms, as far as it is near to the numbers of pairs.
fn left_of(store: &Store, first: Term, second: Term, pairs: &Pairs) -> Left
    requires first { IsTermOf (length store.now.doms) first }
    requires second { IsTermOf (length store.now.doms) second }
    ensures { AreLeftOf result pairs.now store.now.doms first second }
{
    Left {
        first: Window {
            base: pairs.first,
            bits: word_of(store, first, pairs.first),
        },
        second: Window {
            base: pairs.base,
            bits: word_of(store, second, pairs.base),
        },
    }
}

/// Narrows a store so that the values of two terms are a row of a table: each keeps the numbers that have a partner among what is
/// left of the other. Where one of the two is fixed, nothing else is to be done.
pub fn keep_pairs(
    store: &mut Store,
    first: Term,
    second: Term,
    table: &[i32],
    pairs: &Pairs,
) -> Result<Answer, AllocError>
    requires first { IsTermOf (length store.old.doms) first }
    requires second { IsTermOf (length store.old.doms) second }
    requires pairs { ArePairsOf table.now pairs.now }
    ensures shrinks { Shrinks store.old store.new }
    ensures correct { IsCorrectOf (IsRowAt (first ∷ second ∷ []) table.now)
        store.old.doms store.new.doms }
    ensures answer { IfOk result (λ r. IsAnswerOf r (IsRowAt (first ∷ second ∷ []) table.now)
        (AreSupported (first ∷ second ∷ []) table.now) store.old.doms store.new.doms) }
{
    let _ = table;
    let left = left_of(store, first, second, pairs);
    let kept = related(left.first, left.second, pairs);
    let change = keep_window(store, first, kept.firsts)?;
    if let Change::Wiped = change {
        return Ok(Answer::Failed);
    }
    let other = keep_window(store, second, kept.seconds)?;
    if let Change::Wiped = other {
        return Ok(Answer::Failed);
    }
    let _ = store.doms();
    if has_changed_both(first, second, change, other) {
        return Ok(Answer::NoFix);
    }
    Ok(Answer::rested(is_one_fixed(store, first, second)))
}

/// Whether one number is left of one of two terms.
fn is_one_fixed(store: &Store, first: Term, second: Term) -> bool
    requires first { IsTermOf (length store.now.doms) first }
    requires second { IsTermOf (length store.now.doms) second }
    ensures { IsTrue result → IsFixedIn store.now.doms first ⊎ IsFixedIn store.now.doms second }
{
    match value_of(store, first) {
        Some(_) => true,
        None => value_of(store, second).is_some(),
    }
}

/// Whether both terms are one variable, and it changed.
fn has_changed_both(first: Term, second: Term, change: Change, other: Change) -> bool
    ensures { IsTrue result ↔ ((first ≡ second)
        × ((change ≡ changes.Changed) ⊎ (other ≡ changes.Changed))) }
{
    first == second && (change == Change::Changed || other == Change::Changed)
}
