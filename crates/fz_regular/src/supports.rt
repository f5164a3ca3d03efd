//! The symbols at each place that stand in a list which is accepted.
ghost use Rattle.std.specs.Prelude.{◌≡◌, ◌<◌, ◌≤◌, ◌/◌, ◌*◌, ◌↔◌, ℕ, ℤ, List, length, IfOk, IsNone, IfSome};
ghost use Rattle.std.specs.List.{AllByRecursion};
ghost use Rattle.fz_sets.specs.Sets.{IsInSet};
ghost use Rattle.fz_strength.specs.Domains.{term_set, IsTermOf};
ghost use Rattle.fz_strength.specs.Regular.{IsLeftWord};
ghost use Rattle.fz_regular.specs.BitRows.{Has, HasRow};
ghost use Rattle.fz_regular.specs.Layers.{HasRows};
ghost use Rattle.fz_regular.specs.Runs.{AllowsLeft, AreInWords, IsAccepting, IsOnTheWay, IsReached, number};

use crate::backward::{keep_accepting, retreat};
use crate::bit_rows::BitRows;
use crate::forward::reach;
use crate::started::Started;
use fz_prop::Store;
use fz_prop::terms::word_of;
use fz_spec::term::Term;
use std::alloc::{AllocError, Global};

/// The symbols at each place that stand in a list within the domains which is accepted; `None` where there is no such list.
///
/// # Errors
/// `AllocError` where there is no memory.
pub fn supports_of(
    alloc: Global,
    store: &Store,
    terms: &[Term],
    automaton: &Started<'_>,
) -> Result<Option<BitRows>, AllocError>
    requires { AllByRecursion (IsTermOf (length store.now.doms)) terms.now }
    ensures none { IfOk result (λ o. IsNone o → (word : List ℤ)
        → IsLeftWord automaton.now terms.now store.now.doms word → ⊥) }
    ensures rows { IfOk result (λ o. IfSome o (λ b. HasRows b (length terms.now))) }
    ensures some { IfOk result (λ o. IfSome o (λ b. (word : List ℤ)
        × IsLeftWord automaton.now terms.now store.now.doms word)) }
    ensures supports { IfOk result (λ o. IfSome o (λ b. AreInWords automaton.now terms.now store.now.doms b)) }
{
    let values = symbols_of(alloc, store, terms, automaton)?;
    on_the_way(alloc, terms, automaton, &values)
}

/// The symbols at each place that are on the way to an accepting state; `None` where none is reached.
fn on_the_way(
    alloc: Global,
    terms: &[Term],
    automaton: &Started<'_>,
    values: &BitRows,
) -> Result<Option<BitRows>, AllocError>
    requires { HasRows values.now (length terms.now) }
    ensures none { IfOk result (λ o. IsNone o → (p : ℕ)
        → IsReached automaton.now (Has values.now) (length terms.now) p → IsAccepting automaton.now p → ⊥) }
    ensures rows { IfOk result (λ o. IfSome o (λ b. HasRows b (length terms.now))) }
    ensures some { IfOk result (λ o. IfSome o (λ b. (p : ℕ)
        × IsReached automaton.now (Has values.now) (length terms.now) p × IsAccepting automaton.now p)) }
    ensures supports { IfOk result (λ o. IfSome o (λ b. (i k : ℕ) → Has b i k
        ↔ ((i < length terms.now) × IsOnTheWay automaton.now (Has values.now) (length terms.now) i k))) }
{
    let places = terms.len();
    let mut layers = BitRows::none(alloc, places + 1, automaton.states())?;
    reach(automaton, values, places, &mut layers);
    keep_accepting(automaton, places, &mut layers);
    if layers.next(places, 0).is_none() {
        return Ok(None);
    }
    let mut supports = values.cleared()?;
    retreat(automaton, values, places, &mut layers, &mut supports);
    Ok(Some(supports))
}

/// The symbols that are left at each place.
///
/// # Errors
/// `AllocError` where there is no memory.
fn symbols_of(
    alloc: Global,
    store: &Store,
    terms: &[Term],
    automaton: &Started<'_>,
) -> Result<BitRows, AllocError>
    requires { AllByRecursion (IsTermOf (length store.now.doms)) terms.now }
    ensures rows { IfOk result (λ b. HasRows b (length terms.now)) }
    ensures left { IfOk result (λ b. AllowsLeft automaton.now terms.now store.now.doms (Has b)) }
{
    let mut values = BitRows::none(alloc, terms.len(), automaton.symbols())?;
    for (place, term) in terms.iter().enumerate() {
        fill(store, *term, place, &mut values);
    }
    Ok(values)
}

/// Fills a row with the symbols that are left of a term.
fn fill(store: &Store, term: Term, row: usize, values: &mut BitRows)
    requires term { IsTermOf (length store.now.doms) term }
    requires row { HasRow values.old row }
    requires width { values.old.width ≤ 33554432 }
    ensures row { (k : ℕ) → k / 64 < values.old.width → Has values.new row k
        ↔ IsInSet (term_set store.now.doms term) (number k) }
    ensures others { (i k : ℕ) → (i ≡ row → ⊥) → Has values.new i k ↔ Has values.old i k }
    ensures width { values.new.width ≡ values.old.width }
    ensures size { length values.new.words.items ≡ length values.old.words.items }
{
    for place in 0..values.width {
        let bits = word_of(store, term, first_number(place));
        values.set_word(row, place, bits);
    }
}

/// The number of the first symbol of a word.
fn first_number(place: usize) -> i32
    requires { place < 33554432 }
    ensures { result ≡ number (place * 64) }
{
    (place * 64 + 1) as i32
}
