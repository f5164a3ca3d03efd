//! The states from which it can end, and the symbols on the way.
ghost use Rattle.std.specs.Prelude.{◌≡◌, ◌<◌, ◌/◌, ◌+◌, ◌↔◌, ◌⊎◌, ℕ, length, IsTrue};
ghost use Rattle.fz_spec.specs.Truth.{IsState};
ghost use Rattle.fz_regular.specs.BitRows.{Has, HasRow};
ghost use Rattle.fz_regular.specs.Layers.{HasRows, FitsStates, AreEnding, Leads, LeadsIn, SupportsAt};
ghost use Rattle.fz_regular.specs.Runs.{IsAccepting, IsOnTheWay, number};

use crate::bit_rows::BitRows;
use crate::started::Started;

/// Keeps of the states after the last of that many places those in which it accepts.
pub fn keep_accepting(automaton: &Started<'_>, places: usize, layers: &mut BitRows)
    requires row { HasRow layers.old places }
    requires fits { FitsStates automaton.now layers.old }
    requires states { (p : ℕ) → Has layers.old places p → IsState automaton.now (number p) }
    ensures states { (i p : ℕ) → Has layers.new i p
        ↔ (Has layers.old i p × ((i ≡ places) → IsAccepting automaton.now p)) }
    ensures width { layers.new.width ≡ layers.old.width }
    ensures size { length layers.new.words.items ≡ length layers.old.words.items }
{
    let mut from = 0;
    'states: while let Some(state) = layers.next(places, from) {
        accept(automaton, places, state, layers);
        from = state + 1;
    }
}

/// Takes a state from a row, unless it accepts in it.
fn accept(automaton: &Started<'_>, row: usize, state: usize, layers: &mut BitRows)
    requires row { HasRow layers.old row }
    requires fits { FitsStates automaton.now layers.old }
    requires state { IsState automaton.now (number state) }
    ensures states { (i p : ℕ) → Has layers.new i p
        ↔ (Has layers.old i p × ((i ≡ row) × (p ≡ state) → IsAccepting automaton.now state)) }
    ensures width { layers.new.width ≡ layers.old.width }
    ensures size { length layers.new.words.items ≡ length layers.old.words.items }
{
    if automaton.accepts(state) {
        return;
    }
    layers.remove(row, state);
}

/// Keeps the states from which it can end, and adds the symbols on the way, where this is done behind the last of that many places.
pub fn retreat(
    automaton: &Started<'_>,
    values: &BitRows,
    places: usize,
    layers: &mut BitRows,
    supports: &mut BitRows,
)
    requires states { AreEnding automaton.now values.now places places layers.old }
    requires rows { HasRows layers.old (places + 1) }
    requires fits { FitsStates automaton.now layers.old }
    requires values { HasRows values.now places }
    requires supports { HasRows supports.old places }
    requires width { supports.old.width ≡ values.now.width }
    requires none { (i k : ℕ) → Has supports.old i k → ⊥ }
    ensures supports { (i k : ℕ) → Has supports.new i k
        ↔ ((i < places) × IsOnTheWay automaton.now (Has values.now) places i k) }
    ensures width { supports.new.width ≡ supports.old.width }
    ensures size { length supports.new.words.items ≡ length supports.old.words.items }
{
    for place in (0..places).rev() {
        keep_ending(automaton, values, place, place + 1, layers, supports);
    }
}

/// Keeps the states before a place from which a symbol leads to a state after it, and adds these symbols.
fn keep_ending(
    automaton: &Started<'_>,
    values: &BitRows,
    place: usize,
    after: usize,
    layers: &mut BitRows,
    supports: &mut BitRows,
)
    requires differ { after ≡ place → ⊥ }
    requires before { HasRow layers.old place }
    requires after { HasRow layers.old after }
    requires fits { FitsStates automaton.now layers.old }
    requires states { (p : ℕ) → Has layers.old place p → IsState automaton.now (number p) }
    requires values { HasRow values.now place }
    requires supports { HasRow supports.old place }
    requires width { supports.old.width ≡ values.now.width }
    ensures states { (i p : ℕ) → Has layers.new i p ↔ (Has layers.old i p
        × ((i ≡ place) → Leads automaton.now values.now layers.old place after p)) }
    ensures supports { (i k : ℕ) → Has supports.new i k ↔ (Has supports.old i k
        ⊎ ((p : ℕ) × Has layers.old place p × SupportsAt automaton.now values.now layers.old place after p i k)) }
    ensures layers_width { layers.new.width ≡ layers.old.width }
    ensures layers_size { length layers.new.words.items ≡ length layers.old.words.items }
    ensures width { supports.new.width ≡ supports.old.width }
    ensures size { length supports.new.words.items ≡ length supports.old.words.items }
{
    let mut from = 0;
    'states: while let Some(state) = layers.next(place, from) {
        keep_state(automaton, values, place, after, state, layers, supports);
        from = state + 1;
    }
}

/// Takes a state from those before a place, unless a symbol leads from it to one after it, and adds these symbols.
fn keep_state(
    automaton: &Started<'_>,
    values: &BitRows,
    place: usize,
    after: usize,
    state: usize,
    layers: &mut BitRows,
    supports: &mut BitRows,
)
    requires before { HasRow layers.old place }
    requires after { HasRow layers.old after }
    requires fits { FitsStates automaton.now layers.old }
    requires state { IsState automaton.now (number state) }
    requires values { HasRow values.now place }
    requires supports { HasRow supports.old place }
    requires width { supports.old.width ≡ values.now.width }
    ensures states { (i p : ℕ) → Has layers.new i p ↔ (Has layers.old i p
        × ((i ≡ place) × (p ≡ state) → Leads automaton.now values.now layers.old place after state)) }
    ensures supports { (i k : ℕ) → Has supports.new i k ↔ (Has supports.old i k
        ⊎ SupportsAt automaton.now values.now layers.old place after state i k) }
    ensures layers_width { layers.new.width ≡ layers.old.width }
    ensures layers_size { length layers.new.words.items ≡ length layers.old.words.items }
    ensures width { supports.new.width ≡ supports.old.width }
    ensures size { length supports.new.words.items ≡ length supports.old.words.items }
{
    if support(automaton, values, place, after, state, layers, supports) {
        return;
    }
    layers.remove(place, state);
}

/// Adds the symbols at a place that lead from a state to one after it, and says whether there is one.
fn support(
    automaton: &Started<'_>,
    values: &BitRows,
    place: usize,
    after: usize,
    state: usize,
    layers: &BitRows,
    supports: &mut BitRows,
) -> bool
    requires after { HasRow layers.now after }
    requires fits { FitsStates automaton.now layers.now }
    requires state { IsState automaton.now (number state) }
    requires values { HasRow values.now place }
    requires supports { HasRow supports.old place }
    requires width { supports.old.width ≡ values.now.width }
    ensures some { IsTrue result ↔ Leads automaton.now values.now layers.now place after state }
    ensures supports { (i k : ℕ) → Has supports.new i k ↔ (Has supports.old i k
        ⊎ SupportsAt automaton.now values.now layers.now place after state i k) }
    ensures width { supports.new.width ≡ supports.old.width }
    ensures size { length supports.new.words.items ≡ length supports.old.words.items }
{
    let mut some = false;
    let mut from = 0;
    'symbols: while let Some(symbol) = automaton.next_symbol(state, values, place, from) {
        if !some || !supports.has(place, symbol) {
            some |= add_symbol(automaton, layers, after, state, symbol, place, supports);
        }
        from = symbol + 1;
    }
    some
}

/// Adds a symbol to a row if it leads from a state to one of another row, and says whether it does.
fn add_symbol(
    automaton: &Started<'_>,
    layers: &BitRows,
    after: usize,
    state: usize,
    symbol: usize,
    place: usize,
    supports: &mut BitRows,
) -> bool
    requires after { HasRow layers.now after }
    requires fits { FitsStates automaton.now layers.now }
    requires state { IsState automaton.now (number state) }
    requires supports { HasRow supports.old place }
    requires symbol { symbol / 64 < supports.old.width }
    ensures leads { IsTrue result ↔ LeadsIn automaton.now layers.now after state symbol }
    ensures supports { (i k : ℕ) → Has supports.new i k ↔ (Has supports.old i k
        ⊎ ((i ≡ place) × (k ≡ symbol) × LeadsIn automaton.now layers.now after state symbol)) }
    ensures width { supports.new.width ≡ supports.old.width }
    ensures size { length supports.new.words.items ≡ length supports.old.words.items }
{
    if does_lead(automaton, layers, after, state, symbol) {
        supports.insert(place, symbol);
        return true;
    }
    false
}

/// Whether a symbol leads from a state to one of a row.
fn does_lead(
    automaton: &Started<'_>,
    layers: &BitRows,
    row: usize,
    state: usize,
    symbol: usize,
) -> bool
    requires row { HasRow layers.now row }
    requires fits { FitsStates automaton.now layers.now }
    requires state { IsState automaton.now (number state) }
    ensures { IsTrue result ↔ LeadsIn automaton.now layers.now row state symbol }
{
    match automaton.next(state, symbol) {
        Some(next) => layers.has(row, next),
        None => false,
    }
}
