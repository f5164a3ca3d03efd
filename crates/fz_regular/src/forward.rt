//! The states that are reached before each place.
ghost use Rattle.std.specs.Prelude.{◌≡◌, ◌↔◌, ◌⊎◌, ◌+◌, ℕ, length};
ghost use Rattle.fz_spec.specs.Truth.{IsState};
ghost use Rattle.fz_regular.specs.BitRows.{Has, HasRow};
ghost use Rattle.fz_regular.specs.Layers.{HasRows, FitsStates, AreReached, LeadsAt, LedAt};
ghost use Rattle.fz_regular.specs.Runs.{number};

use crate::bit_rows::BitRows;
use crate::started::Started;

/// Fills layers with the states that are reached before each of that many places, and after the last one.
pub fn reach(automaton: &Started<'_>, values: &BitRows, places: usize, layers: &mut BitRows)
    requires none { (i p : ℕ) → Has layers.old i p → ⊥ }
    requires rows { HasRows layers.old (places + 1) }
    requires values { HasRows values.now places }
    requires states { FitsStates automaton.now layers.old }
    ensures reached { AreReached automaton.now values.now places layers.new }
    ensures width { layers.new.width ≡ layers.old.width }
    ensures size { length layers.new.words.items ≡ length layers.old.words.items }
{
    layers.insert(0, automaton.start());
    for place in 0..places {
        step(automaton, values, place, place + 1, layers);
    }
}

/// Adds the states to which the symbols at a place lead from the states before it, to those after it.
fn step(automaton: &Started<'_>, values: &BitRows, place: usize, after: usize, layers: &mut BitRows)
    requires differ { place ≡ after → ⊥ }
    requires before { HasRow layers.old place }
    requires after { HasRow layers.old after }
    requires values { HasRow values.now place }
    requires fits { FitsStates automaton.now layers.old }
    requires states { (p : ℕ) → Has layers.old place p → IsState automaton.now (number p) }
    ensures states { (i r : ℕ) → Has layers.new i r ↔ (Has layers.old i r ⊎ ((p : ℕ) × Has layers.old place p
        × LedAt automaton.now values.now place after p i r)) }
    ensures width { layers.new.width ≡ layers.old.width }
    ensures size { length layers.new.words.items ≡ length layers.old.words.items }
{
    let mut from = 0;
    'states: while let Some(state) = layers.next(place, from) {
        lead(automaton, values, place, after, state, layers);
        from = state + 1;
    }
}

/// Adds the states to which the symbols at a place lead from a state.
fn lead(
    automaton: &Started<'_>,
    values: &BitRows,
    place: usize,
    after: usize,
    state: usize,
    layers: &mut BitRows,
)
    requires after { HasRow layers.old after }
    requires values { HasRow values.now place }
    requires fits { FitsStates automaton.now layers.old }
    requires state { IsState automaton.now (number state) }
    ensures states { (i r : ℕ) → Has layers.new i r ↔ (Has layers.old i r
        ⊎ ((k : ℕ) × Has values.now place k × LeadsAt automaton.now after state k i r)) }
    ensures width { layers.new.width ≡ layers.old.width }
    ensures size { length layers.new.words.items ≡ length layers.old.words.items }
{
    let mut from = 0;
    'symbols: while let Some(symbol) = automaton.next_symbol(state, values, place, from) {
        add_next(automaton, state, symbol, after, layers);
        from = symbol + 1;
    }
}

/// Adds the state to which a symbol leads from a state, if there is one.
fn add_next(
    automaton: &Started<'_>,
    state: usize,
    symbol: usize,
    after: usize,
    layers: &mut BitRows,
)
    requires after { HasRow layers.old after }
    requires fits { FitsStates automaton.now layers.old }
    requires state { IsState automaton.now (number state) }
    ensures states { (i r : ℕ) → Has layers.new i r
        ↔ (Has layers.old i r ⊎ LeadsAt automaton.now after state symbol i r) }
    ensures width { layers.new.width ≡ layers.old.width }
    ensures size { length layers.new.words.items ≡ length layers.old.words.items }
{
    match automaton.next(state, symbol) {
        Some(next) => layers.insert(after, next),
        None => {}
    }
}
