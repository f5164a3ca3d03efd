//! The steps of an automaton: the next state for each state and symbol, in order, counted from 1.
ghost use Rattle.std.specs.Prelude.{◌≡◌, ◌<◌, ◌≤◌, ◌≤ℤ◌, ◌/◌, ◌↔◌, ◌⊎◌, ℕ, pos, length, MatchOption, IfOk};
ghost use Rattle.fz_sets.specs.Sets.{IsInRange};
ghost use Rattle.fz_regular.specs.BitRows.{Has, HasRow};
ghost use Rattle.fz_regular.specs.Runs.{AreLeading, LeadsOn, LeadsTo, automaton_of, number};

use crate::bit_rows::BitRows;
use std::alloc::{AllocError, Global};

/// How many numbers there are from 1 to a last one.
pub fn count_to(last: i32) -> u32
    ensures count { (k : ℕ) → IsInRange (pos 1, last) (number k) ↔ (k < result) }
    ensures exact { pos 0 ≤ℤ last → pos result ≡ last }
    ensures bound { result ≤ 2147483647 }
{
    last.max(0) as u32
}

/// Which of so many states a number stands for, if it is one.
pub fn state_of(states: i32, value: i32) -> Option<usize>
    ensures { MatchOption result (IsInRange (pos 1, states) value → ⊥)
        (λ p. (value ≡ number p) × IsInRange (pos 1, states) (number p)) }
{
    if value < 1 || states < value {
        return None;
    }
    Some((value - 1) as usize)
}

/// The state to which a symbol leads from a state, if there is one, by the next state for each of both.
pub fn next_of(
    states: i32,
    symbols: i32,
    next: &[i32],
    state: usize,
    symbol: usize,
) -> Option<usize>
    requires { number state ≤ℤ states }
    ensures { MatchOption result
        ((r : ℕ) → LeadsTo (automaton_of states symbols next.now) state symbol r → ⊥)
        (λ r. LeadsTo (automaton_of states symbols next.now) state symbol r) }
{
    let symbols = count_to(symbols) as usize;
    if symbol >= symbols {
        return None;
    }
    match next.get(state * symbols + symbol) {
        Some(next) => state_of(states, *next),
        None => None,
    }
}

/// For each state the symbols that lead somewhere from it.
///
/// # Errors
/// `AllocError` where there is no memory.
pub fn leading_of(
    alloc: Global,
    states: i32,
    symbols: i32,
    next: &[i32],
) -> Result<BitRows, AllocError>
    ensures { IfOk result (λ b. AreLeading (automaton_of states symbols next.now) b) }
{
    let count = count_to(states) as usize;
    let mut leading = BitRows::none(alloc, count, count_to(symbols))?;
    for state in 0..count {
        add_row(states, symbols, next, state, &mut leading);
    }
    Ok(leading)
}

/// Adds the symbols that lead somewhere from a state to its row.
fn add_row(states: i32, symbols: i32, next: &[i32], state: usize, leading: &mut BitRows)
    requires state { number state ≤ℤ states }
    requires row { HasRow leading.old state }
    requires fits { (k : ℕ) → number k ≤ℤ symbols → k / 64 < leading.old.width }
    ensures added { (i k : ℕ) → Has leading.new i k ↔ (Has leading.old i k
        ⊎ ((i ≡ state) × LeadsOn (automaton_of states symbols next.now) state k)) }
    ensures width { leading.new.width ≡ leading.old.width }
    ensures size { length leading.new.words.items ≡ length leading.old.words.items }
{
    let count = count_to(symbols) as usize;
    for symbol in 0..count {
        add_leading(states, symbols, next, state, symbol, leading);
    }
}

/// Adds a symbol to the row of a state, if it leads somewhere from it.
fn add_leading(
    states: i32,
    symbols: i32,
    next: &[i32],
    state: usize,
    symbol: usize,
    leading: &mut BitRows,
)
    requires state { number state ≤ℤ states }
    requires row { HasRow leading.old state }
    requires symbol { symbol / 64 < leading.old.width }
    ensures added { (i k : ℕ) → Has leading.new i k ↔ (Has leading.old i k ⊎ ((i ≡ state)
        × (k ≡ symbol) × LeadsOn (automaton_of states symbols next.now) state symbol)) }
    ensures width { leading.new.width ≡ leading.old.width }
    ensures size { length leading.new.words.items ≡ length leading.old.words.items }
{
    match next_of(states, symbols, next, state, symbol) {
        Some(_) => leading.insert(state, symbol),
        None => {}
    }
}
