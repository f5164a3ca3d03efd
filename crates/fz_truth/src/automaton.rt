//! Automata.
ghost use Rattle.std.specs.Prelude.{◌≡◌, ◌↔◌, ◌+◌, IsTrue, ℤ, pos, ◌≤ℤ◌, ◌+ℤ◌, ◌-ℤ◌, ◌*ℤ◌, MatchOption};
ghost use Rattle.fz_sets.specs.Sets.{IsInSet};
ghost use Rattle.fz_spec.specs.Constraints.{term_values};
ghost use Rattle.fz_spec.specs.Truth.{IsAccepted, IsState, IsStep};
ghost use Rattle.fz_truth.specs.Automata.{automaton_of, posted_of};

use fz_dom::Dom;
use fz_model::value_of;
use fz_spec::term::Term;
use std::sync::Arc;

/// An automaton as a constraint names it.
#[derive(Clone, Copy)]
pub(crate) struct Posted<'t> {
    pub(crate) states: Term,
    pub(crate) symbols: Term,
    pub(crate) next: &'t [i32],
    pub(crate) start: Term,
    pub(crate) accepting: &'t Arc<Dom>,
}

/// An automaton, but for its start.
#[derive(Clone, Copy)]
struct Automaton<'t> {
    states: i32,
    symbols: i32,
    next: &'t [i32],
    accepting: &'t Dom,
}

/// Whether the automaton of a constraint accepts the values of the terms.
pub(crate) fn is_regular(posted: Posted<'_>, terms: &[Term], values: &[i32]) -> bool
    ensures { IsTrue result
        ↔ IsAccepted (posted_of posted.entry values.now) (term_values values.now terms.now) }
{
    let automaton = Automaton {
        states: value_of(posted.states, values),
        symbols: value_of(posted.symbols, values),
        next: posted.next,
        accepting: posted.accepting,
    };
    let start = value_of(posted.start, values);
    is_accepted(automaton, start, terms, values)
}

/// Whether the automaton accepts the values of the terms.
fn is_accepted(automaton: Automaton<'_>, start: i32, terms: &[Term], values: &[i32]) -> bool
    ensures { IsTrue result
        ↔ IsAccepted (automaton_of automaton.entry start) (term_values values.now terms.now) }
{
    let mut state = start;
    for term in terms {
        match step(automaton, state, value_of(*term, values)) {
            Some(next) => state = next,
            None => return false,
        }
    }
    accepts(automaton, state)
}

/// Whether this is a state, and the automaton accepts in it.
fn accepts(automaton: Automaton<'_>, state: i32) -> bool
    ensures { let m = automaton_of automaton.entry state in
        IsTrue result ↔ (IsState m state × IsInSet m.accepting state) }
{
    is_among(state, automaton.states) && automaton.accepting.contains(state)
}

/// The state that a symbol goes to from another.
fn step(automaton: Automaton<'_>, from: i32, symbol: i32) -> Option<i32>
    ensures { let m = automaton_of automaton.entry from in MatchOption result
        ((q : ℤ) → IsState m from → IsStep m from symbol q → ⊥)
        (λ q. IsState m from × IsStep m from symbol q) }
{
    if !is_among(from, automaton.states) || !is_among(symbol, automaton.symbols) {
        return None;
    }
    let place = place_of_step(automaton.symbols, from, symbol);
    if place >= automaton.next.len() {
        return None;
    }
    Some(automaton.next[place])
}

/// Whether a number is one of that many, which count from 1.
fn is_among(number: i32, count: i32) -> bool
    ensures { IsTrue result ↔ ((pos 1 ≤ℤ number) × (number ≤ℤ count)) }
{
    1 <= number && number <= count
}

/// Where the next state stands, from 0.
fn place_of_step(symbols: i32, from: i32, symbol: i32) -> usize
    requires from { pos 1 ≤ℤ from }
    requires symbol { pos 1 ≤ℤ symbol }
    requires symbols { pos 1 ≤ℤ symbols }
    ensures { ((from -ℤ pos 1) *ℤ symbols) +ℤ symbol ≡ pos (result + 1) }
{
    (from - 1) as usize * symbols as usize + (symbol - 1) as usize
}
