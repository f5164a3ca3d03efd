//! Automata that start in one of their states.
ghost use Rattle.std.specs.Prelude.{◌≡◌, ◌<◌, ◌≤◌, ◌↔◌, ℕ, IsTrue, MatchOption};
ghost use Rattle.fz_spec.specs.Truth.{IsState, IsSymbol};
ghost use Rattle.fz_regular.specs.BitRows.{HasRow, IsNext};
ghost use Rattle.fz_regular.specs.Fronts as fronts;
ghost use Rattle.fz_regular.specs.Runs.{LeadsBy, LeadsTo, IsAccepting, number};

use crate::automaton::Automaton;
use crate::bit_rows::BitRows;
use std::marker::Model;

/// An automaton that starts in one of its states.
#[derive(Drop)]
pub struct Started<'a> {
    automaton: &'a Automaton,
    start: usize,
}

impl<'a> Model for Started<'a> {
    ghost use Rattle.fz_spec.specs.Truth as truth;
    ghost use Rattle.fz_spec.specs.Truth.{IsState};
    ghost use Rattle.fz_regular.specs.Fronts as fronts;
    ghost use Rattle.fz_regular.specs.Runs.{number};

    ghost Value = { truth.Automaton };

    ghost view = { λ s. fronts.started s.automaton.now (number s.start) };

    ghost invariant = { λ s. IsState s.automaton.now (number s.start) };
}

impl<'a> Started<'a> {
    /// An automaton that starts in a state.
    pub fn at(automaton: &'a Automaton, start: usize) -> Started<'a>
        requires { IsState automaton.now (number start) }
        ensures { result ≡ fronts.started automaton.now (number start) }
    {
        Started { automaton, start }
    }

    /// How many states it has.
    pub fn states(&self) -> u32
        ensures states { (k : ℕ) → IsState self.now (number k) ↔ (k < result) }
        ensures bound { result ≤ 2147483647 }
    {
        self.automaton.states()
    }

    /// How many symbols it has.
    pub fn symbols(&self) -> u32
        ensures symbols { (k : ℕ) → IsSymbol self.now (number k) ↔ (k < result) }
        ensures bound { result ≤ 2147483647 }
    {
        self.automaton.symbols()
    }

    /// The state where it starts.
    pub fn start(&self) -> usize
        ensures { (self.now.start ≡ number result) × IsState self.now (number result) }
    {
        self.start
    }

    /// Whether it accepts in a state.
    pub fn accepts(&self, state: usize) -> bool
        requires { IsState self.now (number state) }
        ensures { IsTrue result ↔ IsAccepting self.now state }
    {
        self.automaton.accepts(state)
    }

    /// The state to which a symbol leads from a state, if there is one.
    pub fn next(&self, state: usize, symbol: usize) -> Option<usize>
        requires { IsState self.now (number state) }
        ensures { MatchOption result ((r : ℕ) → LeadsTo self.now state symbol r → ⊥)
            (λ r. LeadsTo self.now state symbol r) }
    {
        self.automaton.next(state, symbol)
    }

    /// The first symbol of a row from one on that leads somewhere from a state, if there is one.
    pub fn next_symbol(
        &self,
        state: usize,
        symbols: &BitRows,
        row: usize,
        from: usize,
    ) -> Option<usize>
        requires state { IsState self.now (number state) }
        requires row { HasRow symbols.now row }
        ensures { MatchOption result
            ((k : ℕ) → from ≤ k → LeadsBy self.now symbols.now row state k → ⊥)
            (λ k. IsNext (LeadsBy self.now symbols.now row state) from k) }
    {
        self.automaton.next_symbol(state, symbols, row, from)
    }
}
