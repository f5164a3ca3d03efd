//! Automata.
ghost use Rattle.std.specs.Prelude.{◌≡◌, ◌<◌, ◌≤◌, ◌≤ℤ◌, ◌↔◌, ℕ, pos, IsTrue, MatchOption, IfOk};
ghost use Rattle.fz_spec.specs.Truth.{IsState, IsSymbol};
ghost use Rattle.fz_regular.specs.BitRows.{HasRow, IsNext};
ghost use Rattle.fz_regular.specs.Runs.{LeadsBy, LeadsTo, IsAccepting, number};

use crate::bit_rows::BitRows;
use crate::steps::{count_to, leading_of, next_of, state_of};
use fz_dom::Dom;
use std::alloc::{AllocError, Global};
use std::marker::Model;

/// What a list is accepted by. States and symbols are counted from 0 here.
#[derive(Drop)]
pub struct Automaton {
    states: i32,
    symbols: i32,
    /// The next state for each state and symbol, in order, counted from 1.
    next: Vec<i32>,
    start: i32,
    accepting: Dom,
    /// For each state the symbols that lead somewhere from it.
    leading: BitRows,
}

impl Model for Automaton {
    ghost use Rattle.fz_spec.specs.Truth as truth;
    ghost use Rattle.fz_regular.specs.Runs.{AreLeading};

    ghost Value = { truth.Automaton };

    ghost view = { λ a. record {
      states = a.states;
      symbols = a.symbols;
      next = a.next.items;
      start = a.start;
      accepting = a.accepting;
    } };

    ghost invariant = { λ a. AreLeading (record {
      states = a.states;
      symbols = a.symbols;
      next = a.next.items;
      start = a.start;
      accepting = a.accepting;
    }) a.leading };
}

impl Automaton {
    ghost use Rattle.fz_spec.specs.Truth as truth;

    /// The automaton of numbers of states and of symbols, the next state for each of both, where it starts, and where it accepts.
    ///
    /// # Errors
    /// `AllocError` where there is no memory.
    pub fn new(
        alloc: Global,
        states: i32,
        symbols: i32,
        next: &[i32],
        start: i32,
        accepting: &Dom,
    ) -> Result<Automaton, AllocError>
        ensures { IfOk result (λ a. a ≡ record {
          states = states;
          symbols = symbols;
          next = next.now;
          start = start;
          accepting = accepting.now;
        }) }
    {
        let leading = leading_of(alloc, states, symbols, next)?;
        let accepting = accepting.copy()?;
        let next = Vec::from_slice(alloc, next)?;
        Ok(Automaton {
            states,
            symbols,
            next,
            start,
            accepting,
            leading,
        })
    }

    /// How many states it has.
    pub fn states(&self) -> u32
        ensures states { (k : ℕ) → IsState self.now (number k) ↔ (k < result) }
        ensures bound { result ≤ 2147483647 }
    {
        count_to(self.states)
    }

    /// How many symbols it has.
    pub fn symbols(&self) -> u32
        ensures symbols { (k : ℕ) → IsSymbol self.now (number k) ↔ (k < result) }
        ensures exact { pos 0 ≤ℤ self.now.symbols → pos result ≡ self.now.symbols }
        ensures bound { result ≤ 2147483647 }
    {
        count_to(self.symbols)
    }

    /// The state where it starts, if it is one.
    pub fn start(&self) -> Option<usize>
        ensures { MatchOption result (IsState self.now self.now.start → ⊥)
            (λ p. (self.now.start ≡ number p) × IsState self.now (number p)) }
    {
        state_of(self.states, self.start)
    }

    /// Whether it accepts in a state.
    pub fn accepts(&self, state: usize) -> bool
        requires { IsState self.now (number state) }
        ensures { IsTrue result ↔ IsAccepting self.now state }
    {
        let _ = self.states();
        self.accepting.contains((state + 1) as i32)
    }

    /// The state to which a symbol leads from a state, if there is one.
    pub fn next(&self, state: usize, symbol: usize) -> Option<usize>
        requires { IsState self.now (number state) }
        ensures { MatchOption result ((r : ℕ) → LeadsTo self.now state symbol r → ⊥)
            (λ r. LeadsTo self.now state symbol r) }
    {
        next_of(self.states, self.symbols, &self.next, state, symbol)
    }

    /// The first symbol of a row from one on that leads somewhere from a state, if there is one.
    pub fn next_symbol(
        &self,
        state: usize,
        symbols: &BitRows,
        row: usize,
        from: usize,
    ) -> Option<usize>
        requires state { IsState self.now (number state) }
        requires row { HasRow symbols.now row }
        ensures { MatchOption result
            ((k : ℕ) → from ≤ k → LeadsBy self.now symbols.now row state k → ⊥)
            (λ k. IsNext (LeadsBy self.now symbols.now row state) from k) }
    {
        symbols.next_common(row, &self.leading, state, from)
    }
}
