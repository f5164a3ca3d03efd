//! Terms at the front that are fixed, and the state behind them.
ghost use Rattle.std.specs.Prelude.{◌≡◌, ◌≤ℤ◌, ℤ, pos, List, length, IsNone, IfSome, MatchOption};
ghost use Rattle.std.specs.List.{AllByRecursion};
ghost use Rattle.fz_spec.specs.Truth.{IsState, IsStep};
ghost use Rattle.fz_strength.specs.Domains.{IsTermOf, Within};
ghost use Rattle.fz_regular.specs.Fronts.{IsFront};
ghost use Rattle.fz_regular.specs.Runs.{IsAcceptedAt, number};

use crate::automaton::Automaton;
use fz_prop::Store;
use fz_prop::terms::value_of;
use fz_spec::term::Term;

/// How many terms at the front are fixed, and the state behind them.
#[derive(Clone, Copy)]
pub struct Front {
    pub places: usize,
    pub state: usize,
}

/// The terms at the front that are fixed; `None` where no list that is accepted begins with their numbers.
pub fn front_of(store: &Store, terms: &[Term], automaton: &Automaton) -> Option<Front>
    requires { AllByRecursion (IsTermOf (length store.now.doms)) terms.now }
    ensures none { IsNone result → (a : List ℤ) → Within store.now.doms a
        → IsAcceptedAt automaton.now terms.now a → ⊥ }
    ensures front { IfSome result (λ f. IsFront automaton.now terms.now store.now.doms f.places
        automaton.now.start (number f.state)) }
    ensures state { IfSome result (λ f. IsState automaton.now (number f.state)) }
{
    let Some(mut state) = automaton.start() else {
        return None;
    };
    for (places, term) in terms.iter().enumerate() {
        let Some(value) = value_of(store, *term) else {
            return Some(Front { places, state });
        };
        match state_after(automaton, state, value) {
            Some(next) => state = next,
            None => return None,
        }
    }
    Some(Front {
        places: terms.len(),
        state,
    })
}

/// The state to which a number leads from a state, if there is one.
fn state_after(automaton: &Automaton, state: usize, value: i32) -> Option<usize>
    requires { IsState automaton.now (number state) }
    ensures { MatchOption result
        ((r : ℤ) → IsStep automaton.now (number state) value r → IsState automaton.now r → ⊥)
        (λ r. IsStep automaton.now (number state) value (number r) × IsState automaton.now (number r)) }
{
    if value < 1 {
        return None;
    }
    automaton.next(state, symbol_of(value))
}

/// The symbol of a number.
fn symbol_of(value: i32) -> usize
    requires { pos 1 ≤ℤ value }
    ensures { value ≡ number result }
{
    (value - 1) as usize
}
