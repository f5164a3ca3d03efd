//! The propagator of a list of terms that an automaton accepts (Pesant: "A Regular Language Membership Constraint for Finite
//! Sequences of Variables").
//!
//! A run finds which states are reached before each place by the numbers that are left, from the first place to the last; then, back
//! from the last, from which of them it can end where the automaton accepts. A number stays where it leads from one of these states
//! to another. States and numbers are bits of rows. Places at the front that are fixed are passed over, by the state behind them. It
//! rests at once, unless a variable stands at two places.
#![tactic(auto)]

pub mod automaton;
mod backward;
mod bit_rows;
mod forward;
mod front;
mod keep;
pub mod regular;
mod started;
mod steps;
mod supports;

pub use automaton::Automaton;
pub use regular::Regular;
