//! Propagators of Boolean constraints. A clause says by a literal whether one of its literals is true: it serves `bool_clause`,
//! its reified form, `array_bool_or` and `bool_or`; and `array_bool_and` and `bool_and`, which are false exactly if a negation
//! is true.
//!
//! Each run moves both ends of a long clause inward over literals that may not get true (head and tail lists, as in SATO, Zhang
//! and Stickel). If both ends are open it is done in two looks. A parity does the same over fixed terms, and keeps whether an
//! odd number of these are 1.
#![tactic(auto)]

pub mod clause;
mod literals;
pub mod parity;

pub use clause::Clause;
pub use parity::Parity;
