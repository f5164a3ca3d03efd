//! Numbers and their ranges: what is left of two numbers and of their product, quotient or rest. With roots and halves, and
//! operations on numbers of 32 bits, exact in 64.
#![tactic(auto)]

pub mod numbers;
mod ranges;
pub mod roots;
mod sizes;

pub use ranges::{Range, Ranges, narrowed};
