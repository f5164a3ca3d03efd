//! The propagator of two lists of terms, each the inverse of the other.
//!
//! A run looks at the terms of the first list, and then at those of the second: each keeps the numbers that are places of the other
//! list, where its own place is left. It rests at once, unless a variable of the second list stands in the first, or twice.
#![tactic(auto)]

mod apart;
pub mod inverse;
mod keep;
mod numbers;
mod pointing;

pub use inverse::Inverse;
