//! A propagator for each shape of what is said: the one place that names the crates of propagators. A constraint that has none of
//! its own is awaited: until one number is left of each of its terms, when it is true or false.
#![tactic(auto)]

pub mod any;
pub mod awaiting;
mod numbers;

pub use any::AnyPropagator;
