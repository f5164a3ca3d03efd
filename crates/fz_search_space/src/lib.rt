//! What a search asks of a space: a domain for each variable, cut down by decisions, and whether they are all fixed (Schulte,
//! Tack, Lagerkvist: "Modeling and Programming with Gecode", "Getting started" of its part on search).
#![tactic(auto)]

pub mod numbers;
pub mod space;

pub use numbers::least_of;
pub use space::{SearchSpace, Status};
