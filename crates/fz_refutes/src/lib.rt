//! What it means that an output proves its answer: boxes, when a box refutes a constraint, trees that refute boxes, and
//! certificates as text. The laws say that what proves is best, or that none satisfies.
#![tactic(auto)]

pub mod certain;
pub mod laws;
