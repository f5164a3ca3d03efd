//! The propagator of tasks that share a bounded resource if some of them can't run at the same time (Vilím: "Global constraints
//! in scheduling").
//!
//! Tasks that use more than half of the bound can't run together. One call says how soon all of some jobs can have ended, and
//! carries the rules: too many end by some time, one can't come before others, nor before all of them. Backward in time it is
//! the same with all times negated.
#![tactic(auto)]

pub mod disjunctive;
pub mod job;
mod narrow;
mod order;
mod tasks;

pub use disjunctive::Disjunctive;
