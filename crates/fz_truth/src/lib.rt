//! Whether an assignment satisfies a model: each number lies in the set of its variable, and each constraint is true. Sums are
//! taken in 128 bits, where none of them wraps. Nothing here takes memory.
#![tactic(auto)]

mod automaton;
mod constraint;
mod counts;
mod element;
mod inverse;
pub mod model;
mod numbers;
pub mod order;
mod reified;
mod sums;
mod table;
mod tasks;
mod terms;

pub use constraint::is_true;
pub use model::holds;
pub use order::better;
