//! What a constraint says, of the arguments of a model, by the shape in its row: what is waited for there, and what a run costs.
#![tactic(auto)]

mod costs;
pub mod laws;
pub mod saying;
pub mod waits;

pub use saying::Saying;
pub use waits::Wait;
